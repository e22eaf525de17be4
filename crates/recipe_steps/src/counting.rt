// How many copies a step makes, and whether its numbers keep them near. Sums and products stop above their limit, so that none wraps.
ghost use Rattle.std.specs.Prelude.{◌≡◌, ◌+◌, ◌≤◌};
ghost use Rattle.std.specs.Int.{w64};
ghost use Rattle.std.proofs.Common.{to_z};
ghost use Rattle.laws.specs.Search.{all, total};
ghost use Rattle.recipe_types.specs.Typemaps.{product};
ghost use Rattle.recipe_types.specs.Recipes.{item_number, dimension_at};
ghost use Rattle.recipe_types.specs.Parts.{Capped, copies_of, step_near, near};
ghost use Rattle.recipe_steps.specs.Parts.{step_by, Sound, Factors};

use crate::items::item_number;
use crate::signs::{MAX_PLACE, is_near};
use crate::{CONTIGUOUS, INDEXED, SUBARRAY, StepNumbers, VECTOR, items};

// The most entries of a type, so the most copies that matter.
const MAX_COPIES: u64 = 256;

// The sum of the block lengths of `n` blocks from item `first` on. Each block has a copy, so the loop ends soon.
#[tactic(auto, using(laws::proofs::Prelude::total_more), unfolding(laws::specs::Search::total))]
fn total_length(items: &[u64], first: u64, n: u64) -> u64
    ensures { Capped 256 (total (λ i. item_number items.now (first + i) 0) n) result }
{
    let mut sum: u64 = 0;
    for i in 0..n {
        sum = sum.saturating_add(item_number(items, first, i, items::BLOCK_LENGTH));
        if MAX_COPIES < sum {
            return sum;
        }
    }
    sum
}

// The product of number `which` of `n` items from item `first` on.
#[tactic(auto, using(crate::proofs::Capping::product_more), unfolding(recipe_types::specs::Typemaps::product))]
fn product_of(items: &[u64], first: u64, n: u64, which: u64, limit: u64) -> u64
    requires { Factors items.now first n which limit }
    ensures { Capped limit (product (λ i. item_number items.now (first + i) which) n) result }
{
    let mut product: u64 = 1;
    for i in 0..n {
        product = product.saturating_mul(item_number(items, first, i, which));
        if limit < product {
            return product;
        }
    }
    product
}

// How many copies a step makes: exact up to 256, and else some number above.
#[tactic(auto, using(crate::proofs::Checked::subsize_factors), unfolding(crate::specs::Parts::step_by, recipe_types::specs::Recipes::step_of, recipe_types::specs::Recipes::block_at, recipe_types::specs::Recipes::dimension_at, recipe_types::specs::Parts::copies_of))]
pub fn copies(s: StepNumbers, items: &[u64]) -> u64
    requires { Sound items.now s }
    ensures { Capped 256 (copies_of (step_by items.now s)) result }
{
    match s.kind {
        CONTIGUOUS => s.a,
        VECTOR => s.a.saturating_mul(s.b),
        INDEXED => total_length(items, s.a, s.b),
        SUBARRAY => product_of(items, s.a, s.b, items::SUBSIZE, MAX_COPIES),
        _ => 1,
    }
}

// How many elements a subarray's array has: exact up to 2^20, and else some number above.
#[tactic(auto, using(crate::proofs::Checked::size_factors), unfolding(recipe_types::specs::Recipes::dimension_at))]
pub fn array_size(s: StepNumbers, items: &[u64]) -> u64
    requires { Sound items.now s × (s.kind ≡ 4) }
    ensures { Capped 1048576 (product (λ i. (dimension_at items.now (s.a + i)).size) s.b) result }
{
    product_of(items, s.a, s.b, items::SIZE, MAX_PLACE)
}

// Whether the displacements of `n` blocks from item `first` on are near.
fn blocks_near(items: &[u64], first: u64, n: u64) -> bool
    ensures { result ≡ all (λ i. near (to_z w64 (item_number items.now (first + i) 1))) n }
{
    (0..n).all(|i| is_near(item_number(items, first, i, items::DISPLACEMENT)))
}

// Whether no number of a step takes a copy far by itself.
#[tactic(auto, unfolding(laws::specs::Checks::either, crate::specs::Parts::step_by, recipe_types::specs::Recipes::step_of, recipe_types::specs::Recipes::block_at, recipe_types::specs::Parts::step_near))]
pub fn near_enough(s: StepNumbers, items: &[u64]) -> bool
    requires { Sound items.now s × (copies_of (step_by items.now s) ≤ 256) }
    ensures { result ≡ step_near (step_by items.now s) }
{
    match s.kind {
        VECTOR => s.a == 1 || is_near(s.c),
        INDEXED => blocks_near(items, s.a, s.b),
        SUBARRAY => array_size(s, items) <= MAX_PLACE,
        _ => true,
    }
}
