// Checks 28 and 29 of a step.
ghost use Rattle.std.specs.Prelude.{◌≡◌, ◌+◌};
ghost use Rattle.laws.specs.Search.{all};
ghost use Rattle.recipe_types.specs.Recipes.{none_zero, dimensions_allowed, inside, some_of, item_number, dimension_at};
ghost use Rattle.recipe_steps.specs.Parts.{step_by};

use crate::items::item_number;
use crate::{CONTIGUOUS, INDEXED, SUBARRAY, StepNumbers, VECTOR, items};

// The most dimensions of a subarray.
const MAX_DIMENSIONS: u64 = 4;

// Whether number `which` of each of `n` items from item `first` on is at least 1. No item past the end of the list is, so the test ends there.
fn all_some(items: &[u64], first: u64, n: u64, which: u64) -> bool
    ensures { result ≡ all (λ i. some_of (item_number items.now (first + i) which)) n }
{
    (0..n).all(|i| 1 <= item_number(items, first, i, which))
}

// Check 28: no count, block length or subsize of a step is 0.
#[tactic(auto, unfolding(laws::specs::Checks::also, crate::specs::Parts::step_by, recipe_types::specs::Recipes::step_of, recipe_types::specs::Recipes::none_zero, recipe_types::specs::Recipes::some_of, recipe_types::specs::Recipes::block_at, recipe_types::specs::Recipes::dimension_at))]
pub fn none_zero(s: StepNumbers, items: &[u64]) -> bool
    ensures { result ≡ none_zero (step_by items.now s) }
{
    match s.kind {
        CONTIGUOUS => 1 <= s.a,
        VECTOR => 1 <= s.a && 1 <= s.b,
        INDEXED => 1 <= s.b && all_some(items, s.a, s.b, items::BLOCK_LENGTH),
        SUBARRAY => all_some(items, s.a, s.b, items::SUBSIZE),
        _ => true,
    }
}

// Whether the subarray is inside its array in dimension `i` from item `first` on.
#[tactic(auto, using(std::proofs::lemmas::Int::ints, std::proofs::lemmas::Bool::Decides::nat_tests), unfolding(laws::specs::Checks::also, recipe_types::specs::Recipes::inside, recipe_types::specs::Recipes::dimension_at))]
fn dimension_inside(items: &[u64], first: u64, i: u64) -> bool
    ensures { result ≡ inside (dimension_at items.now (first + i)) }
{
    let size = item_number(items, first, i, items::SIZE);
    let subsize = item_number(items, first, i, items::SUBSIZE);
    let start = item_number(items, first, i, items::START).cast_signed();
    0 <= start && subsize <= size && start as u64 <= size - subsize
}

// Whether the subarray is inside its array in each of `n` dimensions from item `first` on.
fn all_inside(items: &[u64], first: u64, n: u64) -> bool
    ensures { result ≡ all (λ i. inside (dimension_at items.now (first + i))) n }
{
    (0..n).all(|i| dimension_inside(items, first, i))
}

// Check 29: a subarray has 1 to 4 dimensions and is inside its array.
#[tactic(auto, unfolding(laws::specs::Checks::also, laws::specs::Checks::within, crate::specs::Parts::step_by, recipe_types::specs::Recipes::step_of, recipe_types::specs::Recipes::dimensions_allowed))]
pub fn dimensions_allowed(s: StepNumbers, items: &[u64]) -> bool
    ensures { result ≡ dimensions_allowed (step_by items.now s) }
{
    s.kind != SUBARRAY || (1..=MAX_DIMENSIONS).contains(&s.b) && all_inside(items, s.a, s.b)
}
