// Where the copies of a step lie: their places in extents of the type that the step names, each with the bias added.
// `out` is a part of the flat table, so its length is asked for and is not of its type.
ghost use Rattle.std.specs.Prelude.{◌≡◌, ◌+◌, ◌*◌, ◌≤◌, length};
ghost use Rattle.std.proofs.Math.IntN.{sub_ℕ};
ghost use Rattle.std.specs.Int.{w64};
ghost use Rattle.std.proofs.Common.{to_z};
ghost use Rattle.laws.specs.Search.{total};
ghost use Rattle.recipe_types.specs.Typemaps.{block_place, element_place};
ghost use Rattle.recipe_types.specs.Parts.{bias};
ghost use Rattle.recipe_steps.specs.Parts.{numbers_from, blocks_from, dimensions_from, vector_place, Placeable, PlacesPut, Run, Put, BlocksReady, VectorReady, IndexedReady, ArrayReady, ElementAt};

use crate::counting::copies;
use crate::items::item_number;
use crate::signs::biased;
use crate::{CONTIGUOUS, INDEXED, SUBARRAY, StepNumbers, VECTOR, items};
use recipe_types::BIAS;

// Puts `start`, `start + 1` and so on, `n` numbers, into `out` from `at` on.
fn put_run(out: &mut [u64], at: usize, start: u64, n: usize)
    requires { (at + n ≤ length out.old) × (start + n ≤ 2147483648) }
    ensures { Run at start n out.old out.new }
{
    for (j, place) in out[at..at + n].iter_mut().enumerate() {
        *place = start + j as u64;
    }
}

// Puts the places of `count` blocks of `each` copies. The stride has the bias added.
#[tactic(auto, using(crate::proofs::Placing::start_low))]
fn put_blocks(count: u64, each: usize, stride: u64, out: &mut [u64])
    requires { BlocksReady count each stride × (256 ≤ length out.old) }
    ensures { Put (vector_place each (sub_ℕ stride bias)) (count * each) out.old out.new }
{
    for i in 0..count {
        let start = BIAS + i * stride - i * BIAS;
        put_run(out, i as usize * each, start, each);
    }
}

// Puts the places of a vector's copies. With one block the stride is not looked at.
#[tactic(auto, using(crate::proofs::Placing::vector_one), unfolding(laws::specs::Checks::either))]
fn put_vector(s: StepNumbers, out: &mut [u64])
    requires { VectorReady s × (256 ≤ length out.old) }
    ensures { Put (vector_place s.b (to_z w64 s.c)) (s.a * s.b) out.old out.new }
{
    let each = s.b as usize;
    if s.a == 1 {
        put_run(out, 0, BIAS, each);
    } else {
        put_blocks(s.a, each, biased(s.c), out);
    }
}

// Puts the places of the copies of `n` blocks from item `first` on, a run a block.
#[tactic(auto, using(crate::proofs::Indexing::end_in), unfolding(laws::specs::Search::total))]
fn put_indexed(items: &[u64], first: u64, n: u64, out: &mut [u64])
    requires { IndexedReady items.now first n × (256 ≤ length out.old) }
    ensures { Put (block_place (blocks_from items.now first) n) (total (numbers_from items.now first 0) n) out.old out.new }
{
    let mut at = 0;
    for i in 0..n {
        let each = item_number(items, first, i, items::BLOCK_LENGTH) as usize;
        let start = biased(item_number(items, first, i, items::DISPLACEMENT));
        put_run(out, at, start, each);
        at += each;
    }
}

// Where element `k` of a subarray of `n` dimensions from item `first` on lies in its array: the last dimension runs fastest.
#[tactic(auto, using(crate::proofs::Elements::array_less, crate::proofs::Elements::place_small), unfolding(recipe_types::specs::Typemaps::element_place, recipe_types::specs::Typemaps::product))]
fn element_place(items: &[u64], first: u64, n: u64, k: u64) -> u64
    requires { ArrayReady items.now first n }
    ensures { ElementAt items.now first n k result }
{
    if n == 0 {
        return 0;
    }
    let last = n - 1;
    let size = item_number(items, first, last, items::SIZE);
    let subsize = item_number(items, first, last, items::SUBSIZE);
    let start = item_number(items, first, last, items::START);
    let rows = element_place(items, first, last, k / subsize);
    rows * size + (start + k % subsize)
}

// Puts the places of the first `count` elements of a subarray.
#[tactic(auto, using(crate::proofs::Elements::element_put))]
fn put_elements(items: &[u64], first: u64, n: u64, count: usize, out: &mut [u64])
    requires { ArrayReady items.now first n × (count ≤ 256) × (256 ≤ length out.old) }
    ensures { Put (element_place (dimensions_from items.now first) n) count out.old out.new }
{
    for (k, place) in out[..count].iter_mut().enumerate() {
        *place = BIAS + element_place(items, first, n, k as u64);
    }
}

// Puts the places of a step's copies at the front of `out`, each with the bias added.
#[tactic(auto, unfolding(crate::specs::Parts::step_by, crate::specs::Parts::vector_place, crate::specs::Parts::numbers_from, crate::specs::Parts::blocks_from, crate::specs::Parts::dimensions_from, recipe_types::specs::Recipes::step_of, recipe_types::specs::Recipes::block_at, recipe_types::specs::Parts::copies_of, recipe_types::specs::Parts::place_of))]
pub fn put_places(s: StepNumbers, items: &[u64], out: &mut [u64])
    requires { Placeable items.now s × (256 ≤ length out.old) }
    ensures { PlacesPut items.now s out.old out.new }
{
    match s.kind {
        CONTIGUOUS => put_run(out, 0, BIAS, s.a as usize),
        VECTOR => put_vector(s, out),
        INDEXED => put_indexed(items, s.a, s.b, out),
        SUBARRAY => put_elements(items, s.a, s.b, copies(s, items) as usize, out),
        _ => out[0] = BIAS,
    }
}
