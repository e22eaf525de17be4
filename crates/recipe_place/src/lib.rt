//! Placing the entries of a step: each copy of what it names, an earlier step or a basic width, with a shift. For our own crates.
#![tactic(auto)]

ghost use Rattle.std.specs.Prelude.{◌≡◌, ◌<◌, length};
ghost use Rattle.recipe_place.specs.Parts.{row_of, CopyFits, copy_shift, BasicFits, basic_copies, PlaceAsked, Placed, plan_of};

// What is added to a shift, which may be negative: 2^20.
pub const SHIFT_BIAS: u64 = 1048576;

// What a row says of a step: how many copies, and what it names. Source and name stay two numbers, as the table has them and `shape_named` takes them: they are told apart once, in `place`.
#[derive(Clone, Copy)]
struct Row {
    copies: usize,
    source: u64,
    name: u64,
}

// What row `i` says. The rows are lent as a slice: `place` hands on the part of a table that it was lent.
#[tactic(auto, unfolding(crate::specs::Parts::row_of))]
fn row_at(rows: &[u64], i: usize) -> Row
    requires { (i < 32) × (length rows.now ≡ 256) }
    ensures { result ≡ row_of rows.now i }
{
    let at = recipe_types::ROW * i;
    Row {
        copies: rows[at] as usize,
        source: rows[at + 1],
        name: rows[at + 2],
    }
}

// The shift of copy `k` of step `i`, where the step itself is shifted.
#[tactic(auto, unfolding(crate::specs::Parts::copy_shift))]
fn copy_shift(places: &[u64], i: usize, k: usize, shift: u64, extent: u64) -> u64
    requires { CopyFits places.now i k shift extent }
    ensures { result ≡ copy_shift places.now i k shift extent }
{
    let at = recipe_types::STEP_PLACES * i + k;
    let from = shift + places[at] * extent;
    from - recipe_types::BIAS * extent
}

// Puts the entries of step `i`, which names a basic width, at the front of both lists, shifted. The two lists are lent apart, as `flatten` has them, and their parts go on apart.
#[tactic(auto, unfolding(crate::specs::Parts::copy_shift))]
fn place_basic(
    row: Row,
    places: &[u64],
    i: usize,
    shift: u64,
    widths: &mut [u64],
    displacements: &mut [i64],
)
    requires { BasicFits row places.now i shift (length widths.old) (length displacements.old) }
    ensures { Placed (basic_copies row places.now i) shift widths.old widths.new displacements.old displacements.new }
{
    let n = row.copies;
    widths[..n].fill(row.name);
    for (k, displacement) in displacements[..n].iter_mut().enumerate() {
        let to = copy_shift(places, i, k, shift, row.name);
        *displacement = (to - SHIFT_BIAS) as i64;
    }
}

// Puts the entries of step `i` at the front of both lists, shifted. A step that is named stands before the one that names it.
// Rows and places come apart: `StepTable` is of recipe_plan, which is not below this crate, and `Plan` speaks of two lists.
pub fn place(
    rows: &[u64],
    places: &[u64],
    i: usize,
    shift: u64,
    widths: &mut [u64],
    displacements: &mut [i64],
)
    requires { PlaceAsked rows.now places.now i shift (length widths.old) (length displacements.old) }
    ensures { Placed (plan_of rows.now places.now i) shift widths.old widths.new displacements.old displacements.new }
{
    let row = row_at(rows, i);
    if row.source == recipe_types::BASIC {
        place_basic(row, places, i, shift, widths, displacements);
        return;
    }
    let step = row.name as usize;
    let below = recipe_types::shape_at(rows, step);
    let entries = below.entries as usize;
    for k in 0..row.copies {
        let at = k * entries;
        let to = copy_shift(places, i, k, shift, below.extent);
        place(
            rows,
            places,
            step,
            to,
            &mut widths[at..],
            &mut displacements[at..],
        );
    }
}
