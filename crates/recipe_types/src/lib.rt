//! Recipes of types: their numbers, and the numbers of a type.
#![tactic(auto)]

ghost use Rattle.std.specs.Prelude.{◌≡◌, ◌<◌, length};
ghost use Rattle.laws.specs.Lists.{nth};
ghost use Rattle.recipe_types.specs.Parts.{basic_shape, shape_at, shape_named, Nameable};

// The numbers of a type: how many entries, the extent, the least displacement, the greatest end of an entry, and how far the lower bound lies below the least displacement.
#[derive(Clone, Copy)]
pub struct Shape {
    pub entries: u64,
    pub extent: u64,
    pub least: u64,
    pub end: u64,
    pub base: u64,
}

// Number `at` of a list, 0 past its end.
pub fn number(l: &[u64], at: usize) -> u64
    ensures { result ≡ nth l.now at }
{
    l.get(at).copied().unwrap_or(0)
}

// The numbers of the basic type of a width. A name for what eight places ask.
#[tactic(auto, unfolding(crate::specs::Parts::basic_shape))]
pub fn basic_shape(width: u64) -> Shape
    ensures { result ≡ basic_shape width }
{
    Shape {
        entries: 1,
        extent: width,
        least: 0,
        end: width,
        base: 0,
    }
}

// How many numbers a step has in the table of steps, and how many places.
pub const ROW: usize = 8;

pub const STEP_PLACES: usize = 256;

// What is added to a place, which may be negative: 2^30.
pub const BIAS: u64 = 1073741824;

// What a step names: a basic width, or an earlier step. A recipe's lent list holds any number here, so this is no enum.
pub const BASIC: u64 = 1;

pub const STEP: u64 = 2;

// The numbers of the type of step `i`, from the table. The rows are lent as a slice: `place` hands on the part of a table that it was lent.
#[tactic(auto, unfolding(crate::specs::Parts::shape_at))]
pub fn shape_at(rows: &[u64], i: usize) -> Shape
    requires { (i < 32) × (length rows.now ≡ 256) }
    ensures { result ≡ shape_at rows.now i }
{
    let at = ROW * i;
    Shape {
        entries: rows[at + 3],
        extent: rows[at + 4],
        least: rows[at + 5],
        end: rows[at + 6],
        base: rows[at + 7],
    }
}

// The numbers of the type that is named: a basic type's, or from the table, lent as for `shape_at`.
#[tactic(auto, unfolding(crate::specs::Parts::shape_named))]
pub fn shape_named(rows: &[u64], source: u64, name: u64) -> Shape
    requires { Nameable source name × (length rows.now ≡ 256) }
    ensures { result ≡ shape_named rows.now source name }
{
    if source == BASIC {
        basic_shape(name)
    } else {
        shape_at(rows, name as usize)
    }
}
