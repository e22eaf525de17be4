//! A recipe's steps by themselves: their numbers, checks 27 to 29, how many copies a step makes, and where they lie. For our own crates.
#![tactic(auto)]

mod checks;
mod counting;
mod items;
mod places;
mod signs;

ghost use Rattle.std.specs.Prelude.{◌≡◌, eqb, ◌<◌};
ghost use Rattle.laws.specs.Checks.{either};
ghost use Rattle.recipe_steps.specs.Parts.{numbers_at, names_by};

pub use checks::{dimensions_allowed, none_zero};
pub use counting::{array_size, copies, near_enough};
pub use places::put_places;
use recipe_types::{BASIC, STEP, number};
use rule_limits::width_allowed;
pub use signs::signed;

// A step's six numbers, as docs/recipes.md has them. A step goes beside the items, not in one struct with them: contracts read `step_by items.now s`.
#[derive(Clone, Copy)]
pub struct StepNumbers {
    pub kind: u64,
    pub source: u64,
    pub name: u64,
    pub a: u64,
    pub b: u64,
    pub c: u64,
}

// The kinds of a step. A recipe's lent list holds any number, and check 27 refuses one that is no kind: so a kind is a number and no enum, and so is what a step names.
pub const CONTIGUOUS: u64 = 1;

pub const VECTOR: u64 = 2;

pub const INDEXED: u64 = 3;

pub const SUBARRAY: u64 = 4;

pub const RESIZED: u64 = 5;

// How many numbers a step has.
pub const STEP_SIZE: usize = 6;

// The numbers of step `i`.
#[tactic(auto, unfolding(crate::specs::Parts::numbers_at))]
pub fn step_at(steps: &[u64], i: usize) -> StepNumbers
    requires { i < 32 }
    ensures { result ≡ numbers_at steps.now i }
{
    let at = STEP_SIZE * i;
    StepNumbers {
        kind: number(steps, at),
        source: number(steps, at + 1),
        name: number(steps, at + 2),
        a: number(steps, at + 3),
        b: number(steps, at + 4),
        c: number(steps, at + 5),
    }
}

// Whether step `i`, of one of the five kinds, names a basic width or an earlier step.
#[tactic(auto, unfolding(laws::specs::Checks::also, laws::specs::Checks::either, laws::specs::Checks::within, crate::specs::Parts::names_by))]
pub fn names_allowed(s: StepNumbers, i: usize) -> bool
    ensures { result ≡ names_by s i }
{
    (CONTIGUOUS..=RESIZED).contains(&s.kind)
        && match s.source {
            BASIC => width_allowed(s.name),
            STEP => s.name < i as u64,
            _ => false,
        }
}

// Whether the step sets the bounds of the type that it makes.
#[tactic(auto, unfolding(laws::specs::Checks::either))]
pub fn sets_bounds(s: StepNumbers) -> bool
    ensures { result ≡ either (eqb s.kind 4) (eqb s.kind 5) }
{
    s.kind == SUBARRAY || s.kind == RESIZED
}
