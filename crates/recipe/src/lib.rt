//! Types from recipes: MPI's constructors contiguous, vector, indexed, subarray in C order, and resized with lower bound 0. docs/recipes.md has the form of a recipe and the refusal numbers.
//! Its buffers are arrays of the greatest length: no library here allocates.
#![tactic(auto)]

ghost use Rattle.std.specs.Prelude.{◌≡◌, ◌<◌, ◌/◌, ◌%◌, eqb, replicate};
ghost use Rattle.laws.specs.Checks.{also, within};
ghost use Rattle.recipe_types.specs.Recipes.{recipe_of};
ghost use Rattle.recipe_types.specs.Parts.{shape_at};
ghost use Rattle.recipe_plan.specs.Parts.{recipe_refusal_in};
ghost use Rattle.recipe.specs.Flattening.{FlattenDone, faulty_step};
ghost use Rattle.recipe.specs.Parts.{last_by, AllJudged};

use recipe_plan::{Recipe, Refusal, StepTable};
use recipe_steps::STEP_SIZE;
// The refusal numbers.
pub use recipe_plan::{
    REFUSED_DIMENSIONS, REFUSED_ENTRIES, REFUSED_LIMITS, REFUSED_LOWER_BOUND, REFUSED_NAME,
    REFUSED_ROOM, REFUSED_STEPS, REFUSED_ZERO,
};
// The kinds of steps, and a signed number of a recipe.
pub use recipe_steps::{CONTIGUOUS, INDEXED, RESIZED, SUBARRAY, VECTOR, signed};
// What a step names: a basic width, or an earlier step.
pub use recipe_types::{BASIC, STEP};

// Entry count and extent of the type that a recipe means, 0 if it is refused. The refusal is a number, 0 for none, since FlattenDone states it so.
#[derive(Clone, Copy)]
pub struct Flattened {
    pub refusal: u64,
    pub entries: u64,
    pub extent: i64,
}

const MAX_STEPS: usize = 32;

// A recipe's refusal, and the step that it is of, counted from 0; none where the number of steps is wrong.
#[derive(Clone, Copy)]
struct Fault {
    refusal: Refusal,
    step: Option<u64>,
}

// Checks 32 and 33 of the last step, `i`.
#[tactic(auto, unfolding(crate::specs::Parts::last_by, laws::specs::Checks::check, laws::specs::Checks::also))]
fn last_refusal(
    rows: &[u64; 256],
    i: usize,
    widths: usize,
    displacements: usize,
) -> Result<(), Refusal>
    requires { i < 32 }
    ensures { recipe_refusal_in result ≡ last_by (shape_at rows.now i) widths displacements }
{
    let t = recipe_types::shape_at(rows, i);
    if t.least != t.base {
        return Err(Refusal::LowerBound);
    }
    if (widths as u64) < t.entries || (displacements as u64) < t.entries {
        return Err(Refusal::Room);
    }
    Ok(())
}

// A table with no step in it.
fn empty_table() -> StepTable
    ensures { (result.rows ≡ replicate 256 0) × (result.places ≡ replicate 8192 0) }
{
    StepTable {
        rows: [0; 256],
        places: [0; 8192],
    }
}

// Judges the steps in order, and fills the table of steps, for lists of these lengths.
fn judge(
    recipe: &Recipe,
    widths: usize,
    displacements: usize,
    table: &mut StepTable,
) -> Result<(), Fault>
    ensures { AllJudged (recipe_of recipe.now.steps.now recipe.now.items.now) widths displacements table.new.rows table.new.places result }
{
    if !steps_allowed(recipe.steps.len()) {
        return Err(Fault {
            refusal: Refusal::Steps,
            step: None,
        });
    }
    let n = recipe.steps.len() / STEP_SIZE;
    for i in 0..n {
        table.judge_step(recipe, i).map_err(|refusal| Fault {
            refusal,
            step: Some(i as u64),
        })?;
    }
    let last = n - 1;
    last_refusal(&table.rows, last, widths, displacements).map_err(|refusal| Fault {
        refusal,
        step: Some(last as u64),
    })
}

// Whether so many numbers are 1 to 32 whole steps.
#[tactic(auto, unfolding(laws::specs::Checks::also, laws::specs::Checks::within))]
fn steps_allowed(len: usize) -> bool
    ensures { result ≡ also (eqb (len % 6) 0) (within 1 32 (len / 6)) }
{
    let n = len / STEP_SIZE;
    len % STEP_SIZE == 0 && 1 <= n && n <= MAX_STEPS
}

// Writes the typemap that a recipe means to the front of both lists: the widths of its entries and their displacements. A refusal writes nothing.
// Here and in `faulty_step` both lists come as the caller has them; inside they go as a `Recipe`. `FlattenDone` is stated of `recipe_of`.
pub fn flatten(
    steps: &[u64],
    items: &[u64],
    widths: &mut [u64],
    displacements: &mut [i64],
) -> Flattened
    ensures { FlattenDone (recipe_of steps.now items.now) widths.old widths.new displacements.old displacements.new result }
{
    let recipe = Recipe { steps, items };
    let mut table = empty_table();
    let judged = judge(&recipe, widths.len(), displacements.len(), &mut table);
    if let Err(fault) = judged {
        return Flattened {
            refusal: fault.refusal.into(),
            entries: 0,
            extent: 0,
        };
    }
    let last = steps.len() / STEP_SIZE - 1;
    recipe_place::place(
        &table.rows,
        &table.places,
        last,
        recipe_place::SHIFT_BIAS,
        widths,
        displacements,
    );
    let shape = recipe_types::shape_at(&table.rows, last);
    Flattened {
        refusal: 0,
        entries: shape.entries,
        extent: shape.extent as i64,
    }
}

// The step at fault of a recipe that `flatten` refuses with lists of these lengths; none if it is granted or has a wrong number of steps.
pub fn faulty_step(steps: &[u64], items: &[u64], widths: usize, displacements: usize) -> Option<u64>
    ensures { result ≡ faulty_step (recipe_of steps.now items.now) widths displacements }
{
    let recipe = Recipe { steps, items };
    let mut table = empty_table();
    let judged = judge(&recipe, widths, displacements, &mut table);
    judged.err().and_then(|fault| fault.step)
}
