//! The claim about recipes and the set after them, as functions that make these calls and whose contracts are the claim, for all inputs.
//! Its buffers are arrays of the greatest length: no library here allocates.
#![tactic(auto)]

ghost use Rattle.std.specs.Prelude.{◌≡◌};
ghost use Rattle.recipe_types.specs.Recipes.{recipe_of};
ghost use Rattle.claim_recipe.specs.FlattenThenSet.{FiletypeSet, RecipesSet, recipe_refused, width_recipe};

use file::{Handle, SetViewAnswer};
use view::Named;

// The refusal is a number: `Flattened` has it so, and `recipe_refused` takes it.
#[tactic(auto, unfolding(crate::specs::FlattenThenSet::recipe_refused))]
fn refused(refusal: u64, handle: Handle) -> SetViewAnswer
    ensures { result ≡ recipe_refused refusal handle }
{
    SetViewAnswer {
        refusal: refusal,
        count: 0,
        handle: handle,
        named: Named::Nothing,
    }
}

// Flattens the recipe of a filetype (fs, fi: its steps and items), and sets the view of the result over an etype (ew, ed, ex: its widths, displacements and extent).
fn set_filetype(
    handle: Handle,
    representation: &[u8],
    displacement: i64,
    ew: &[u64],
    ed: &[i64],
    ex: i64,
    fs: &[u64],
    fi: &[u64],
) -> SetViewAnswer
    ensures { FiletypeSet handle representation.now displacement
        (record { widths = ew.now; displacements = ed.now; extent = ex })
        (recipe_of fs.now fi.now) result }
{
    let mut fw = [0u64; 256];
    let mut fd = [0i64; 256];
    let f = recipe::flatten(fs, fi, &mut fw, &mut fd);
    if f.refusal != 0 {
        return refused(f.refusal, handle);
    }
    let m = f.entries as usize;
    claim_calls::set_view(
        handle,
        representation,
        displacement,
        ew,
        ed,
        ex,
        &fw[..m],
        &fd[..m],
        f.extent,
    )
}

// Flattens the recipes of an etype (es, ei: its steps and items) and of a filetype (fs, fi), and sets the view of the results.
pub fn set_recipes(
    handle: Handle,
    representation: &[u8],
    displacement: i64,
    es: &[u64],
    ei: &[u64],
    fs: &[u64],
    fi: &[u64],
) -> SetViewAnswer
    ensures { RecipesSet handle representation.now displacement
        (recipe_of es.now ei.now)
        (recipe_of fs.now fi.now) result }
{
    let mut ew = [0u64; 256];
    let mut ed = [0i64; 256];
    let e = recipe::flatten(es, ei, &mut ew, &mut ed);
    if e.refusal != 0 {
        return refused(e.refusal, handle);
    }
    let n = e.entries as usize;
    set_filetype(
        handle,
        representation,
        displacement,
        &ew[..n],
        &ed[..n],
        e.extent,
        fs,
        fi,
    )
}

// The same with a basic width for the etype.
pub fn set_recipe(
    handle: Handle,
    representation: &[u8],
    displacement: i64,
    width: u64,
    steps: &[u64],
    items: &[u64],
) -> SetViewAnswer
    ensures { RecipesSet handle representation.now displacement (width_recipe width)
        (recipe_of steps.now items.now) result }
{
    let etype = [recipe::CONTIGUOUS, recipe::BASIC, width, 1, 0, 0];
    set_recipes(
        handle,
        representation,
        displacement,
        &etype,
        &[],
        steps,
        items,
    )
}
