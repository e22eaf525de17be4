// What the driver does with a record of recipes: it reads the body, makes the calls and has the line's numbers (docs/conformance.md).
use crate::body::{Body, LONGEST_LIST};
use crate::line::Answer;
use file::Handle;

// The most numbers of a recipe's steps, and of its items.
const LONGEST_RECIPE: usize = 1000;

// How many numbers of a recipe and of a set from recipes stand before their lists.
const RECIPE_NUMBERS: usize = 5;

const SET_NUMBERS: usize = 6;

// A line's numbers of the step at fault: 1 and its number, or 0 and 0.
fn step_numbers(step: Option<u64>) -> [u64; 2] {
    match step {
        Some(i) => [1, i],
        None => [0, 0],
    }
}

// Tag 46: the lists stand one after the other.
pub fn flatten(body: Body) -> Answer {
    let mut steps = [0; LONGEST_RECIPE];
    let mut items = [0; LONGEST_RECIPE];
    let mut rest = body.after(RECIPE_NUMBERS);
    let steps = rest.take_numbers(&mut steps[..body.length(3, LONGEST_RECIPE)]);
    let items = rest.take_numbers(&mut items[..body.length(4, LONGEST_RECIPE)]);
    let fill = body.list_fill(2);
    let mut widths = [u64::from(fill); LONGEST_LIST];
    let mut displacements = [i64::from(fill); LONGEST_LIST];
    let widths = &mut widths[..body.length(0, LONGEST_LIST)];
    let displacements = &mut displacements[..body.length(1, LONGEST_LIST)];
    let step = recipe::faulty_step(steps, items, widths.len(), displacements.len());
    let [faulty, number] = step_numbers(step);
    let a = recipe::flatten(steps, items, widths, displacements);
    Answer {
        refusal: a.refusal,
        others: [a.entries, view::natural(a.extent), faulty, number, 0],
        lent: [
            checksum::numbers(widths),
            checksum::signed(displacements),
            0,
            0,
        ],
        ..Answer::default()
    }
}

// Tag 47: the four lists stand one after the other, and what the body has after them is the representation.
pub fn set(body: Body, h: Handle) -> Answer {
    let mut es = [0; LONGEST_RECIPE];
    let mut ei = [0; LONGEST_RECIPE];
    let mut fs = [0; LONGEST_RECIPE];
    let mut fi = [0; LONGEST_RECIPE];
    let mut rest = body.after(SET_NUMBERS);
    let es = rest.take_numbers(&mut es[..body.length(2, LONGEST_RECIPE)]);
    let ei = rest.take_numbers(&mut ei[..body.length(3, LONGEST_RECIPE)]);
    let fs = rest.take_numbers(&mut fs[..body.length(4, LONGEST_RECIPE)]);
    let fi = rest.take_numbers(&mut fi[..body.length(5, LONGEST_RECIPE)]);
    let a = claim_recipe::set_recipes(h, rest.bytes, body.signed(1), es, ei, fs, fi);
    Answer::of_set(a, [0; 4])
}
