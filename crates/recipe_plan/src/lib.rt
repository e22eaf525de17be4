//! The table of a recipe's steps: each step that is granted gets a row with the numbers of its type, and the places of its copies. For our own crates.
#![tactic(auto)]

ghost use Rattle.std.specs.Prelude.{◌≡◌, cond, leb, ◌*◌, ◌≤◌, ◌<◌, length};
ghost use Rattle.recipe_types.specs.Recipes.{recipe_of};
ghost use Rattle.recipe_types.specs.Parts.{copies_of, entries_fit, extent_got, limits_by, shape_made, Spans};
ghost use Rattle.recipe_steps.specs.Parts.{numbers_at, step_by, Sound, Placeable, PlacesPut};
ghost use Rattle.recipe_plan.specs.Parts.{recipe_refusal_number, recipe_refusal_in, MakingReady, row_numbers, sound_refusal, Judged, Table, PutAsked, StepPut};

use recipe_steps::StepNumbers;
use recipe_types::Shape;

// What a recipe is refused for; docs/recipes.md has each in words, with its number.
#[derive(Clone, Copy, PartialEq, Eq, Debug)]
pub enum Refusal {
    Steps,
    Name,
    Zero,
    Dimensions,
    Entries,
    Limits,
    LowerBound,
    Room,
}

// The refusal numbers, in the order of the checks. `recipe` passes them on.
pub const REFUSED_STEPS: u64 = 26;

pub const REFUSED_NAME: u64 = 27;

pub const REFUSED_ZERO: u64 = 28;

pub const REFUSED_DIMENSIONS: u64 = 29;

pub const REFUSED_ENTRIES: u64 = 30;

pub const REFUSED_LIMITS: u64 = 31;

pub const REFUSED_LOWER_BOUND: u64 = 32;

pub const REFUSED_ROOM: u64 = 33;

impl From<Refusal> for u64 {
    ghost from_gives = { λ refusal number. number ≡ recipe_refusal_number refusal };

    fn from(refusal: Refusal) -> u64 {
        match refusal {
            Refusal::Steps => REFUSED_STEPS,
            Refusal::Name => REFUSED_NAME,
            Refusal::Zero => REFUSED_ZERO,
            Refusal::Dimensions => REFUSED_DIMENSIONS,
            Refusal::Entries => REFUSED_ENTRIES,
            Refusal::Limits => REFUSED_LIMITS,
            Refusal::LowerBound => REFUSED_LOWER_BOUND,
            Refusal::Room => REFUSED_ROOM,
        }
    }
}

// A recipe as it is lent: the numbers of its steps and of its items.
#[derive(Clone, Copy)]
pub struct Recipe<'a> {
    pub steps: &'a [u64],
    pub items: &'a [u64],
}

// The table of steps: eight numbers and 256 places a step.
// Flat lists, a row being eight numbers: `row_numbers`, `shape_at` and `Plan` read the table as lists of numbers.
#[derive(Drop)]
pub struct StepTable {
    pub rows: [u64; 256],
    pub places: [u64; 8192],
}

// The least and the greatest place of the copies of a step, with the bias added.
#[derive(Clone, Copy)]
pub struct Span {
    pub low: u64,
    pub high: u64,
}

const MAX_ENTRIES: u64 = 256;

// The greatest extent, and the greatest end of an entry.
const MAX_EXTENT: u64 = 1048576;

// The least and the greatest of some places, in one walk, which the iterator's `min` and `max` would make twice.
fn span_of(places: &[u64]) -> Span
    requires { 1 ≤ length places.now }
    ensures { Spans places.now (length places.now) result.low result.high }
{
    let mut low = places[0];
    let mut high = places[0];
    for k in 1..places.len() {
        low = low.min(places[k]);
        high = high.max(places[k]);
    }
    Span { low, high }
}

// Puts the places of a step's `n` copies, and tells their span.
fn put_span(s: StepNumbers, items: &[u64], n: usize, out: &mut [u64]) -> Span
    requires { Placeable items.now s × (n ≡ copies_of (step_by items.now s)) × (1 ≤ n) × (length out.old ≡ 256) }
    ensures { PlacesPut items.now s out.old out.new × Spans out.new n result.low result.high }
{
    recipe_steps::put_places(s, items, out);
    span_of(&out[..n])
}

// Whether each entry of each copy keeps the limits.
#[tactic(auto, unfolding(recipe_types::specs::Parts::entries_fit, laws::specs::Checks::also))]
fn entries_fit(t: Shape, span: Span) -> bool
    requires { (t.extent ≤ 1048576) × (t.least ≤ 1048576) × (t.end ≤ 1048576) × (span.low ≤ 2147483648) × (span.high ≤ 2147483648) }
    ensures { result ≡ entries_fit t span.low span.high }
{
    let added = recipe_types::BIAS * t.extent;
    let low = t.least + span.low * t.extent;
    let high = t.end + span.high * t.extent;
    added <= low && high <= MAX_EXTENT + added
}

// The extent of what a step makes; 0 for a resized one below 0.
#[tactic(auto, using(recipe_steps::proofs::Steps::kind_5), unfolding(recipe_types::specs::Parts::extent_got))]
fn extent_of(s: StepNumbers, items: &[u64], t: Shape, span: Span) -> u64
    requires { MakingReady items.now s t span }
    ensures { result ≡ extent_got (step_by items.now s) t span.low span.high }
{
    match s.kind {
        recipe_steps::RESIZED => view::natural(s.a.cast_signed()),
        recipe_steps::SUBARRAY => recipe_steps::array_size(s, items) * t.extent,
        _ => (span.high + 1 - span.low) * t.extent,
    }
}

// The numbers of what a step makes, which has so many entries; none where a limit is broken.
#[tactic(auto, unfolding(recipe_types::specs::Parts::limits_by, recipe_types::specs::Parts::entries_fit, laws::specs::Checks::also, laws::specs::Checks::within))]
fn shape_made(s: StepNumbers, items: &[u64], t: Shape, span: Span, entries: u64) -> Option<Shape>
    requires { MakingReady items.now s t span × (entries ≡ copies_of (step_by items.now s) * t.entries) }
    ensures { result ≡ cond (limits_by (step_by items.now s) t span.low span.high) (Some (shape_made (step_by items.now s) t span.low span.high)) None }
{
    let extent = extent_of(s, items, t, span);
    if !entries_fit(t, span) || extent < 1 || MAX_EXTENT < extent {
        return None;
    }
    let added = recipe_types::BIAS * t.extent;
    let least = t.least + span.low * t.extent - added;
    let end = t.end + span.high * t.extent - added;
    let base = if recipe_steps::sets_bounds(s) {
        least
    } else {
        t.base
    };
    Some(Shape {
        entries,
        extent,
        least,
        end,
        base,
    })
}

// The row of a step.
fn row_of(n: u64, s: StepNumbers, t: Shape) -> [u64; 8]
    ensures { result ≡ row_numbers n s t }
{
    [
        n, s.source, s.name, t.entries, t.extent, t.least, t.end, t.base,
    ]
}

// Checks 27 to 29 of a step.
#[tactic(auto, unfolding(crate::specs::Parts::sound_refusal, laws::specs::Checks::check))]
fn sound_refusal(s: StepNumbers, items: &[u64], i: usize) -> Result<(), Refusal>
    ensures { recipe_refusal_in result ≡ sound_refusal items.now s i }
{
    if !recipe_steps::names_allowed(s, i) {
        return Err(Refusal::Name);
    }
    if !recipe_steps::none_zero(s, items) {
        return Err(Refusal::Zero);
    }
    if !recipe_steps::dimensions_allowed(s, items) {
        return Err(Refusal::Dimensions);
    }
    Ok(())
}

// How many copies a step makes of a type of so many entries; none if they have more than 256.
fn few_copies(s: StepNumbers, items: &[u64], entries: u64) -> Option<u64>
    requires { Sound items.now s × (1 ≤ entries) × (entries ≤ 256) }
    ensures { result ≡ cond (leb (copies_of (step_by items.now s) * entries) 256) (Some (copies_of (step_by items.now s))) None }
{
    let n = recipe_steps::copies(s, items);
    if MAX_ENTRIES < n.saturating_mul(entries) {
        return None;
    }
    Some(n)
}

impl StepTable {
    // Puts step `i`, which makes `n` copies of a type of the numbers `below`, into the table if it keeps the limits.
    fn put_step(
        &mut self,
        s: StepNumbers,
        items: &[u64],
        i: usize,
        n: u64,
        below: Shape,
    ) -> Result<(), Refusal>
        requires { PutAsked items.now s i n below self.old.rows self.old.places }
        ensures { StepPut items.now s i n below self.old.rows self.old.places self.new.rows self.new.places (recipe_refusal_in result) }
    {
        let first = recipe_types::STEP_PLACES * i;
        let last = first + recipe_types::STEP_PLACES;
        let span = put_span(s, items, n as usize, &mut self.places[first..last]);
        let made = shape_made(s, items, below, span, n * below.entries).ok_or(Refusal::Limits)?;
        let from = recipe_types::ROW * i;
        let to = from + recipe_types::ROW;
        self.rows[from..to].copy_from_slice(&row_of(n, s, made));
        Ok(())
    }

    // Judges a step that passed checks 27 to 29 by checks 30 and 31, and puts it into the table if it is granted.
    fn judge_type(&mut self, recipe: &Recipe, i: usize) -> Result<(), Refusal>
        requires { Table (recipe_of recipe.now.steps.now recipe.now.items.now) self.old.rows self.old.places i × (i < 32) × (sound_refusal recipe.now.items.now (numbers_at recipe.now.steps.now i) i ≡ 0) }
        ensures { Judged (recipe_of recipe.now.steps.now recipe.now.items.now) i self.new.rows self.new.places (recipe_refusal_in result) }
    {
        let s = recipe_steps::step_at(recipe.steps, i);
        let below = recipe_types::shape_named(&self.rows, s.source, s.name);
        let n = few_copies(s, recipe.items, below.entries).ok_or(Refusal::Entries)?;
        if !recipe_steps::near_enough(s, recipe.items) {
            return Err(Refusal::Limits);
        }
        self.put_step(s, recipe.items, i, n, below)
    }

    // Judges step `i` by checks 27 to 31, the steps before it being in the table, and puts it there if it is granted.
    pub fn judge_step(&mut self, recipe: &Recipe, i: usize) -> Result<(), Refusal>
        requires { Table (recipe_of recipe.now.steps.now recipe.now.items.now) self.old.rows self.old.places i × (i < 32) }
        ensures { Judged (recipe_of recipe.now.steps.now recipe.now.items.now) i self.new.rows self.new.places (recipe_refusal_in result) }
    {
        let s = recipe_steps::step_at(recipe.steps, i);
        sound_refusal(s, recipe.items, i)?;
        self.judge_type(recipe, i)
    }
}
