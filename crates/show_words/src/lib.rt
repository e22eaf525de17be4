//! Refusals in plain words, for people: the rule that each number stands for; of a refused set also the type, the entry and its width and displacement.
//! Each is a value that prints itself, as by `write!`.
#![tactic(auto)]

ghost use Rattle.std.specs.Prelude.{◌≡◌, ◌∷◌, [], pos};

use std::fmt;
use view::{Named, View};

// A type as it is lent to a set: its widths, its displacements and its extent.
#[derive(Clone, Copy)]
pub struct Datatype<'a> {
    pub widths: &'a [u64],
    pub displacements: &'a [i64],
    pub extent: i64,
}

impl<'a> Datatype<'a> {
    // A basic type of one byte, and of four: one entry at 0.
    pub const BYTE: Datatype<'static> = Datatype {
        widths: &[1],
        displacements: &[0],
        extent: 1,
    };

    pub const WORD: Datatype<'static> = Datatype {
        widths: &[4],
        displacements: &[0],
        extent: 4,
    };

    // The two constants, whose numbers these contracts settle.
    pub fn byte() -> Datatype<'static>
        ensures widths { result.widths.now ≡ 1 ∷ [] }
        ensures displacements { result.displacements.now ≡ pos 0 ∷ [] }
        ensures extent { result.extent ≡ pos 1 }
    {
        Datatype::BYTE
    }

    pub fn word() -> Datatype<'static>
        ensures widths { result.widths.now ≡ 4 ∷ [] }
        ensures displacements { result.displacements.now ≡ pos 0 ∷ [] }
        ensures extent { result.extent ≡ pos 4 }
    {
        Datatype::WORD
    }

    pub fn new(widths: &'a [u64], displacements: &'a [i64], extent: i64) -> Datatype<'a>
        ensures widths { result.widths.now ≡ widths.now }
        ensures displacements { result.displacements.now ≡ displacements.now }
        ensures extent { result.extent ≡ extent }
    {
        Datatype {
            widths,
            displacements,
            extent,
        }
    }
}

// The rule that a refusal number stands for, and nothing for 0, a granted call.
// A number and no enum: the answers of calls and of recipes have numbers, of two enums.
#[derive(Clone, Copy)]
pub struct Rule(pub u64);

impl fmt::Display for Rule {
    fn fmt<W: fmt::Write>(&self, f: &mut fmt::Formatter<W>) -> fmt::Result {
        f.write_str(text(self.0))
    }
}

// The refusal of any call: its number, and the rule. A granted call has just the number, 0.
#[derive(Clone, Copy)]
pub struct Refusal(pub u64);

impl fmt::Display for Refusal {
    fn fmt<W: fmt::Write>(&self, f: &mut fmt::Formatter<W>) -> fmt::Result {
        match self.0 {
            0 => write!(f, "refusal 0"),
            refusal => write!(f, "refusal {refusal}, {}", Rule(refusal)),
        }
    }
}

// The refusal of a set in full: its number, the rule, and the entry that it names in the types set. A granted set has just the number, 0.
#[derive(Clone, Copy)]
pub struct SetRefusal<'a> {
    pub refusal: u64,
    pub named: Named,
    pub etype: Datatype<'a>,
    pub filetype: Datatype<'a>,
}

impl fmt::Display for SetRefusal<'_> {
    fn fmt<W: fmt::Write>(&self, f: &mut fmt::Formatter<W>) -> fmt::Result {
        write!(f, "{}", Refusal(self.refusal))?;
        if self.refusal == 0 {
            return Ok(());
        }
        match self.named {
            Named::Nothing => Ok(()),
            Named::EtypeEntry(i) => write!(f, ": etype {}", Entry(i, self.etype)),
            Named::FiletypeEntry(i) => write!(f, ": filetype {}", Entry(i, self.filetype)),
        }
    }
}

// An entry of a type: its number, and its width and displacement where the type has that entry.
#[derive(Clone, Copy)]
struct Entry<'a>(u64, Datatype<'a>);

impl fmt::Display for Entry<'_> {
    fn fmt<W: fmt::Write>(&self, f: &mut fmt::Formatter<W>) -> fmt::Result {
        let Entry(number, datatype) = *self;
        write!(f, "entry {number}")?;
        let i = number as usize;
        match (datatype.widths.get(i), datatype.displacements.get(i)) {
            (Some(width), Some(displacement)) => write!(f, ", width {width} at {displacement}"),
            _ => Ok(()),
        }
    }
}

// The table of rules: the text for each number, and none for 0.
fn text(refusal: u64) -> &'static str {
    match refusal {
        0 => "",
        View::REFUSED_HANDLE =>
            "the handle's mode is not 1 to 3, its pointer or view breaks a rule, or the file breaks its limits",
        View::REFUSED_REPRESENTATION => "the representation is not native",
        View::REFUSED_DISPLACEMENT => "the view displacement is out of range",
        View::REFUSED_ENTRY_COUNT =>
            "a type's two lists differ in length, or an entry count is not allowed",
        View::REFUSED_EXTENT => "an extent is out of range",
        View::REFUSED_ENTRY => "a width or entry displacement is not allowed",
        View::REFUSED_ORDER => "displacements decrease",
        View::REFUSED_HOLE => "a hole is no multiple of the etype's extent",
        View::REFUSED_OVERLAP =>
            "two data bytes lie at one place or a multiple of the filetype's extent apart, and the mode allows writing",
        View::REFUSED_MODE =>
            "a read in a mode without reading, or a write or reverse lookup in one without writing",
        View::REFUSED_RANGE => "an offset, offset plus count or seek target is out of range",
        View::REFUSED_ROOM => "the buffer or a list is too short",
        View::REFUSED_LENGTH => "a write's highest byte is at or past the file length",
        View::REFUSED_WHENCE => "whence is not 0, 1 or 2",
        View::REFUSED_OPEN_MODE => "open with a mode above 3",
        View::REFUSED_WHOLE_GROUPS =>
            "the number of filetype entries is no multiple of the etype's",
        View::REFUSED_GROUP => "a group of the filetype differs from the etype",
        View::REFUSED_ORIGIN => "an origin is below zero",
        _ => recipe_text(refusal),
    }
}

// The refusal numbers of a recipe (docs/recipes.md).
// The numbers of `recipe_plan::Refusal`, written again: a pattern needs constants, and that crate is none of this one's.
const RECIPE_STEPS: u64 = 26;

const RECIPE_NAME: u64 = 27;

const RECIPE_ZERO: u64 = 28;

const RECIPE_DIMENSIONS: u64 = 29;

const RECIPE_ENTRIES: u64 = 30;

const RECIPE_LIMITS: u64 = 31;

const RECIPE_LOWER_BOUND: u64 = 32;

const RECIPE_ROOM: u64 = 33;

// The rules of recipes, a part of the table.
fn recipe_text(refusal: u64) -> &'static str {
    match refusal {
        RECIPE_STEPS => "the recipe has not 1 to 32 steps",
        RECIPE_NAME => "the step names neither an earlier step nor a basic width",
        RECIPE_ZERO => "a count, block length or subsize is 0",
        RECIPE_DIMENSIONS => "a subarray has not 1 to 4 dimensions, or is not inside its array",
        RECIPE_ENTRIES => "the step has more than 256 entries",
        RECIPE_LIMITS => "an entry displacement or the extent is out of range",
        RECIPE_LOWER_BOUND => "the last step's lower bound is not 0",
        RECIPE_ROOM => "a lent list is shorter than the last step's entry count",
        _ => "no rule has this number",
    }
}
