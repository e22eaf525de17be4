// A recipe in words: each step as the MPI call that it stands for.
ghost use Rattle.std.specs.Prelude.{◌<◌};

use std::fmt;

// How many numbers a step and an item have.
const STEP_NUMBERS: usize = 6;

const ITEM_NUMBERS: usize = 3;

// A recipe, a line for each step: a text, the step's number and its call.
#[derive(Clone, Copy)]
pub struct Steps<'a> {
    pub text: &'a str,
    pub steps: &'a [u64],
    pub items: &'a [u64],
}

impl fmt::Display for Steps<'_> {
    fn fmt<W: fmt::Write>(&self, f: &mut fmt::Formatter<W>) -> fmt::Result {
        let text = self.text;
        let (steps, _) = self.steps.as_chunks::<STEP_NUMBERS>();
        let (items, _) = self.items.as_chunks::<ITEM_NUMBERS>();
        for (i, numbers) in steps.iter().enumerate() {
            let call = Call {
                numbers: *numbers,
                items,
            };
            writeln!(f, "{text} {i}: {call}")?;
        }
        Ok(())
    }
}

// A step's call: its six numbers, and the items of the recipe. A signed number stands there in two's complement.
// Kind and source are numbers, as in the lent list, which may hold any.
#[derive(Clone, Copy)]
struct Call<'a> {
    numbers: [u64; STEP_NUMBERS],
    items: &'a [[u64; ITEM_NUMBERS]],
}

impl fmt::Display for Call<'_> {
    fn fmt<W: fmt::Write>(&self, f: &mut fmt::Formatter<W>) -> fmt::Result {
        let [kind, source, name, a, b, c] = self.numbers;
        let old = Source { source, name };
        match kind {
            recipe::CONTIGUOUS => write!(f, "MPI_Type_contiguous({a}, {old})"),
            recipe::VECTOR => write!(f, "MPI_Type_vector({a}, {b}, {}, {old})", c.cast_signed()),
            recipe::INDEXED => {
                let [lengths, displacements, _] = columns(items_of(self.items, a, b));
                write!(
                    f,
                    "MPI_Type_indexed({b}, {lengths}, {displacements}, {old})"
                )
            }
            recipe::SUBARRAY => {
                let [sizes, subsizes, starts] = columns(items_of(self.items, a, b));
                write!(
                    f,
                    "MPI_Type_create_subarray({b}, {sizes}, {subsizes}, {starts}, MPI_ORDER_C, {old})"
                )
            }
            recipe::RESIZED => write!(f, "MPI_Type_create_resized({old}, 0, {})", a.cast_signed()),
            _ => write!(f, "no constructor"),
        }
    }
}

// What a step is built of.
#[derive(Clone, Copy)]
struct Source {
    source: u64,
    name: u64,
}

impl fmt::Display for Source {
    fn fmt<W: fmt::Write>(&self, f: &mut fmt::Formatter<W>) -> fmt::Result {
        let name = self.name;
        match self.source {
            recipe::STEP => write!(f, "step {name}"),
            _ => write!(f, "width {name}"),
        }
    }
}

// The items of a step: `n` of them from item `first` on, or none where the list does not have them all.
fn items_of(items: &[[u64; ITEM_NUMBERS]], first: u64, n: u64) -> &[[u64; ITEM_NUMBERS]] {
    let end = first.saturating_add(n) as usize;
    items.get(first as usize..end).unwrap_or(&[])
}

// The same number of each item, in braces.
#[derive(Clone, Copy)]
struct Column<'a> {
    items: &'a [[u64; ITEM_NUMBERS]],
    number: usize,
    ghost in_item: { number < 3 },
}

// The first, second and third number of each item.
fn columns(items: &[[u64; ITEM_NUMBERS]]) -> [Column<'_>; ITEM_NUMBERS] {
    [
        Column { items, number: 0 },
        Column { items, number: 1 },
        Column { items, number: 2 },
    ]
}

impl fmt::Display for Column<'_> {
    fn fmt<W: fmt::Write>(&self, f: &mut fmt::Formatter<W>) -> fmt::Result {
        write!(f, "{{")?;
        for (i, item) in self.items.iter().enumerate() {
            if 0 < i {
                write!(f, ", ")?;
            }
            write!(f, "{}", item[self.number].cast_signed())?;
        }
        write!(f, "}}")
    }
}
