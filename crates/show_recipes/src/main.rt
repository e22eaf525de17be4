//! One small example of every constructor of a recipe, and views set from recipes, in the order of docs/manual.md, which shows these functions and what they print.
//! A word is the basic type of width 4.
//! Lists and files of the examples are arrays, since each has a fixed length.
#![tactic(auto)]

mod words;

use file::{FileRecord, Handle};
use show_words::{Datatype, Refusal, SetRefusal};
use std::io;
use std::io::Write;
use view::Offset;
use words::Steps;

// How many places the lists have that are lent to a recipe.
const PLACES: usize = 16;

// How many offsets of a view are shown.
const OFFSETS: i64 = 8;

// The typemap of a recipe is not at hand where a set refuses it.
const NO_TYPE: Datatype<'static> = Datatype {
    widths: &[],
    displacements: &[],
    extent: 0,
};

// Prints a typemap of so many entries, width and displacement of each.
fn print_typemap(
    out: &mut impl Write,
    entries: u64,
    widths: &[u64],
    displacements: &[i64],
) -> io::Result<()> {
    write!(out, " ")?;
    for (width, displacement) in widths.iter().zip(displacements).take(entries as usize) {
        write!(out, " ({width}, {displacement})")?;
    }
    writeln!(out)
}

// Prints the refusal of a recipe, and the step at fault.
fn print_fault(out: &mut impl Write, refusal: u64, fault: Option<u64>) -> io::Result<()> {
    write!(out, "  {}", Refusal(refusal))?;
    match fault {
        Some(i) => writeln!(out, ": step {i}"),
        None => writeln!(out),
    }
}

// Prints a recipe and its type, or its refusal.
fn show(out: &mut impl Write, steps: &[u64], items: &[u64]) -> io::Result<()> {
    let text = "step";
    write!(out, "{}", Steps { text, steps, items })?;
    let mut widths = [0; PLACES];
    let mut displacements = [0; PLACES];
    let made = recipe::flatten(steps, items, &mut widths, &mut displacements);
    if made.refusal != 0 {
        let fault = recipe::faulty_step(steps, items, PLACES, PLACES);
        return print_fault(out, made.refusal, fault);
    }
    writeln!(out, "  entries {}, extent {}", made.entries, made.extent)?;
    print_typemap(out, made.entries, &widths, &displacements)
}

// Opens for reading and writing, sets a view from byte 0 on, and prints the answer: steps and items of the etype's recipe, and of the filetype's.
fn set(out: &mut impl Write, es: &[u64], ei: &[u64], fs: &[u64], fi: &[u64]) -> io::Result<Handle> {
    let etype = Steps {
        text: "etype step",
        steps: es,
        items: ei,
    };
    let filetype = Steps {
        text: "filetype step",
        steps: fs,
        items: fi,
    };
    write!(out, "{etype}{filetype}")?;
    let h = Handle::open(Handle::MODE_BOTH).handle;
    let set = claim_recipe::set_recipes(h, b"native", 0, es, ei, fs, fi);
    let refusal = SetRefusal {
        refusal: set.refusal,
        named: set.named,
        etype: NO_TYPE,
        filetype: NO_TYPE,
    };
    writeln!(out, "  set_recipes: {refusal}")?;
    Ok(set.handle)
}

// Prints where the first offsets of a handle's view begin.
fn print_places(out: &mut impl Write, h: Handle) -> io::Result<()> {
    write!(out, "  places")?;
    for o in 0..OFFSETS {
        write!(out, " {}", h.byte_offset(Offset(o)).place.0)?;
    }
    writeln!(out)
}

// Prints bytes as numbers, on one line.
fn print_row(out: &mut impl Write, bytes: &[u8]) -> io::Result<()> {
    write!(out, " ")?;
    for byte in bytes {
        write!(out, " {byte}")?;
    }
    writeln!(out)
}

// ---- the examples

// Three words one after the other.
fn contiguous(out: &mut impl Write) -> io::Result<()> {
    show(out, &[recipe::CONTIGUOUS, recipe::BASIC, 4, 3, 0, 0], &[])
}

// Two blocks of two words; a block begins three words after the one before.
fn vector(out: &mut impl Write) -> io::Result<()> {
    show(out, &[recipe::VECTOR, recipe::BASIC, 4, 2, 2, 3], &[])
}

// A block of two words at 0 and one of one word at 3. Its blocks are two items, from item 0 on.
fn indexed(out: &mut impl Write) -> io::Result<()> {
    let blocks = [2, 0, 0, 1, 3, 0];
    show(out, &[recipe::INDEXED, recipe::BASIC, 4, 0, 2, 0], &blocks)
}

// A tile of 2 rows and 3 columns, from row 1 and column 2 on, of an array of 4 rows and 6 columns of words.
fn subarray(out: &mut impl Write) -> io::Result<()> {
    let tile = [recipe::SUBARRAY, recipe::BASIC, 4, 0, 2, 0];
    show(out, &tile, &[4, 2, 1, 6, 3, 2])
}

// A word in 12 bytes.
fn resized(out: &mut impl Write) -> io::Result<()> {
    show(out, &[recipe::RESIZED, recipe::BASIC, 4, 12, 0, 0], &[])
}

// A vector of a resized vector. Step 0 has words at 0 and 8, extent 12. Step 1 makes the extent 16, so step 2 has its second copy at 32.
fn nested(out: &mut impl Write) -> io::Result<()> {
    let steps = [
        [recipe::VECTOR, recipe::BASIC, 4, 2, 1, 2],
        [recipe::RESIZED, recipe::STEP, 0, 16, 0, 0],
        [recipe::VECTOR, recipe::STEP, 1, 2, 1, 2],
    ];
    show(out, steps.as_flattened(), &[])
}

// A negative stride. Step 0 is a word at 12, step 1 gives it the bounds 0 and 4, and step 2 has words at 12, 8 and 4 and the lower bound -8.
// Step 3 brings that back to 0; without it the recipe is refused.
fn negative_stride(out: &mut impl Write) -> io::Result<()> {
    let steps = [
        [recipe::INDEXED, recipe::BASIC, 4, 0, 1, 0],
        [recipe::RESIZED, recipe::STEP, 0, 4, 0, 0],
        [recipe::VECTOR, recipe::STEP, 1, 3, 1, recipe::signed(-1)],
        [recipe::RESIZED, recipe::STEP, 2, 16, 0, 0],
    ];
    let block = [1, 3, 0];
    show(out, steps[..3].as_flattened(), &block)?;
    show(out, steps.as_flattened(), &block)
}

// Columns 4 to 6 of an array that has columns 0 to 5: step 1 is at fault. Step 2 is not judged.
fn outside(out: &mut impl Write) -> io::Result<()> {
    let steps = [
        [recipe::RESIZED, recipe::BASIC, 4, 8, 0, 0],
        [recipe::SUBARRAY, recipe::STEP, 0, 0, 2, 0],
        [recipe::RESIZED, recipe::STEP, 1, 200, 0, 0],
    ];
    show(out, steps.as_flattened(), &[4, 2, 1, 6, 3, 4])
}

// The file is an array of 4 rows and 6 columns of bytes, the view a tile of it, into which six bytes are written.
fn tile(out: &mut impl Write) -> io::Result<()> {
    let byte = [recipe::CONTIGUOUS, recipe::BASIC, 1, 1, 0, 0];
    let part = [recipe::SUBARRAY, recipe::BASIC, 1, 0, 2, 0];
    let h = set(out, &byte, &[], &part, &[4, 2, 1, 6, 3, 2])?;
    print_places(out, h)?;
    let mut plan = [0; 24];
    let rec = FileRecord::of_size(24);
    let done = h.write_at(&mut plan, rec, Offset(0), 6, &[1, 2, 3, 4, 5, 6]);
    let refusal = Refusal(done.refusal);
    let size = done.file.size;
    writeln!(
        out,
        "  write_at: {refusal}; count {}, size {size}",
        done.count
    )?;
    for row in plan.chunks_exact(6) {
        print_row(out, row)?;
    }
    Ok(())
}

// Every third word. The vector ends where its last word ends, at 16; its extent is made 24, so that the next tile goes on in steps of 12.
fn every_third(out: &mut impl Write) -> io::Result<()> {
    let word = [recipe::CONTIGUOUS, recipe::BASIC, 4, 1, 0, 0];
    let steps = [
        [recipe::VECTOR, recipe::BASIC, 4, 2, 1, 3],
        [recipe::RESIZED, recipe::STEP, 0, 24, 0, 0],
    ];
    let h = set(out, &word, &[], steps.as_flattened(), &[])?;
    print_places(out, h)
}

// A word at 4 and then one at 0: a type, but no filetype.
fn set_falling(out: &mut impl Write) -> io::Result<()> {
    let word = [recipe::CONTIGUOUS, recipe::BASIC, 4, 1, 0, 0];
    let falling = [recipe::INDEXED, recipe::BASIC, 4, 0, 2, 0];
    set(out, &word, &[], &falling, &[1, 1, 0, 1, 0, 0])?;
    Ok(())
}

fn main(rt: HostRuntime) -> io::Result<()> {
    let mut out = io::writer(&rt);
    contiguous(&mut out)?;
    vector(&mut out)?;
    indexed(&mut out)?;
    subarray(&mut out)?;
    resized(&mut out)?;
    nested(&mut out)?;
    negative_stride(&mut out)?;
    outside(&mut out)?;
    tile(&mut out)?;
    every_third(&mut out)?;
    set_falling(&mut out)
}
