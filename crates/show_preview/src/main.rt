//! Shows views as a planner would look at them: the refusal of a set in words, or where the first offsets begin, and end of file.
#![tactic(auto)]

use show_words::{Datatype, Refusal, SetRefusal};
use std::io;
use std::io::Write;
use view::View;

// How many offsets of a view are shown.
const OFFSETS: u64 = 6;

// Where the first offsets of a view begin, and end of file at `size`, on one line.
fn show_places(out: &mut impl Write, view: &View, mode: u64, size: u64) -> io::Result<()> {
    if !rule_view::is_accepted(mode, view) {
        return writeln!(out, "refusal 1");
    }
    write!(out, "places")?;
    for o in 0..OFFSETS {
        let place = view_place::place_of(view, view::to_offset(o));
        write!(out, " {}", place.0)?;
    }
    if size <= View::MAX_FILE_SIZE {
        let end = view_place::end_of(view, size);
        write!(out, "; end at size {size} is {}", view::natural(end.0))?;
    }
    writeln!(out)
}

// Offers a view, and prints after a text its refusal, or its places: for a mode, from a byte of the file on, with these types, and end of file at a size.
fn show_view(
    out: &mut impl Write,
    text: &str,
    mode: u64,
    displacement: i64,
    etype: Datatype,
    filetype: Datatype,
    size: u64,
) -> io::Result<()> {
    let accepted = rule_set::accept(
        mode,
        b"native",
        displacement,
        etype.widths,
        etype.displacements,
        etype.extent,
        filetype.widths,
        filetype.displacements,
        filetype.extent,
    );
    write!(out, "{text} mode {mode}: ")?;
    match accepted {
        Ok(view) => {
            write!(out, "{}; ", Refusal(0))?;
            show_places(out, &view, mode, size)
        }
        Err(refused) => {
            let refusal = SetRefusal {
                refusal: refused.refusal.number(),
                named: refused.named,
                etype,
                filetype,
            };
            writeln!(out, "{refusal}")
        }
    }
}

// Document 01's figures.
fn figures(out: &mut impl Write) -> io::Result<()> {
    let word = Datatype::WORD;
    let p1 = Datatype::new(&[4], &[4], 12);
    let text = "P1 (a word at 4 of 12, from byte 100)";
    show_view(out, text, View::MODE_BOTH, 100, word, p1, 117)?;
    let p4 = (word, Datatype::new(&[4], &[2], 12));
    let p6 = (word, Datatype::new(&[4, 4], &[0, 4], 4));
    let p7 = (word, Datatype::new(&[4, 4], &[0, 8], 4));
    let p12 = (Datatype::BYTE, Datatype::new(&[1, 1], &[0, 3], 2));
    let cases = [
        ("P4 (a word at 2 of 12)", View::MODE_BOTH, p4, 0),
        ("P6 (words at 0 and 4 of 4)", View::MODE_READING, p6, 8),
        ("P6 (words at 0 and 4 of 4)", View::MODE_WRITING, p6, 8),
        ("P7 (words at 0 and 8 of 4)", View::MODE_READING, p7, 8),
        ("P12 (bytes at 0 and 3 of 2)", View::MODE_WRITING, p12, 3),
    ];
    for (text, mode, (etype, filetype), size) in cases {
        show_view(out, text, mode, 0, etype, filetype, size)?;
    }
    Ok(())
}

// Views with bytes that clash: a file byte would belong to two offsets.
fn clashes(out: &mut impl Write) -> io::Result<()> {
    let bytes = (Datatype::BYTE, Datatype::new(&[1, 1], &[0, 2], 2));
    let word = (Datatype::WORD, Datatype::new(&[4], &[0], 2));
    let four = Datatype::new(&[4, 4, 4, 4], &[0, 4, 8, 12], 8);
    let words = (Datatype::WORD, four);
    let cases = [
        ("bytes at 0 and 2 of 2,", View::MODE_WRITING, bytes),
        ("a word at 0 of 2,", View::MODE_BOTH, word),
        ("words at 0, 4, 8 and 12 of 8,", View::MODE_BOTH, words),
    ];
    for (text, mode, (etype, filetype)) in cases {
        show_view(out, text, mode, 0, etype, filetype, 0)?;
    }
    Ok(())
}

// A view for each rule of a set's lists, from 6 on, that no figure above breaks.
fn other_rules(out: &mut impl Write) -> io::Result<()> {
    let word = Datatype::WORD;
    let pair = Datatype::new(&[4, 4], &[0, 4], 8);
    let high = Datatype::new(&[4], &[4], 8);
    let cases = [
        ("a word at -4 of 12,", word, Datatype::new(&[4], &[-4], 12)),
        (
            "words at 4 and 0 of 8,",
            word,
            Datatype::new(&[4, 4], &[4, 0], 8),
        ),
        (
            "words at 0, 4 and 8 of 16, etype words at 0 and 4 of 8,",
            pair,
            Datatype::new(&[4, 4, 4], &[0, 4, 8], 16),
        ),
        (
            "words at 0, 4, 8 and 16 of 24, etype words at 0 and 4 of 8,",
            pair,
            Datatype::new(&[4, 4, 4, 4], &[0, 4, 8, 16], 24),
        ),
        (
            "a word at 0 of 8, etype a word at 4 of 8,",
            high,
            Datatype::new(&[4], &[0], 8),
        ),
    ];
    for (text, etype, filetype) in cases {
        show_view(out, text, View::MODE_BOTH, 0, etype, filetype, 0)?;
    }
    Ok(())
}

fn main(rt: HostRuntime) -> io::Result<()> {
    let mut out = io::writer(&rt);
    figures(&mut out)?;
    clashes(&mut out)?;
    other_rules(&mut out)
}
