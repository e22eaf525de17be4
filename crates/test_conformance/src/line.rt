// What the driver prints of a record: the answer's numbers, the checksum of its handle, and the state of both files (docs/conformance.md).
use crate::tag::Tag;
use file::{Handle, SetViewAnswer};
use std::fmt;

// What the line of a record says of its call: refusal, count and the other numbers of the answer, its handle, and checksums of what the call was lent.
// The refusal is the number that the line prints.
#[derive(Clone, Copy, Default)]
pub struct Answer {
    pub refusal: u64,
    pub count: u64,
    pub others: [u64; 5],
    // None for a record of a file or of a recipe.
    pub handle: Option<Handle>,
    pub lent: [u64; 4],
}

impl Answer {
    // Of a call that has no other numbers and was lent nothing.
    pub fn new(refusal: u64, count: u64, handle: Handle) -> Answer {
        Answer {
            refusal,
            count,
            handle: Some(handle),
            ..Answer::default()
        }
    }

    // Of a set.
    pub fn of_set(a: SetViewAnswer, lent: [u64; 4]) -> Answer {
        let told = a.named.numbers();
        Answer {
            others: [told.kind, told.entry, 0, 0, 0],
            lent,
            ..Answer::new(a.refusal, a.count, a.handle)
        }
    }
}

// A file as a line tells it: the size in its record, and the checksum of its bytes.
#[derive(Clone, Copy)]
pub struct FileState {
    pub size: u64,
    pub sum: u64,
}

// The line of a record: eighteen numbers with a space between.
#[derive(Clone, Copy)]
pub struct Line {
    pub tag: Tag,
    pub answer: Answer,
    pub files: [FileState; 2],
}

impl fmt::Display for Line {
    fn fmt<W: fmt::Write>(&self, f: &mut fmt::Formatter<W>) -> fmt::Result {
        let tag = self.tag as u8;
        let Answer {
            refusal,
            count,
            others: [a, b, c, d, e],
            handle,
            lent: [lent1, lent2, lent3, lent4],
        } = self.answer;
        write!(f, "{tag} {refusal} {count} {a} {b} {c} {d} {e}")?;
        match handle {
            Some(handle) => write!(f, " {} {}", handle.pointer, handle_sum(&handle))?,
            None => write!(f, " 0 0")?,
        }
        for file in self.files {
            write!(f, " {} {}", file.size, file.sum)?;
        }
        write!(f, " {lent1} {lent2} {lent3} {lent4}")
    }
}

// The checksum of a handle's mode and whole view.
fn handle_sum(h: &Handle) -> u64 {
    let view = &h.view;
    let etype = view.numbers.etype;
    let filetype = view.numbers.filetype;
    [h.mode, view.numbers.displacement, etype.entries]
        .iter()
        .chain(&view.widths)
        .chain(&view.displacements)
        .chain(&[etype.extent, filetype.instances])
        .chain(&view.origins)
        .chain(&[filetype.extent])
        .fold(checksum::BEGIN, |sum, x| checksum::feed(sum, *x))
}

// The checksums of four lent lists.
pub fn list_sums(ew: &[u64], ed: &[i64], fw: &[u64], fd: &[i64]) -> [u64; 4] {
    [
        checksum::numbers(ew),
        checksum::signed(ed),
        checksum::numbers(fw),
        checksum::signed(fd),
    ]
}
