// What the driver does with a record, one function a tag: it reads the body, makes the call and has the line's numbers (docs/conformance.md).
ghost use Rattle.std.specs.Prelude.{◌<◌};

use crate::body::{Body, LONGEST_LIST, fill};
use crate::driver::{LONGEST_FILE, PlanFile};
use crate::line::{Answer, list_sums};
use crate::recipes;
use crate::tag::Tag;
use file::{AccessAnswer, FileRecord, Handle};
use std::array;
use view::{BytePos, Etype, Filetype, Numbers, Offset, Pair, View};

// The longest buffer.
const LONGEST_BUFFER: usize = 4096;

// How many numbers of a set stand before its lists.
const SET_NUMBERS: usize = 8;

// Tag 32.
fn make_file(body: Body, file: &mut PlanFile) -> Answer {
    file.len = body.length(1, LONGEST_FILE);
    file.record = FileRecord::of_size(body.number(2));
    fill(body.number(3), file.bytes_mut());
    Answer::default()
}

// Tag 33.
fn forge_record(body: Body, file: &mut PlanFile) -> Answer {
    file.record = FileRecord::of_size(body.number(1));
    Answer::default()
}

// The view of a forged handle.
fn forged_view(body: Body) -> View {
    View {
        numbers: Numbers {
            displacement: body.number(3),
            etype: Etype {
                entries: body.number(4),
                extent: body.number(21),
            },
            filetype: Filetype {
                instances: body.number(22),
                extent: body.number(87),
            },
        },
        widths: array::from_fn(|i| body.number(5 + i)),
        displacements: array::from_fn(|i| body.number(13 + i)),
        origins: array::from_fn(|i| body.number(23 + i)),
    }
}

// Tag 34: a handle of any numbers.
fn forge(body: Body) -> Answer {
    let handle = Handle {
        mode: body.number(1),
        pointer: body.number(2),
        view: forged_view(body),
    };
    Answer::new(0, 0, handle)
}

// Tag 35.
fn open(body: Body) -> Answer {
    let a = Handle::open(body.number(1));
    Answer::new(a.refusal, a.count, a.handle)
}

// Tag 36: the lists stand one after the other, and what the body has after them is the representation.
fn set(body: Body, h: Handle) -> Answer {
    let mut ew = [0; LONGEST_LIST];
    let mut ed = [0; LONGEST_LIST];
    let mut fw = [0; LONGEST_LIST];
    let mut fd = [0; LONGEST_LIST];
    let mut rest = body.after(SET_NUMBERS);
    let ew = rest.take_numbers(&mut ew[..body.length(4, LONGEST_LIST)]);
    let ed = rest.take_signed(&mut ed[..body.length(5, LONGEST_LIST)]);
    let fw = rest.take_numbers(&mut fw[..body.length(6, LONGEST_LIST)]);
    let fd = rest.take_signed(&mut fd[..body.length(7, LONGEST_LIST)]);
    let d = body.signed(1);
    let ex = body.signed(2);
    let fx = body.signed(3);
    let a = h.set_view(rest.bytes, d, ew, ed, ex, fw, fd, fx);
    Answer::of_set(a, list_sums(ew, ed, fw, fd))
}

// Tag 37.
fn get_view(body: Body, h: Handle) -> Answer {
    let fill = body.list_fill(5);
    let mut ew = [u64::from(fill); LONGEST_LIST];
    let mut ed = [i64::from(fill); LONGEST_LIST];
    let mut fw = [u64::from(fill); LONGEST_LIST];
    let mut fd = [i64::from(fill); LONGEST_LIST];
    let ew = &mut ew[..body.length(1, LONGEST_LIST)];
    let ed = &mut ed[..body.length(2, LONGEST_LIST)];
    let fw = &mut fw[..body.length(3, LONGEST_LIST)];
    let fd = &mut fd[..body.length(4, LONGEST_LIST)];
    let a = h.get_view(ew, ed, fw, fd);
    Answer {
        others: [
            a.displacement,
            a.etype.entries,
            a.etype.extent,
            a.filetype.entries,
            a.filetype.extent,
        ],
        lent: list_sums(ew, ed, fw, fd),
        ..Answer::new(a.refusal, a.count, a.handle)
    }
}

// Tag 38.
fn byte_offset(body: Body, h: Handle) -> Answer {
    let a = h.byte_offset(Offset(body.signed(1)));
    Answer {
        others: [a.place.0, 0, 0, 0, 0],
        ..Answer::new(a.refusal, a.count, a.handle)
    }
}

// Tag 39.
fn end(h: Handle, file: &mut PlanFile) -> Answer {
    let a = h.end(file.bytes(), file.record);
    file.record = a.file;
    Answer {
        others: [view::natural(a.end.0), 0, 0, 0, 0],
        ..Answer::new(a.refusal, a.count, a.handle)
    }
}

// Tag 40.
fn seek(body: Body, h: Handle, file: &mut PlanFile) -> Answer {
    let by = body.signed(2);
    let whence = body.number(3);
    let a = h.seek(file.bytes(), file.record, by, whence);
    file.record = a.file;
    Answer::new(a.refusal, a.count, a.handle)
}

// The answer of a read or a write, with the checksum of its buffer.
fn moved(a: AccessAnswer, buf: &[u8]) -> Answer {
    Answer {
        lent: [checksum::bytes(buf), 0, 0, 0],
        ..Answer::new(a.refusal, a.count, a.handle)
    }
}

// The four accesses differ in their call and in where their numbers stand; a helper that takes the call as a closure is as long as they are.

// Tag 41.
fn read_at(body: Body, h: Handle, file: &mut PlanFile) -> Answer {
    let o = Offset(body.signed(2));
    let count = body.number(3);
    let mut array = [body.byte(5); LONGEST_BUFFER];
    let buf = &mut array[..body.length(4, LONGEST_BUFFER)];
    let a = h.read_at(file.bytes(), file.record, o, count, buf);
    file.record = a.file;
    moved(a, buf)
}

// Tag 42.
fn read(body: Body, h: Handle, file: &mut PlanFile) -> Answer {
    let count = body.number(2);
    let mut array = [body.byte(4); LONGEST_BUFFER];
    let buf = &mut array[..body.length(3, LONGEST_BUFFER)];
    let a = h.read(file.bytes(), file.record, count, buf);
    file.record = a.file;
    moved(a, buf)
}

// Tag 43.
fn write_at(body: Body, h: Handle, file: &mut PlanFile) -> Answer {
    let o = Offset(body.signed(2));
    let count = body.number(3);
    let mut array = [0; LONGEST_BUFFER];
    let buf = &mut array[..body.length(4, LONGEST_BUFFER)];
    fill(body.number(5), buf);
    let rec = file.record;
    let a = h.write_at(file.bytes_mut(), rec, o, count, buf);
    file.record = a.file;
    moved(a, buf)
}

// Tag 44.
fn write(body: Body, h: Handle, file: &mut PlanFile) -> Answer {
    let count = body.number(2);
    let mut array = [0; LONGEST_BUFFER];
    let buf = &mut array[..body.length(3, LONGEST_BUFFER)];
    fill(body.number(4), buf);
    let rec = file.record;
    let a = h.write(file.bytes_mut(), rec, count, buf);
    file.record = a.file;
    moved(a, buf)
}

// Tag 45: 1, the offset and the index of a pair, or three zeros.
fn reverse(body: Body, h: Handle) -> Answer {
    let a = h.reverse(BytePos(body.number(1)));
    let others = match a.owner {
        Some(Pair { offset, index }) => [1, view::natural(offset.0), index, 0, 0],
        None => [0; 5],
    };
    Answer {
        others,
        ..Answer::new(a.refusal, a.count, a.handle)
    }
}

// The file that a record names: by its first number if it is a file's, and otherwise by the one after the slot's.
pub fn file_of(tag: Tag, body: Body) -> usize
    ensures { result < 2 }
{
    match tag {
        Tag::File | Tag::FileRecord => body.file(0),
        _ => body.file(1),
    }
}

// Does what a record says, with the handle and the file that it names.
pub fn perform(tag: Tag, body: Body, h: Handle, file: &mut PlanFile) -> Answer {
    match tag {
        Tag::File => make_file(body, file),
        Tag::FileRecord => forge_record(body, file),
        Tag::Forged => forge(body),
        Tag::Open => open(body),
        Tag::Set => set(body, h),
        Tag::GetView => get_view(body, h),
        Tag::ByteOffset => byte_offset(body, h),
        Tag::End => end(h, file),
        Tag::Seek => seek(body, h, file),
        Tag::ReadAt => read_at(body, h, file),
        Tag::Read => read(body, h, file),
        Tag::WriteAt => write_at(body, h, file),
        Tag::Write => write(body, h, file),
        Tag::Reverse => reverse(body, h),
        Tag::Recipe => recipes::flatten(body),
        Tag::SetFromRecipes => recipes::set(body, h),
    }
}
