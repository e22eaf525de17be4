//! One small example of every call, in the order of docs/manual.md, which shows these functions and what they print.
//! P1, P4 and so on are document 01's figures. A word is an entry of width 4 at 0, extent 4.
//! Lists and files of the examples are arrays, since each has a fixed length.
#![tactic(auto)]

use file::{AccessAnswer, FileRecord, Handle, ReverseAnswer, SeekAnswer, SetViewAnswer, TypeShape};
use show_words::{Datatype, Refusal, SetRefusal};
use std::fmt::Display;
use std::io;
use std::io::Write;
use view::{BytePos, Offset, Pair, View};

// Prints bytes as numbers, after a text, on one line.
fn list(out: &mut impl Write, text: &str, bytes: &[u8]) -> io::Result<()> {
    write!(out, "{text}")?;
    for byte in bytes {
        write!(out, " {byte}")?;
    }
    writeln!(out)
}

// Prints the refusal of a set in words, with the entry that it names in the types set, and mode and pointer.
fn show_set(
    out: &mut impl Write,
    text: &str,
    a: SetViewAnswer,
    etype: Datatype,
    filetype: Datatype,
) -> io::Result<()> {
    let refusal = SetRefusal {
        refusal: a.refusal,
        named: a.named,
        etype,
        filetype,
    };
    let h = a.handle;
    writeln!(
        out,
        "set_view, {text}: {refusal}; mode {}, pointer {}",
        h.mode, h.pointer
    )
}

// Prints refusal, count, pointer and size of an answer.
fn show_moved(
    out: &mut impl Write,
    text: impl Display + Drop,
    refusal: u64,
    count: u64,
    h: Handle,
    rec: FileRecord,
) -> io::Result<()> {
    writeln!(
        out,
        "{text}: {}; count {count}, pointer {}, size {}",
        Refusal(refusal),
        h.pointer,
        rec.size
    )
}

fn show_seek(out: &mut impl Write, text: &str, a: SeekAnswer) -> io::Result<()> {
    show_moved(out, text, a.refusal, a.count, a.handle, a.file)
}

// Of a read or a write.
fn show_access(out: &mut impl Write, text: impl Display + Drop, a: AccessAnswer) -> io::Result<()> {
    show_moved(out, text, a.refusal, a.count, a.handle, a.file)
}

// Prints a type of one entry, as get_view gives it.
fn show_type(
    out: &mut impl Write,
    text: &str,
    shape: TypeShape,
    width: u64,
    displacement: i64,
) -> io::Result<()> {
    let TypeShape { entries, extent } = shape;
    writeln!(
        out,
        "  {text}: entries {entries}, width {width} at {displacement}, extent {extent}"
    )
}

// Prints the answer of a reverse lookup of a byte.
fn show_owner(out: &mut impl Write, text: &str, byte: u64, a: ReverseAnswer) -> io::Result<()> {
    write!(
        out,
        "reverse, {text}, byte {byte}: {}; ",
        Refusal(a.refusal)
    )?;
    match a.owner {
        Some(Pair { offset, index }) => writeln!(out, "offset {}, index {index}", offset.0),
        None => writeln!(out, "none"),
    }
}

// Sets a view of two types from a displacement on.
fn set(h: Handle, displacement: i64, etype: Datatype, filetype: Datatype) -> SetViewAnswer {
    h.set_view(
        b"native",
        displacement,
        etype.widths,
        etype.displacements,
        etype.extent,
        filetype.widths,
        filetype.displacements,
        filetype.extent,
    )
}

// A handle for reading and writing through P1's types, a word at 4 of 12, from a displacement on.
fn slots(displacement: i64) -> Handle {
    let h = Handle::open(Handle::MODE_BOTH).handle;
    let slot = Datatype::new(&[4], &[4], 12);
    set(h, displacement, Datatype::WORD, slot).handle
}

// A handle with P8's view, for a mode that allows writing: the etype has widths 4 and 1 at 0 and 4, extent 8.
fn pairs() -> Handle {
    let h = Handle::open(Handle::MODE_WRITING).handle;
    let pair = Datatype::new(&[4, 1], &[0, 4], 8);
    let filetype = Datatype::new(&[4, 1, 4, 1], &[0, 4, 16, 20], 24);
    set(h, 0, pair, filetype).handle
}

// Opens for reading and writing, sets a view from byte 0 on, and prints the answer.
fn try_set(
    out: &mut impl Write,
    text: &str,
    etype: Datatype,
    filetype: Datatype,
) -> io::Result<()> {
    let h = Handle::open(Handle::MODE_BOTH).handle;
    show_set(out, text, set(h, 0, etype, filetype), etype, filetype)
}

// ---- the examples

// A mode that is granted, no mode, and one that is refused.
fn open(out: &mut impl Write) -> io::Result<()> {
    let cases = [
        ("mode 1", Handle::MODE_READING),
        ("no mode named", Handle::MODE_UNNAMED),
        ("mode 4", 4),
    ];
    for (text, mode) in cases {
        let a = Handle::open(mode);
        let refusal = Refusal(a.refusal);
        let h = a.handle;
        writeln!(
            out,
            "open, {text}: {refusal}; mode {}, pointer {}",
            h.mode, h.pointer
        )?;
    }
    Ok(())
}

// P1 is granted. P4 has a hole of 2 bytes: it is refused, and mode, pointer and view stay.
fn set_view(out: &mut impl Write) -> io::Result<()> {
    let h = Handle::open(Handle::MODE_BOTH).handle;
    let p1 = Datatype::new(&[4], &[4], 12);
    let granted = set(h, 100, Datatype::WORD, p1);
    show_set(out, "P1", granted, Datatype::WORD, p1)?;
    let rec = FileRecord::of_size(0);
    let moved = granted.handle.seek(&[], rec, 5, Handle::SEEK_SET);
    let p4 = Datatype::new(&[4], &[2], 12);
    let refused = set(moved.handle, 0, Datatype::WORD, p4);
    show_set(out, "P4", refused, Datatype::WORD, p4)
}

// P6: words at 0 and 4 of 4 overlap between tiles.
fn set_for(out: &mut impl Write, mode: u64) -> io::Result<()> {
    let h = Handle::open(mode).handle;
    let p6 = Datatype::new(&[4, 4], &[0, 4], 4);
    show_set(out, "P6", set(h, 0, Datatype::WORD, p6), Datatype::WORD, p6)
}

// P12: the tiles interlace, no byte is reached twice, and places do not rise. With 2 for 3 the bytes lie F = 2 apart.
fn set_interlaced(out: &mut impl Write) -> io::Result<()> {
    let p12 = Datatype::new(&[1, 1], &[0, 3], 2);
    try_set(out, "P12", Datatype::BYTE, p12)?;
    let clashing = Datatype::new(&[1, 1], &[0, 2], 2);
    try_set(out, "P12 with 2 for 3", Datatype::BYTE, clashing)
}

// 6: the second word of the filetype lies below 0.
fn set_entry(out: &mut impl Write) -> io::Result<()> {
    let below = Datatype::new(&[4, 4], &[0, -4], 12);
    try_set(out, "words at 0 and -4", Datatype::WORD, below)
}

// 7: the third word lies below the second.
fn set_order(out: &mut impl Write) -> io::Result<()> {
    let falling = Datatype::new(&[4, 4, 4], &[0, 8, 4], 12);
    try_set(out, "words at 0, 8 and 4", Datatype::WORD, falling)
}

// 17: the etype has two entries, the filetype three.
fn set_not_whole(out: &mut impl Write) -> io::Result<()> {
    let two = Datatype::new(&[4, 4], &[0, 4], 8);
    let three = Datatype::new(&[4, 4, 4], &[0, 4, 8], 16);
    try_set(out, "two words and one", two, three)
}

// 18: P8 with its last entry at 21. It is shifted by 17, the first entry of its group by 16.
fn set_group(out: &mut impl Write) -> io::Result<()> {
    let pair = Datatype::new(&[4, 1], &[0, 4], 8);
    let uneven = Datatype::new(&[4, 1, 4, 1], &[0, 4, 16, 21], 24);
    try_set(out, "P8 with 21 for 20", pair, uneven)
}

// 19: the etype's word lies at 4 and the filetype's at 0. The origin is -4.
fn set_origin(out: &mut impl Write) -> io::Result<()> {
    let high = Datatype::new(&[4], &[4], 8);
    let low = Datatype::new(&[4], &[0], 8);
    try_set(out, "a word 4 too low", high, low)
}

// What a refused set names, as numbers. Both types break rule 6, and the etype is named.
fn set_named(out: &mut impl Write) -> io::Result<()> {
    let h = Handle::open(Handle::MODE_BOTH).handle;
    let three = Datatype::new(&[3], &[0], 4);
    let a = set(h, 0, three, three);
    let refusal = Refusal(a.refusal);
    let told = a.named.numbers();
    writeln!(
        out,
        "set_view, width 3 in both types: {refusal}; type {}, entry {}",
        told.kind, told.entry
    )
}

// P1's typemaps come back as they were set.
fn get_view(out: &mut impl Write) -> io::Result<()> {
    let h = slots(100);
    let mut ew = [0];
    let mut ed = [0];
    let mut fw = [0];
    let mut fd = [0];
    let back = h.get_view(&mut ew, &mut ed, &mut fw, &mut fd);
    let refusal = Refusal(back.refusal);
    writeln!(
        out,
        "get_view, P1: {refusal}; displacement {}",
        back.displacement
    )?;
    show_type(out, "etype", back.etype, ew[0], ed[0])?;
    show_type(out, "filetype", back.filetype, fw[0], fd[0])
}

// P8's etype has two entries and its filetype four: lists of one place are too short, and stay.
fn get_view_short(out: &mut impl Write) -> io::Result<()> {
    let mut ew = [0];
    let mut ed = [0];
    let mut fw = [0];
    let mut fd = [0];
    let back = pairs().get_view(&mut ew, &mut ed, &mut fw, &mut fd);
    let refusal = Refusal(back.refusal);
    writeln!(
        out,
        "get_view, P8, lists of one place: {refusal}; first width {}",
        ew[0]
    )
}

// An offset that is allowed, and one that is not.
fn byte_offset(out: &mut impl Write) -> io::Result<()> {
    let h = slots(100);
    for o in [2, -1] {
        let a = h.byte_offset(Offset(o));
        let refusal = Refusal(a.refusal);
        writeln!(
            out,
            "byte_offset, P1, offset {o}: {refusal}; byte {}",
            a.place.0
        )?;
    }
    Ok(())
}

// A data byte, an unused byte inside an etype, a byte of the next tile; and a handle that may not write.
fn reverse(out: &mut impl Write) -> io::Result<()> {
    let h = pairs();
    for byte in [20, 21, 24] {
        show_owner(out, "P8", byte, h.reverse(BytePos(byte)))?;
    }
    let reader = Handle::open(Handle::MODE_READING).handle;
    show_owner(out, "mode 1", 20, reader.reverse(BytePos(20)))
}

// P2: end of file in etypes, by the size.
fn end(out: &mut impl Write, size: u64) -> io::Result<()> {
    let a = slots(100).end(&[0; 120], FileRecord::of_size(size));
    let refusal = Refusal(a.refusal);
    writeln!(out, "end, P1, size {size}: {refusal}; end {}", a.end.0)
}

// P10: from pointer 5. A refused seek leaves the pointer.
fn seek(out: &mut impl Write) -> io::Result<()> {
    let plan = [0; 20];
    let rec = FileRecord::of_size(20);
    let h = Handle::open(Handle::MODE_READING).handle;
    let set = h.seek(&plan, rec, 5, Handle::SEEK_SET);
    show_seek(out, "seek to 5", set)?;
    let at5 = set.handle;
    let cases = [
        ("seek by -5", -5, Handle::SEEK_CURRENT),
        ("seek by -6", -6, Handle::SEEK_CURRENT),
        ("seek by the largest offset", i64::MAX, Handle::SEEK_CURRENT),
        (
            "seek by the smallest offset",
            i64::MIN,
            Handle::SEEK_CURRENT,
        ),
        ("seek by 0 from the end", 0, Handle::SEEK_END),
        ("seek, whence 3", 0, 3),
    ];
    for (text, by, whence) in cases {
        show_seek(out, text, at5.seek(&plan, rec, by, whence))?;
    }
    Ok(())
}

// P3: a word that is not wholly below the size is not moved, and the rest of the buffer stays.
fn read_at(out: &mut impl Write, size: u64) -> io::Result<()> {
    let plan = [7; 120];
    let mut buf = [0; 12];
    let done = slots(100).read_at(&plan, FileRecord::of_size(size), Offset(0), 3, &mut buf);
    show_access(out, "read_at, P3", done)?;
    list(out, "  buffer:", &buf)
}

// Two words are there; each read goes on with the handle and the record that the one before answered.
fn read(out: &mut impl Write) -> io::Result<()> {
    let plan = [7; 120];
    let mut h = slots(100);
    let mut rec = FileRecord::of_size(120);
    let mut buf = [0; 4];
    for text in ["read, first", "read, second", "read, third"] {
        let done = h.read(&plan, rec, 1, &mut buf);
        show_access(out, text, done)?;
        h = done.handle;
        rec = done.file;
    }
    Ok(())
}

// P9: the file must have room for the highest byte; growth clears the gap.
fn write_at(out: &mut impl Write) -> io::Result<()> {
    let mut plan = [9; 20];
    let rec = FileRecord::of_size(0);
    for length in [19, 20] {
        let lent = &mut plan[..length];
        let done = slots(0).write_at(lent, rec, Offset(0), 2, &[1, 2, 3, 4, 5, 6, 7, 8]);
        show_access(out, format_args!("write_at, P9, length {length}"), done)?;
        list(out, "  file:", lent)?;
    }
    Ok(())
}

// P12: offsets 0, 1 and 2 are bytes 0, 3 and 2. The highest byte is that of offset 1; byte 1 belongs to no offset.
fn write_interlaced(out: &mut impl Write) -> io::Result<()> {
    let h = Handle::open(Handle::MODE_BOTH).handle;
    let p12 = Datatype::new(&[1, 1], &[0, 3], 2);
    let ready = set(h, 0, Datatype::BYTE, p12).handle;
    let mut plan = [9; 6];
    let done = ready.write_at(&mut plan, FileRecord::of_size(0), Offset(0), 3, &[1, 2, 3]);
    show_access(out, "write_at, P12", done)?;
    list(out, "  file:", &plan)
}

// The same two words, one a call, through the handle and the record that the call before answered.
fn write(out: &mut impl Write) -> io::Result<()> {
    let mut plan = [9; 20];
    let first = slots(0).write(&mut plan, FileRecord::of_size(0), 1, &[1, 2, 3, 4]);
    show_access(out, "write, first", first)?;
    let second = first.handle.write(&mut plan, first.file, 1, &[5, 6, 7, 8]);
    show_access(out, "write, second", second)?;
    list(out, "  file:", &plan)
}

// A handle that writes the words at one displacement of 8 bytes: its own half of the slots.
fn half(displacement: i64) -> Handle {
    let h = Handle::open(Handle::MODE_BOTH).handle;
    let place = [displacement];
    set(h, 0, Datatype::WORD, Datatype::new(&[4], &place, 8)).handle
}

// Two handles on one file: the second call gets the record that the first answered.
fn share(out: &mut impl Write) -> io::Result<()> {
    let mut plan = [0; 16];
    let even = half(0).write(&mut plan, FileRecord::of_size(0), 2, &[1; 8]);
    show_access(out, "write by the first handle", even)?;
    let odd = half(4).write(&mut plan, even.file, 2, &[2; 8]);
    show_access(out, "write by the second handle", odd)?;
    list(out, "  file:", &plan)
}

// A handle that no open made: it is checked by its numbers alone.
fn forge(out: &mut impl Write, pointer: u64) -> io::Result<()> {
    let forged = Handle {
        mode: Handle::MODE_READING,
        pointer,
        view: View::linear(),
    };
    let a = forged.byte_offset(Offset(7));
    let refusal = Refusal(a.refusal);
    writeln!(
        out,
        "byte_offset by a handle with pointer {pointer}: {refusal}; byte {}",
        a.place.0
    )
}

fn main(rt: HostRuntime) -> io::Result<()> {
    let mut out = io::writer(&rt);
    open(&mut out)?;
    set_view(&mut out)?;
    set_for(&mut out, Handle::MODE_WRITING)?;
    set_for(&mut out, Handle::MODE_READING)?;
    set_interlaced(&mut out)?;
    set_entry(&mut out)?;
    set_order(&mut out)?;
    set_not_whole(&mut out)?;
    set_group(&mut out)?;
    set_origin(&mut out)?;
    set_named(&mut out)?;
    get_view(&mut out)?;
    get_view_short(&mut out)?;
    byte_offset(&mut out)?;
    reverse(&mut out)?;
    for size in [104, 116, 117] {
        end(&mut out, size)?;
    }
    seek(&mut out)?;
    for size in [119, 120] {
        read_at(&mut out, size)?;
    }
    read(&mut out)?;
    write_at(&mut out)?;
    write_interlaced(&mut out)?;
    write(&mut out)?;
    share(&mut out)?;
    for pointer in [Handle::MAX_POINTER, Handle::MAX_POINTER + 1] {
        forge(&mut out, pointer)?;
    }
    Ok(())
}
