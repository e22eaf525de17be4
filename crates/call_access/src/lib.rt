//! Reading and writing at an offset: the checks of the call in their order, and then the mover.
//! A handle comes with its view lent, so that no call copies it; a file comes as its bytes and its record.
#![tactic(auto)]

ghost use Rattle.std.specs.Prelude.{◌≡◌};
ghost use Rattle.handle.specs.Parts.{lent_handle};
ghost use Rattle.call_access.specs.Parts.{ReadMade, WriteChecked, WriteMade};

use handle::{Access, FileNumbers, FileRecord, HandleRef};
use view::{BytePos, Refusal, View};

// Reads the etypes of an access into the buffer, and answers how many it moved.
pub fn read(
    h: HandleRef,
    file: &[u8],
    rec: FileRecord,
    access: Access,
    buf: &mut [u8],
) -> Result<u64, Refusal>
    ensures { ReadMade (lent_handle h.entry) file.now rec access.offset.0 access.count buf.old buf.new result }
{
    let allowed = View::allows_reading(h.mode);
    let room = buf.len() as u64;
    let f = FileNumbers {
        length: file.len() as u64,
        record: rec,
    };
    call_checks::access_refusal(allowed, h, f, access, room)?;
    Ok(move_read::gather(h.view, file, rec, access, buf))
}

// Checks 1, 11, 12, 13 and 14 of a write from a buffer of `room` bytes, and where it ends.
fn checked(h: HandleRef, f: FileNumbers, access: Access, room: u64) -> Result<BytePos, Refusal>
    ensures { WriteChecked (lent_handle h.entry) f.length f.record access.offset.0 access.count room result }
{
    let allowed = View::allows_writing(h.mode);
    call_checks::access_refusal(allowed, h, f, access, room)?;
    let end = move_end::write_end(h.view, access);
    if f.length < end.0 {
        return Err(Refusal::Length);
    }
    Ok(end)
}

// What a granted write answers: how many etypes it moved, and the file's record after it.
#[derive(Clone, Copy)]
pub struct WriteOutcome {
    pub count: u64,
    pub file: FileRecord,
}

// Writes the etypes of an access from the buffer, all of them or none: the gap is filled first, whole, then the data are stored.
pub fn write(
    h: HandleRef,
    file: &mut [u8],
    rec: FileRecord,
    access: Access,
    buf: &[u8],
) -> Result<WriteOutcome, Refusal>
    ensures { WriteMade (lent_handle h.entry) file.old file.new rec access.offset.0 access.count buf.now result }
{
    let f = FileNumbers {
        length: file.len() as u64,
        record: rec,
    };
    let end = checked(h, f, access, buf.len() as u64)?;
    let grown = move_write::grow(file, rec, end);
    move_write::scatter(h.view, file, access, buf);
    Ok(WriteOutcome {
        count: access.count,
        file: grown,
    })
}
