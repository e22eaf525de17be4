//! What a handle answers of its view and its pointer: the place query, the reverse lookup, end of file, seek, and giving the view back. Each makes its checks in their order, and then answers.
//! A handle comes with its view lent, so that no call copies it.
#![tactic(auto)]

ghost use Rattle.std.specs.Prelude.{◌≡◌, ◌≤◌, pos};
ghost use Rattle.view.specs.Limits.{max_file_length, offset_count};
ghost use Rattle.view.specs.Parts.{refusal_in};
ghost use Rattle.view_place.specs.Parts.{Tiled, OriginsLow};
ghost use Rattle.handle.specs.Parts.{lent_handle};
ghost use Rattle.call_query.specs.Parts.{PlaceFound, OwnerFound, EndFound, base_on, Sought, ListsGot};

use handle::{FileNumbers, FileRecord, HandleRef};
use view::{BytePos, Offset, Pair, Refusal, View};

// A seek's whence: 0 sets, 1 adds to the pointer, 2 adds to the end of file. A caller gives any number, and check 15 refuses the others, so it stays a number.
pub const WHENCE_SET: u64 = 0;

pub const WHENCE_CURRENT: u64 = 1;

pub const WHENCE_END: u64 = 2;

// Checks 1 and 12, and the byte at which the etype at an offset begins.
pub fn byte_offset(h: HandleRef, o: Offset) -> Result<BytePos, Refusal>
    ensures { PlaceFound (lent_handle h.entry) o.0 result }
{
    if !call_checks::handle_valid(h) {
        return Err(Refusal::Handle);
    }
    if !handle::offset_allowed(o) {
        return Err(Refusal::Range);
    }
    Ok(view_place::place_of(h.view, o))
}

// Checks 1 and 11, and the pair that a file byte belongs to, or none.
pub fn reverse(h: HandleRef, byte: BytePos) -> Result<Option<Pair>, Refusal>
    ensures { OwnerFound (lent_handle h.entry) byte.0 result }
{
    if !call_checks::handle_valid(h) {
        return Err(Refusal::Handle);
    }
    if !View::allows_writing(h.mode) {
        return Err(Refusal::Mode);
    }
    Ok(view_owner::owner_of(h.view, byte))
}

// Check 1, and the end of file in etypes.
pub fn end(h: HandleRef, f: FileNumbers) -> Result<Offset, Refusal>
    ensures { EndFound (lent_handle h.entry) f.length f.record result }
{
    if !call_checks::file_valid(h, f) {
        return Err(Refusal::Handle);
    }
    Ok(view_place::end_of(h.view, f.record.size))
}

// What a seek adds its offset to: nothing, the pointer or the end of file.
fn seek_base(pointer: u64, view: &View, rec: FileRecord, whence: u64) -> Offset
    requires { Tiled view.now.numbers × OriginsLow view.now.numbers view.now.origins × (rec.size ≤ max_file_length) × (pointer ≤ offset_count) }
    ensures { result.0 ≡ pos (base_on pointer view.now rec whence) }
{
    match whence {
        WHENCE_SET => Offset(0),
        WHENCE_CURRENT => view::to_offset(pointer),
        _ => view_place::end_of(view, rec.size),
    }
}

// Checks 1, 15 and 12, and where a seek puts the pointer. The file is looked at for every whence.
pub fn seek(h: HandleRef, f: FileNumbers, by: i64, whence: u64) -> Result<u64, Refusal>
    ensures { Sought (lent_handle h.entry) f.length f.record by whence result }
{
    if !call_checks::file_valid(h, f) {
        return Err(Refusal::Handle);
    }
    let base = seek_base(h.pointer, h.view, f.record, whence);
    let target = handle::target_of(base, by);
    if WHENCE_END < whence {
        return Err(Refusal::Whence);
    }
    target.ok_or(Refusal::Range)
}

// Checks 1 and 13 of giving back, and the view's typemaps at the front of the four lists, which come one by one, as `Handle::get_view` has them.
pub fn get_view(
    h: HandleRef,
    ew: &mut [u64],
    ed: &mut [i64],
    fw: &mut [u64],
    fd: &mut [i64],
) -> Result<(), Refusal>
    ensures { ListsGot (lent_handle h.entry) ew.old ew.new ed.old ed.new fw.old fw.new fd.old fd.new (refusal_in result) }
{
    if !call_checks::handle_valid(h) {
        return Err(Refusal::Handle);
    }
    let long = handle::lists_long(
        h.view,
        ew.len() as u64,
        ed.len() as u64,
        fw.len() as u64,
        fd.len() as u64,
    );
    if !long {
        return Err(Refusal::Room);
    }
    view_typemap::fill_lists(h.view, ew, ed, fw, fd);
    Ok(())
}
