//! What calls take of a handle and of a file, and an access; the limits that these keep by themselves, where a seek goes, and the room of four lists. No sum, product or difference wraps.
#![tactic(auto)]

ghost use Rattle.std.specs.Prelude.{◌≡◌, ◌+◌, ◌≤◌, pos, ◌+ℤ◌};
ghost use Rattle.view.specs.Parts.{max_etype_entries, max_instances};
ghost use Rattle.view.specs.Limits.{offset_allowed, file_allowed};
ghost use Rattle.view.specs.Types.{whole};
ghost use Rattle.handle.specs.Ranges.{access_allowed};
ghost use Rattle.handle.specs.Parts.{target_at, lists_long};

use view::{Offset, View};

// A handle as calls take it: the mode of the open, the individual file pointer, and the view, which is lent, so that no call copies it.
#[derive(Clone, Copy)]
pub struct HandleRef<'a> {
    pub mode: u64,
    pub pointer: u64,
    pub view: &'a View,
}

// What is recorded of a file beside its bytes: its size.
#[derive(Clone, Copy)]
pub struct FileRecord {
    pub size: u64,
}

// The numbers of a file: its length in bytes, and its record.
#[derive(Clone, Copy)]
pub struct FileNumbers {
    pub length: u64,
    pub record: FileRecord,
}

// An access: so many etypes from an offset on.
#[derive(Clone, Copy)]
pub struct Access {
    pub offset: Offset,
    pub count: u64,
}

impl FileRecord {
    pub fn of_size(size: u64) -> FileRecord
        ensures { result.size ≡ size }
    {
        FileRecord { size: size }
    }
}

impl FileNumbers {
    // Whether the length is in range, and the size at most the length.
    pub fn allowed(self) -> bool
        ensures { result ≡ file_allowed self.length self.record.size }
    {
        if View::MAX_FILE_SIZE < self.length {
            return false;
        }
        self.record.size <= self.length
    }
}

impl Access {
    // Whether the offset is not negative, and offset plus count at most 2^32.
    pub fn allowed(self) -> bool
        ensures { result ≡ access_allowed self.offset.0 self.count }
    {
        let offset = self.offset;
        if offset.0 < View::MIN_OFFSET {
            return false;
        }
        let at = view::natural(offset.0);
        if View::OFFSET_COUNT < at {
            return false;
        }
        self.count <= View::OFFSET_COUNT - at
    }
}

// Whether an etype may stand at `o`.
pub fn offset_allowed(o: Offset) -> bool
    ensures { result ≡ offset_allowed o.0 }
{
    if o.0 < View::MIN_OFFSET {
        return false;
    }
    view::natural(o.0) <= View::MAX_OFFSET
}

// Where a seek by `by`, which may be negative, from `base` puts the pointer; none if it may not stand there.
pub fn target_of(base: Offset, by: i64) -> Option<u64>
    ensures { result ≡ target_at (pos (whole base.0) +ℤ by) }
{
    let pointer = view::natural(base.0).checked_add_signed(by)?;
    if View::OFFSET_COUNT < pointer {
        return None;
    }
    Some(pointer)
}

// Check 13 of giving back: whether the four lists, by their lengths, one by one as `Handle::get_view` has them, have room for the entries of a view's etype and filetype. For our own crates.
pub fn lists_long(view: &View, ew: u64, ed: u64, fw: u64, fd: u64) -> bool
    requires { (view.now.numbers.etype.entries ≤ max_etype_entries) × (view.now.numbers.filetype.instances ≤ max_instances) }
    ensures { result ≡ lists_long view.now.numbers.etype.entries view.now.numbers.filetype.instances ew ed fw fd }
{
    let n = view.numbers.etype.entries;
    let all = view.numbers.filetype.instances * n;
    if ew < n {
        return false;
    }
    if ed < n {
        return false;
    }
    if fw < all {
        return false;
    }
    all <= fd
}
