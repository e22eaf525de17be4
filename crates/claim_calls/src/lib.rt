//! Demand 2 and the sentences of document 01 about single calls: each function makes one call, and its contract is the paper's property of that call, for all inputs.
#![tactic(auto)]

ghost use Rattle.std.specs.Prelude.{◌≡◌, length};
ghost use Rattle.view.specs.Types.{view_of_lists, typemaps};
ghost use Rattle.claim_calls.specs.Accesses.{Written, HasRead};
ghost use Rattle.claim_calls.specs.Calls.{Opened, ViewSet, ViewGot, PlaceAnswered, EndAnswered, SeekAnswered};
ghost use Rattle.claim_calls.specs.Parts.{starts_at};

use file::{
    AccessAnswer, ByteOffsetAnswer, EndAnswer, FileRecord, GetViewAnswer, Handle, OpenAnswer,
    SeekAnswer, SetViewAnswer,
};
use view::Offset;

// Opens: the view is the linear byte stream, the pointer 0; every call refuses the handle of a refused open.
pub fn open_file(mode: u64) -> OpenAnswer
    ensures { Opened mode result }
{
    Handle::open(mode)
}

// Sets a view: granted exactly if handle, representation and view keep their rules, and then the handle has the lent view.
// The lists come one by one, as `Handle::set_view` has them.
pub fn set_view(
    handle: Handle,
    representation: &[u8],
    displacement: i64,
    ew: &[u64],
    ed: &[i64],
    ex: i64,
    fw: &[u64],
    fd: &[i64],
    fx: i64,
) -> SetViewAnswer
    ensures { ViewSet handle representation.now
        (view_of_lists displacement ew.now ed.now ex fw.now fd.now fx) result }
{
    handle.set_view(representation, displacement, ew, ed, ex, fw, fd, fx)
}

// Gives the view back: the four lists begin with the view's, and the rest of them stays.
pub fn get_view(
    handle: Handle,
    ew: &mut [u64],
    ed: &mut [i64],
    fw: &mut [u64],
    fd: &mut [i64],
) -> GetViewAnswer
    ensures { ViewGot handle
        (typemaps ew.old ed.old fw.old fd.old)
        (typemaps ew.new ed.new fw.new fd.new) result }
{
    handle.get_view(ew, ed, fw, fd)
}

// Document 01's place query: D + (o div K)·F + p(o mod K).
pub fn byte_offset(handle: Handle, o: Offset) -> ByteOffsetAnswer
    ensures { PlaceAnswered handle o.0 result }
{
    handle.byte_offset(o)
}

// End of file: the smallest offset such that no etype at it or later begins below the size.
pub fn end_of_file(handle: Handle, bytes: &[u8], rec: FileRecord) -> EndAnswer
    ensures { EndAnswered handle (length bytes.now) rec result }
{
    handle.end(bytes, rec)
}

// Seeks: the pointer becomes the target.
pub fn seek(handle: Handle, bytes: &[u8], rec: FileRecord, by: i64, whence: u64) -> SeekAnswer
    ensures { SeekAnswered handle (length bytes.now) rec by whence result }
{
    handle.seek(bytes, rec, by, whence)
}

// Where a data access begins: at the pointer, or at an explicit offset. As an Option the pointer would be a None that says nothing of itself.
#[derive(Clone, Copy)]
pub enum Begin {
    Pointer,
    Explicit(Offset),
}

// A read or a write as it is asked for, but for the file's bytes and the buffer.
#[derive(Clone, Copy)]
pub struct DataAccess {
    pub handle: Handle,
    pub file: FileRecord,
    pub begin: Begin,
    pub count: u64,
}

impl DataAccess {
    // Writes: a granted one sets exactly the mapped bytes, fills the gap with zeros, and answers the new size.
    pub fn write(self, bytes: &mut [u8], buf: &[u8]) -> AccessAnswer
        ensures { Written self bytes.old bytes.new buf.now result }
    {
        let handle = self.handle;
        let rec = self.file;
        let begin = self.begin;
        match begin {
            Begin::Pointer => handle.write(bytes, rec, self.count, buf),
            Begin::Explicit(o) => handle.write_at(bytes, rec, o, self.count, buf),
        }
    }

    // Reads: a granted one moves as many etypes as lie below the size, and answers their number.
    pub fn read(self, bytes: &[u8], buf: &mut [u8]) -> AccessAnswer
        ensures { HasRead self bytes.now buf.old buf.new result }
    {
        let handle = self.handle;
        let rec = self.file;
        let begin = self.begin;
        match begin {
            Begin::Pointer => handle.read(bytes, rec, self.count, buf),
            Begin::Explicit(o) => handle.read_at(bytes, rec, o, self.count, buf),
        }
    }

    // Its offset: the explicit one, or the pointer. For our own crates.
    pub fn offset(self) -> Offset
        ensures { result.0 ≡ starts_at self.handle self.begin }
    {
        let handle = self.handle;
        let begin = self.begin;
        match begin {
            Begin::Pointer => handle.pointer_offset(),
            Begin::Explicit(o) => o,
        }
    }
}
