//! The file handle and its calls: open, setting and getting a view, byte offset, reverse lookup, end of file, seek, and reading and writing at an explicit offset or at the pointer.
//! A call takes the handle by value and hands it back with the answer; a file is a lent run of bytes with a record by value. The two come apart, since the record comes back in the answer while the bytes are only lent.
//! What each call answers, and what it leaves in everything lent, is defined in specs/. The calls stand in a module each for opening, views, places, the pointer, and data.
#![tactic(auto)]

mod data_access;
mod opening;
mod place_query;
mod seeking;
mod view_setting;

ghost use Rattle.std.specs.Prelude.{◌≡◌};
ghost use Rattle.handle.specs.Parts.{lent_handle};
ghost use Rattle.file.specs.Constants.{constants_on_paper};
ghost use Rattle.file.specs.Handles.{on_paper};

pub use handle::FileRecord;
use handle::HandleRef;
use view::{BytePos, Named, Offset, Pair, View};

// A handle's constants, each group in the order in which they are declared below.
#[derive(Clone, Copy)]
pub struct Constants {
    pub modes: [u64; 4],
    pub limits: [u64; 2],
    pub whences: [u64; 3],
    pub refusals: [u64; 18],
}

// A file handle: the mode of the open, the individual file pointer, and the view.
#[derive(Clone, Copy)]
pub struct Handle {
    pub mode: u64,
    pub pointer: u64,
    pub view: View,
}

impl Handle {
    // The modes of an open; one that names none has 0.
    pub const MODE_UNNAMED: u64 = View::MODE_UNNAMED;

    pub const MODE_READING: u64 = View::MODE_READING;

    pub const MODE_WRITING: u64 = View::MODE_WRITING;

    pub const MODE_BOTH: u64 = View::MODE_BOTH;

    pub const MAX_POINTER: u64 = View::OFFSET_COUNT;

    pub const MAX_FILE_LENGTH: u64 = View::MAX_FILE_SIZE;

    // A seek's whence.
    pub const SEEK_SET: u64 = call_query::WHENCE_SET;

    pub const SEEK_CURRENT: u64 = call_query::WHENCE_CURRENT;

    pub const SEEK_END: u64 = call_query::WHENCE_END;

    // The refusal numbers of documents 01 and 02, in their order: View's again, since callers name them on the handle, and `constants_on_paper` states them.
    pub const REFUSED_HANDLE: u64 = View::REFUSED_HANDLE;

    pub const REFUSED_REPRESENTATION: u64 = View::REFUSED_REPRESENTATION;

    pub const REFUSED_DISPLACEMENT: u64 = View::REFUSED_DISPLACEMENT;

    pub const REFUSED_ENTRY_COUNT: u64 = View::REFUSED_ENTRY_COUNT;

    pub const REFUSED_EXTENT: u64 = View::REFUSED_EXTENT;

    pub const REFUSED_ENTRY: u64 = View::REFUSED_ENTRY;

    pub const REFUSED_ORDER: u64 = View::REFUSED_ORDER;

    pub const REFUSED_HOLE: u64 = View::REFUSED_HOLE;

    pub const REFUSED_OVERLAP: u64 = View::REFUSED_OVERLAP;

    pub const REFUSED_MODE: u64 = View::REFUSED_MODE;

    pub const REFUSED_RANGE: u64 = View::REFUSED_RANGE;

    pub const REFUSED_ROOM: u64 = View::REFUSED_ROOM;

    pub const REFUSED_LENGTH: u64 = View::REFUSED_LENGTH;

    pub const REFUSED_WHENCE: u64 = View::REFUSED_WHENCE;

    pub const REFUSED_OPEN_MODE: u64 = View::REFUSED_OPEN_MODE;

    // Of order 1, in the place of 8.
    pub const REFUSED_WHOLE_GROUPS: u64 = View::REFUSED_WHOLE_GROUPS;

    pub const REFUSED_GROUP: u64 = View::REFUSED_GROUP;

    pub const REFUSED_ORIGIN: u64 = View::REFUSED_ORIGIN;

    // The handle as calls take it, with its view lent.
    fn lent(&self) -> HandleRef
        ensures { lent_handle result ≡ on_paper self.now }
    {
        HandleRef {
            mode: self.mode,
            pointer: self.pointer,
            view: &self.view,
        }
    }

    // Every constant above; the contract says that they are the papers' numbers.
    pub fn constants() -> Constants
        ensures { result ≡ constants_on_paper }
    {
        Constants {
            modes: [
                Handle::MODE_UNNAMED,
                Handle::MODE_READING,
                Handle::MODE_WRITING,
                Handle::MODE_BOTH,
            ],
            limits: [Handle::MAX_POINTER, Handle::MAX_FILE_LENGTH],
            whences: [Handle::SEEK_SET, Handle::SEEK_CURRENT, Handle::SEEK_END],
            refusals: [
                Handle::REFUSED_HANDLE,
                Handle::REFUSED_REPRESENTATION,
                Handle::REFUSED_DISPLACEMENT,
                Handle::REFUSED_ENTRY_COUNT,
                Handle::REFUSED_EXTENT,
                Handle::REFUSED_ENTRY,
                Handle::REFUSED_ORDER,
                Handle::REFUSED_HOLE,
                Handle::REFUSED_OVERLAP,
                Handle::REFUSED_MODE,
                Handle::REFUSED_RANGE,
                Handle::REFUSED_ROOM,
                Handle::REFUSED_LENGTH,
                Handle::REFUSED_WHENCE,
                Handle::REFUSED_OPEN_MODE,
                Handle::REFUSED_WHOLE_GROUPS,
                Handle::REFUSED_GROUP,
                Handle::REFUSED_ORIGIN,
            ],
        }
    }
}

// The answers, one type for each call: the refusal number, 0 if granted, the count, the handle, the file record where the call has one, and what else the call answers.
// Reads and writes, at an explicit offset or at the pointer, share a type.
// The refusal is the papers' number, and no Result: the definitions of the calls (`byte_offset_answer` and the others), the claims and the table of figures state it, and a refused call hands the handle back too.

#[derive(Clone, Copy)]
pub struct OpenAnswer {
    pub refusal: u64,
    pub count: u64,
    pub handle: Handle,
}

// A refusal may name an entry of a type.
#[derive(Clone, Copy)]
pub struct SetViewAnswer {
    pub refusal: u64,
    pub count: u64,
    pub handle: Handle,
    pub named: Named,
}

// How many entries a type has, and its extent. No `view::Filetype`, which counts instances.
#[derive(Clone, Copy)]
pub struct TypeShape {
    pub entries: u64,
    pub extent: u64,
}

// Of document 01's "giving back".
#[derive(Clone, Copy)]
pub struct GetViewAnswer {
    pub refusal: u64,
    pub count: u64,
    pub handle: Handle,
    pub displacement: u64,
    pub etype: TypeShape,
    pub filetype: TypeShape,
}

// Of document 01's "place query".
#[derive(Clone, Copy)]
pub struct ByteOffsetAnswer {
    pub refusal: u64,
    pub count: u64,
    pub handle: Handle,
    pub place: BytePos,
}

// Of document 01's "reverse lookup".
#[derive(Clone, Copy)]
pub struct ReverseAnswer {
    pub refusal: u64,
    pub count: u64,
    pub handle: Handle,
    pub owner: Option<Pair>,
}

// Of document 01's "end of file".
#[derive(Clone, Copy)]
pub struct EndAnswer {
    pub refusal: u64,
    pub count: u64,
    pub handle: Handle,
    pub file: FileRecord,
    pub end: Offset,
}

// Of a seek; `seek_answer` and `SeekAnswered` are stated of it.
#[derive(Clone, Copy)]
pub struct SeekAnswer {
    pub refusal: u64,
    pub count: u64,
    pub handle: Handle,
    pub file: FileRecord,
}

#[derive(Clone, Copy)]
pub struct AccessAnswer {
    pub refusal: u64,
    pub count: u64,
    pub handle: Handle,
    pub file: FileRecord,
}
