//! A file view: displacement, etype and filetype, as MPI defines it, with its limits, the refusal numbers and the default view; the modes are in mode.rt, the refusals in refusals.rt, what a refused set names in naming.rt, what an etype's lists add up to in totals.rt.
//! What a view means (document 01's rules, places, belonging and end of file) is in specs/.
#![tactic(auto)]

mod mode;
mod naming;
mod refusals;
mod totals;

ghost use Rattle.std.specs.Prelude.{◌≡◌, ◌<◌, pos};
ghost use Rattle.view.specs.Parts.{default_view};
ghost use Rattle.view.specs.Types.{whole};
ghost use Rattle.view.specs.Owners.{owner_numbers};

pub use refusals::Refusal;

// An etype offset: a count of etypes from the beginning of the view. Offsets come in signed.
#[derive(Clone, Copy, PartialEq, Eq, Debug)]
pub struct Offset(pub i64);

// A byte position in the file.
#[derive(Clone, Copy, PartialEq, Eq, Debug)]
pub struct BytePos(pub u64);

// A number for each entry of an etype, and one for each instance in a filetype: arrays of the greatest length, with how many are used in the types' numbers, since no library here allocates and a handle goes by value.
pub type PerEntry = [u64; View::MAX_ETYPE_ENTRIES as usize];

pub type PerInstance = [u64; View::MAX_INSTANCES as usize];

// The numbers of an etype: how many entries it has, and its extent.
#[derive(Clone, Copy)]
pub struct Etype {
    pub entries: u64,
    pub extent: u64,
}

// The numbers of a filetype: how many instances of the etype it has, and its extent.
#[derive(Clone, Copy)]
pub struct Filetype {
    pub instances: u64,
    pub extent: u64,
}

// The numbers of a view.
#[derive(Clone, Copy)]
pub struct Numbers {
    pub displacement: u64,
    pub etype: Etype,
    pub filetype: Filetype,
}

// A view: its numbers, the widths and displacements of the etype's entries, and the origins of the filetype's instances. It has no invariant: a handle may hold any numbers, which check 1 refuses (`handle_valid`), so functions ask for what they need.
// Instance i is the etype shifted by origin i. Places of a list past its type's count mean nothing.
#[derive(Clone, Copy)]
pub struct View {
    pub numbers: Numbers,
    pub widths: PerEntry,
    pub displacements: PerEntry,
    pub origins: PerInstance,
}

// The pair that a file byte belongs to: the etype's offset, and the index in its packed data. The reverse lookup finds one or none.
#[derive(Clone, Copy, PartialEq, Eq, Debug)]
pub struct Pair {
    pub offset: Offset,
    pub index: u64,
}

// The numbers of a lookup's answer: whether a pair is named, its offset and its index; both are 0 where none is. The flag stands beside the numbers, since `Answers` and figure P8 state the lookup so (`owner_numbers`).
#[derive(Clone, Copy)]
pub struct OwnerNumbers {
    pub named: bool,
    pub offset: Offset,
    pub index: u64,
}

impl OwnerNumbers {
    // The numbers of either answer.
    #[tactic(auto, unfolding(crate::specs::Owners::owner_numbers))]
    pub fn of(owner: Option<Pair>) -> OwnerNumbers
        ensures { result ≡ owner_numbers owner }
    {
        match owner {
            Some(pair) => OwnerNumbers {
                named: true,
                offset: pair.offset,
                index: pair.index,
            },
            None => OwnerNumbers {
                named: false,
                offset: Offset(0),
                index: 0,
            },
        }
    }
}

// What a refused set names: nothing, or an entry of the etype or of the filetype, counted from 0. The papers number the three cases alike (`named_numbers`): naming nothing is a case, and no Option around two.
#[derive(Clone, Copy, PartialEq, Eq, Debug)]
pub enum Named {
    Nothing,
    EtypeEntry(u64),
    FiletypeEntry(u64),
}

// The numbers of what is named: the kind of type (0 for none, 1 for the etype, 2 for the filetype) and the entry, 0 where there is none.
#[derive(Clone, Copy)]
pub struct NamedNumbers {
    pub kind: u64,
    pub entry: u64,
}

// What a refused set says of a view: the refusal, and what it names.
#[derive(Clone, Copy, PartialEq, Eq, Debug)]
pub struct Refused {
    pub refusal: Refusal,
    pub named: Named,
}

impl View {
    // Document 01's table of limits.
    pub const WIDTH_1: u64 = 1;

    pub const WIDTH_2: u64 = 2;

    pub const WIDTH_4: u64 = 4;

    pub const WIDTH_8: u64 = 8;

    pub const MIN_ENTRIES: u64 = 1;

    pub const MAX_ETYPE_ENTRIES: u64 = 8;

    pub const MAX_FILETYPE_ENTRIES: u64 = 256;

    pub const MIN_INSTANCES: u64 = 1;
    // A filetype has at most this many times the etype's entries.
    pub const MAX_INSTANCES: u64 = 64;

    pub const MIN_ENTRY_DISPLACEMENT: i64 = 0;
    // An entry's displacement plus its width.
    pub const MAX_ENTRY_END: u64 = 1048576;

    pub const MIN_EXTENT: u64 = 1;

    pub const MAX_EXTENT: u64 = 1048576;

    pub const MIN_DISPLACEMENT: i64 = 0;

    pub const MAX_DISPLACEMENT: u64 = 1099511627776;

    pub const MIN_OFFSET: i64 = 0;

    pub const MAX_OFFSET: u64 = 4294967295;

    // Offsets of one etype lie below it, and the pointer reaches it.
    pub const OFFSET_COUNT: u64 = 4294967296;

    pub const MAX_FILE_SIZE: u64 = 1099511627776;

    // The refusal numbers of documents 01 and 02, in their order.
    pub const REFUSED_HANDLE: u64 = 1;

    pub const REFUSED_REPRESENTATION: u64 = 2;

    pub const REFUSED_DISPLACEMENT: u64 = 3;

    pub const REFUSED_ENTRY_COUNT: u64 = 4;

    pub const REFUSED_EXTENT: u64 = 5;

    pub const REFUSED_ENTRY: u64 = 6;

    pub const REFUSED_ORDER: u64 = 7;

    pub const REFUSED_HOLE: u64 = 9;

    pub const REFUSED_OVERLAP: u64 = 10;

    pub const REFUSED_MODE: u64 = 11;

    pub const REFUSED_RANGE: u64 = 12;

    pub const REFUSED_ROOM: u64 = 13;

    pub const REFUSED_LENGTH: u64 = 14;

    pub const REFUSED_WHENCE: u64 = 15;

    pub const REFUSED_OPEN_MODE: u64 = 16;

    // Of order 1, in the place of 8.
    pub const REFUSED_WHOLE_GROUPS: u64 = 17;

    pub const REFUSED_GROUP: u64 = 18;

    pub const REFUSED_ORIGIN: u64 = 19;

    // The linear byte stream: displacement 0, both types one entry of width 1 at 0 with extent 1.
    pub fn linear() -> View
        ensures { result ≡ default_view }
    {
        let mut widths = [0u64; View::MAX_ETYPE_ENTRIES as usize];
        widths[0] = View::WIDTH_1;
        View {
            numbers: Numbers {
                displacement: 0,
                etype: Etype {
                    entries: 1,
                    extent: 1,
                },
                filetype: Filetype {
                    instances: 1,
                    extent: 1,
                },
            },
            widths: widths,
            displacements: [0u64; View::MAX_ETYPE_ENTRIES as usize],
            origins: [0u64; View::MAX_INSTANCES as usize],
        }
    }
}

// A signed number as a natural one, and 0 for a negative one, of which no rule asks it. `u64::try_from(x).unwrap_or(0)` is the same test in more words. For our own crates.
pub fn natural(x: i64) -> u64
    ensures { result ≡ whole x }
{
    if x < 0 { 0 } else { x as u64 }
}

// An etype offset of a number that a signed one holds: a TryFrom could fail, and this cannot. For our own crates.
pub fn to_offset(n: u64) -> Offset
    requires { n < 9223372036854775808 }
    ensures { result.0 ≡ pos n }
{
    Offset(n as i64)
}
