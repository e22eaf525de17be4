// Why a call is refused, and the papers' number of each refusal.
ghost use Rattle.std.specs.Prelude.{◌≡◌};
ghost use Rattle.view.specs.Parts.{refusal_number};

use crate::View;

// The refusals of documents 01 and 02, in the order of the checks.
#[derive(Clone, Copy, PartialEq, Eq, Debug)]
pub enum Refusal {
    Handle,
    Representation,
    Displacement,
    EntryCount,
    Extent,
    Entry,
    Order,
    WholeGroups,
    Group,
    Origin,
    Hole,
    Overlap,
    Mode,
    Range,
    Room,
    Length,
    Whence,
    OpenMode,
}

impl Refusal {
    // The papers' number of each. An answer has the number, and 0 where it is granted. A method and no From: `refusal.number()` says what is got.
    #[tactic(auto, unfolding(crate::specs::Parts::refusal_number))]
    pub fn number(self) -> u64
        ensures { result ≡ refusal_number self }
    {
        match self {
            Refusal::Handle => View::REFUSED_HANDLE,
            Refusal::Representation => View::REFUSED_REPRESENTATION,
            Refusal::Displacement => View::REFUSED_DISPLACEMENT,
            Refusal::EntryCount => View::REFUSED_ENTRY_COUNT,
            Refusal::Extent => View::REFUSED_EXTENT,
            Refusal::Entry => View::REFUSED_ENTRY,
            Refusal::Order => View::REFUSED_ORDER,
            Refusal::WholeGroups => View::REFUSED_WHOLE_GROUPS,
            Refusal::Group => View::REFUSED_GROUP,
            Refusal::Origin => View::REFUSED_ORIGIN,
            Refusal::Hole => View::REFUSED_HOLE,
            Refusal::Overlap => View::REFUSED_OVERLAP,
            Refusal::Mode => View::REFUSED_MODE,
            Refusal::Range => View::REFUSED_RANGE,
            Refusal::Room => View::REFUSED_ROOM,
            Refusal::Length => View::REFUSED_LENGTH,
            Refusal::Whence => View::REFUSED_WHENCE,
            Refusal::OpenMode => View::REFUSED_OPEN_MODE,
        }
    }
}
