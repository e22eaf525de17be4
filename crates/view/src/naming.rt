// What a refused set names, and what it says of a view.
ghost use Rattle.std.specs.Prelude.{◌≡◌};
ghost use Rattle.view.specs.declared.Named.TheVariants.{Nothing, EtypeEntry, FiletypeEntry};
ghost use Rattle.view.specs.Named.{named_numbers};
ghost use Rattle.view.specs.Parts.{refused_as};

use crate::{Named, NamedNumbers, Refusal, Refused};

impl Named {
    pub const TYPE_NONE: u64 = 0;

    pub const TYPE_ETYPE: u64 = 1;

    pub const TYPE_FILETYPE: u64 = 2;

    // The numbers of each case.
    #[tactic(auto, unfolding(crate::specs::Named::named_numbers))]
    pub fn numbers(self) -> NamedNumbers
        ensures { result ≡ named_numbers self }
    {
        match self {
            Named::Nothing => NamedNumbers {
                kind: Named::TYPE_NONE,
                entry: 0,
            },
            Named::EtypeEntry(i) => NamedNumbers {
                kind: Named::TYPE_ETYPE,
                entry: i,
            },
            Named::FiletypeEntry(i) => NamedNumbers {
                kind: Named::TYPE_FILETYPE,
                entry: i,
            },
        }
    }
}

// For our own crates.
impl Refused {
    // A refusal that names nothing.
    pub fn unnamed(refusal: Refusal) -> Refused
        ensures { result ≡ refused_as refusal Nothing }
    {
        Refused {
            refusal: refusal,
            named: Named::Nothing,
        }
    }

    // A refusal that names an entry of the etype.
    pub fn of_etype(refusal: Refusal, entry: usize) -> Refused
        ensures { result ≡ refused_as refusal (EtypeEntry entry) }
    {
        Refused {
            refusal: refusal,
            named: Named::EtypeEntry(entry as u64),
        }
    }

    // A refusal that names an entry of the filetype.
    pub fn of_filetype(refusal: Refusal, entry: usize) -> Refused
        ensures { result ≡ refused_as refusal (FiletypeEntry entry) }
    {
        Refused {
            refusal: refusal,
            named: Named::FiletypeEntry(entry as u64),
        }
    }
}
