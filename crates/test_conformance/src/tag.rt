// The tags of a script's records (docs/conformance.md).

// Each is numbered as in the script.
#[derive(Clone, Copy, Debug, PartialEq, Eq)]
pub enum Tag {
    File = 32,
    FileRecord = 33,
    Forged = 34,
    Open = 35,
    Set = 36,
    GetView = 37,
    ByteOffset = 38,
    End = 39,
    Seek = 40,
    ReadAt = 41,
    Read = 42,
    WriteAt = 43,
    Write = 44,
    Reverse = 45,
    Recipe = 46,
    SetFromRecipes = 47,
}

// A byte that is the tag of no record.
#[derive(Clone, Copy, Debug, PartialEq, Eq)]
pub struct UnknownTag;

impl TryFrom<u8> for Tag {
    type Error = UnknownTag;

    fn try_from(byte: u8) -> Result<Tag, UnknownTag> {
        Ok(match byte {
            32 => Tag::File,
            33 => Tag::FileRecord,
            34 => Tag::Forged,
            35 => Tag::Open,
            36 => Tag::Set,
            37 => Tag::GetView,
            38 => Tag::ByteOffset,
            39 => Tag::End,
            40 => Tag::Seek,
            41 => Tag::ReadAt,
            42 => Tag::Read,
            43 => Tag::WriteAt,
            44 => Tag::Write,
            45 => Tag::Reverse,
            46 => Tag::Recipe,
            47 => Tag::SetFromRecipes,
            _ => return Err(UnknownTag),
        })
    }
}
