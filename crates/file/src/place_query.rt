// Where things lie in a handle's view: document 01's place query, reverse lookup and end of file. Each arm writes its answer whole, so that a refused one is read at sight.
ghost use Rattle.std.specs.Prelude.{◌≡◌, length};
ghost use Rattle.file.specs.Parts.{byte_offset_answer, reverse_answer, end_answer};

use crate::{ByteOffsetAnswer, EndAnswer, Handle, ReverseAnswer};
use handle::{FileNumbers, FileRecord};
use view::{BytePos, Offset};

impl Handle {
    // Document 01's place query: the byte at which the etype at an offset begins.
    pub fn byte_offset(self, o: Offset) -> ByteOffsetAnswer
        ensures { result ≡ byte_offset_answer self o.0 }
    {
        match call_query::byte_offset(self.lent(), o) {
            Ok(place) => ByteOffsetAnswer {
                refusal: 0,
                count: 0,
                handle: self,
                place: place,
            },
            Err(refusal) => ByteOffsetAnswer {
                refusal: refusal.number(),
                count: 0,
                handle: self,
                place: BytePos(0),
            },
        }
    }

    // Document 01's reverse lookup: the pair of offset and index in the packed data that a file byte belongs to, or none; the byte is any number, past the file's length too.
    pub fn reverse(self, byte: BytePos) -> ReverseAnswer
        ensures { result ≡ reverse_answer self byte.0 }
    {
        match call_query::reverse(self.lent(), byte) {
            Ok(owner) => ReverseAnswer {
                refusal: 0,
                count: 0,
                handle: self,
                owner: owner,
            },
            Err(refusal) => ReverseAnswer {
                refusal: refusal.number(),
                count: 0,
                handle: self,
                owner: None,
            },
        }
    }

    // Document 01's end of file, in etypes: the smallest offset such that no etype at it or later begins below the size.
    pub fn end(self, file: &[u8], rec: FileRecord) -> EndAnswer
        ensures { result ≡ end_answer self (length file.now) rec }
    {
        let f = FileNumbers {
            length: file.len() as u64,
            record: rec,
        };
        match call_query::end(self.lent(), f) {
            Ok(end) => EndAnswer {
                refusal: 0,
                count: 0,
                handle: self,
                file: rec,
                end: end,
            },
            Err(refusal) => EndAnswer {
                refusal: refusal.number(),
                count: 0,
                handle: self,
                file: rec,
                end: Offset(0),
            },
        }
    }
}
