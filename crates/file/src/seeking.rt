// The individual file pointer: seek.
ghost use Rattle.std.specs.Prelude.{◌≡◌, length};
ghost use Rattle.view.specs.Parts.{refusal_number};
ghost use Rattle.file.specs.Parts.{pointer_offset, seek_refused, seek_answer};

use crate::{Handle, SeekAnswer};
use handle::{FileNumbers, FileRecord};
use view::{Offset, Refusal};

// A refused seek: handle and record come back as they came.
fn seek_refused(refusal: Refusal, handle: Handle, rec: FileRecord) -> SeekAnswer
    ensures { result ≡ seek_refused (refusal_number refusal) handle rec }
{
    SeekAnswer {
        refusal: refusal.number(),
        count: 0,
        handle: handle,
        file: rec,
    }
}

impl Handle {
    // The pointer as an offset; 0 for a pointer that check 1 refuses. For our own crates.
    pub fn pointer_offset(self) -> Offset
        ensures { result.0 ≡ pointer_offset self }
    {
        if Handle::MAX_POINTER < self.pointer {
            return Offset(0);
        }
        view::to_offset(self.pointer)
    }

    // Moves the pointer: `by`, which may be negative, is added to nothing, to the pointer or to the end of file.
    pub fn seek(mut self, file: &[u8], rec: FileRecord, by: i64, whence: u64) -> SeekAnswer
        ensures { result ≡ seek_answer self (length file.now) rec by whence }
    {
        let f = FileNumbers {
            length: file.len() as u64,
            record: rec,
        };
        match call_query::seek(self.lent(), f, by, whence) {
            Ok(pointer) => {
                self.pointer = pointer;
                SeekAnswer {
                    refusal: 0,
                    count: 0,
                    handle: self,
                    file: rec,
                }
            }
            Err(refusal) => seek_refused(refusal, self, rec),
        }
    }
}
