// Reading and writing, each at an explicit offset or at the pointer: four calls with a contract each, which differ in offset, in what is lent to be written and in the pointer.
ghost use Rattle.std.specs.Prelude.{◌≡◌};
ghost use Rattle.view.specs.Parts.{refusal_number};
ghost use Rattle.file.specs.Parts.{ReadAt, ReadNext, WriteAt, WriteNext, access_refused};

use crate::{AccessAnswer, Handle};
use handle::{Access, FileRecord};
use view::{Offset, Refusal};

// A refused access: handle and record come back as they came.
fn access_refused(refusal: Refusal, handle: Handle, rec: FileRecord) -> AccessAnswer
    ensures { result ≡ access_refused (refusal_number refusal) handle rec }
{
    AccessAnswer {
        refusal: refusal.number(),
        count: 0,
        handle: handle,
        file: rec,
    }
}

impl Handle {
    // Reads `count` etypes at offset `o` into the buffer; a read that reaches past the size moves fewer. The pointer stays.
    pub fn read_at(
        self,
        file: &[u8],
        rec: FileRecord,
        o: Offset,
        count: u64,
        buf: &mut [u8],
    ) -> AccessAnswer
        ensures { ReadAt self file.now rec o.0 count buf.old buf.new result }
    {
        let access = Access {
            offset: o,
            count: count,
        };
        match call_access::read(self.lent(), file, rec, access, buf) {
            Ok(moved) => AccessAnswer {
                refusal: 0,
                count: moved,
                handle: self,
                file: rec,
            },
            Err(refusal) => access_refused(refusal, self, rec),
        }
    }

    // Reads `count` etypes at the pointer and raises it by the number moved.
    pub fn read(mut self, file: &[u8], rec: FileRecord, count: u64, buf: &mut [u8]) -> AccessAnswer
        ensures { ReadNext self file.now rec count buf.old buf.new result }
    {
        let access = Access {
            offset: self.pointer_offset(),
            count: count,
        };
        match call_access::read(self.lent(), file, rec, access, buf) {
            Ok(moved) => {
                self.pointer = self.pointer + moved;
                AccessAnswer {
                    refusal: 0,
                    count: moved,
                    handle: self,
                    file: rec,
                }
            }
            Err(refusal) => access_refused(refusal, self, rec),
        }
    }

    // Writes `count` etypes of the buffer at offset `o`: the file grows to the end of the highest byte, and the gap gets zeros. The pointer stays.
    pub fn write_at(
        self,
        file: &mut [u8],
        rec: FileRecord,
        o: Offset,
        count: u64,
        buf: &[u8],
    ) -> AccessAnswer
        ensures { WriteAt self file.old file.new rec o.0 count buf.now result }
    {
        let access = Access {
            offset: o,
            count: count,
        };
        match call_access::write(self.lent(), file, rec, access, buf) {
            Ok(written) => AccessAnswer {
                refusal: 0,
                count: written.count,
                handle: self,
                file: written.file,
            },
            Err(refusal) => access_refused(refusal, self, rec),
        }
    }

    // Writes `count` etypes of the buffer at the pointer and raises it by as many.
    pub fn write(mut self, file: &mut [u8], rec: FileRecord, count: u64, buf: &[u8]) -> AccessAnswer
        ensures { WriteNext self file.old file.new rec count buf.now result }
    {
        let access = Access {
            offset: self.pointer_offset(),
            count: count,
        };
        match call_access::write(self.lent(), file, rec, access, buf) {
            Ok(written) => {
                self.pointer = self.pointer + written.count;
                AccessAnswer {
                    refusal: 0,
                    count: written.count,
                    handle: self,
                    file: written.file,
                }
            }
            Err(refused) => access_refused(refused, self, rec),
        }
    }
}
