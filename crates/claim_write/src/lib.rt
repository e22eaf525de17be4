//! Demand 3, as document 01 words it: claims about a call or two, each as a function that makes the calls and whose contract is the claim, for all inputs.
#![tactic(auto)]

ghost use Rattle.claim_write.specs.Owners.{LookedUp};
ghost use Rattle.claim_write.specs.Writes.{TwoWrites, ReadBack};

use claim_calls::DataAccess;
use file::{AccessAnswer, Handle, ReverseAnswer};
use view::BytePos;

// Looks up a byte: the pair that it belongs to, or none exactly when there is none.
pub fn look_up(handle: Handle, byte: BytePos) -> ReverseAnswer
    ensures { LookedUp handle byte.0 result }
{
    handle.reverse(byte)
}

#[derive(Clone, Copy)]
pub struct TwoWritten {
    pub first: AccessAnswer,
    pub second: AccessAnswer,
}

// Makes two writes, each on a file of its own: on equal files, with the same view, offset and count, the files differ afterwards exactly where the counted data do.
pub fn two_writes(
    first: DataAccess,
    file: &mut [u8],
    buf: &[u8],
    second: DataAccess,
    other: &mut [u8],
    more: &[u8],
) -> TwoWritten
    ensures { TwoWrites first second file.old file.new buf.now other.old other.new more.now result }
{
    let done = first.write(file, buf);
    let again = second.write(other, more);
    TwoWritten {
        first: done,
        second: again,
    }
}

#[derive(Clone, Copy)]
pub struct WrittenRead {
    pub written: AccessAnswer,
    pub read: AccessAnswer,
}

// Writes, and reads with the write's offset and count through the handle that the write gave back, on the file as it left it: the data come back.
pub fn write_then_read(w: DataAccess, file: &mut [u8], buf: &[u8], into: &mut [u8]) -> WrittenRead
    ensures { ReadBack w file.old file.new buf.now into.old into.new result }
{
    let written = w.write(file, buf);
    let handle = written.handle;
    let rec = written.file;
    let read = handle.read_at(file, rec, w.offset(), w.count, into);
    WrittenRead {
        written: written,
        read: read,
    }
}
