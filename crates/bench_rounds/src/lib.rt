//! Reads and writes in rounds, for a host program that measures them: a handle is opened, a view set, and the same access made again and again at one explicit offset.
//! The view comes as the body of a record of a set (docs/conformance.md, tag 36; the first number is not looked at), and the answer is the refusal number of the set or of the access that ended the rounds, 0 if all were granted.
#![tactic(auto)]

ghost use Rattle.std.specs.Prelude.{◌≡◌};
ghost use Rattle.bench_rounds.specs.Parts.{body_set, after_set, read_rounds, write_rounds, Left};

use file::{AccessAnswer, FileRecord, Handle, SetViewAnswer};
use view::Offset;

// Opens a handle with mode 3 and sets the view that the body describes.
#[tactic(auto, unfolding(crate::specs::Parts::body_set))]
fn set_view(view: &[u8]) -> SetViewAnswer
    ensures { result ≡ body_set view.now }
{
    set_record::set_view(Handle::open(Handle::MODE_BOTH).handle, view)
}

// What the set leaves to the first round, as the answer of a round before it: a handle with the view set and a file record of this size.
#[tactic(auto, unfolding(crate::specs::Parts::after_set))]
fn begin(view: &[u8], size: u64) -> AccessAnswer
    ensures { result ≡ after_set view.now size }
{
    let set = set_view(view);
    AccessAnswer {
        refusal: set.refusal,
        count: set.count,
        handle: set.handle,
        file: FileRecord { size: size },
    }
}

// Reads `count` etypes at `offset` into the buffer, `rounds` times.
// Numbers and lists come one by one, and the refusal is a number: the C interface has no structs and no enums of ours.
// Its loop and that of the writes stand apart: one lends the buffer to be written, the other the file, and one loop over a closure or a trait takes more lines than the two.
#[unsafe(no_mangle)]
pub extern "C" fn glyphbirch_read_rounds(
    view: &[u8],
    file: &[u8],
    size: u64,
    offset: i64,
    count: u64,
    rounds: u64,
    buf: &mut [u8],
) -> u64
    ensures { Left (read_rounds view.now file.now size offset count rounds buf.old) result buf.new }
{
    let mut last_read = begin(view, size);
    for _ in 0..rounds {
        if last_read.refusal != 0 {
            break;
        }
        last_read = last_read
            .handle
            .read_at(file, last_read.file, Offset(offset), count, buf);
    }
    last_read.refusal
}

// Writes `count` etypes of the buffer at `offset`, `rounds` times.
#[unsafe(no_mangle)]
pub extern "C" fn glyphbirch_write_rounds(
    view: &[u8],
    file: &mut [u8],
    size: u64,
    offset: i64,
    count: u64,
    rounds: u64,
    buf: &[u8],
) -> u64
    ensures { Left (write_rounds view.now file.old size offset count rounds buf.now) result file.new }
{
    let mut last_write = begin(view, size);
    for _ in 0..rounds {
        if last_write.refusal != 0 {
            break;
        }
        last_write = last_write
            .handle
            .write_at(file, last_write.file, Offset(offset), count, buf);
    }
    last_write.refusal
}
