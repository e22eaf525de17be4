//! One record of a trace (docs/trace.md): from the handle, the file and the number of records so far, with a tag and a body, to the five numbers of a line and the next state.
//! Its buffers are arrays of the greatest length: no library here allocates.
#![tactic(auto)]

ghost use Rattle.std.specs.Prelude.{cond, ◌≡◌, ◌≢◌, List, ℕ, ◌+◌, ◌<◌, length, drop, MatchOption};
ghost use Rattle.tagged_fields.specs.Numbers.{number_at};
ghost use Rattle.replay_record.specs.Records.{record_in, open_in, set_in, seek_in, read_in, write_in, check_in, begin_in, begin_good};
ghost use Rattle.replay_record.specs.Steps.{at_first, stands_at, answered, called, Replayed};
ghost use Rattle.replay_record.specs.Parts.{CallMade};

use claim_calls::{Begin, DataAccess};
use file::{FileRecord, Handle};
use view::{BytePos, Offset};

// What a replay holds beside the file's bytes: the handle, the file record, and how many records it has replayed.
#[derive(Clone, Copy)]
pub struct Replay {
    pub handle: Handle,
    pub file: FileRecord,
    pub number: u64,
}

// The numbers of a printed line. The answer is 0 if granted.
// The answer is a number: the trace's line prints it, and `called` states it so; 25 is no refusal of a call.
#[derive(Clone, Copy)]
pub struct Line {
    pub number: u64,
    pub answer: u64,
    pub count: u64,
    pub pointer: u64,
    pub size: u64,
}

// What a good record gives: its line, and the state after it.
#[derive(Clone, Copy)]
pub struct Step {
    pub line: Line,
    pub next: Replay,
}

// What a good record answers, and the handle and the file record after it.
// `called` is stated of this type; the refusal of an AccessAnswer is never 25.
#[derive(Clone, Copy)]
struct Answer {
    answer: u64,
    count: u64,
    handle: Handle,
    file: FileRecord,
}

// The tags.
// Tags and begins are numbers: `record_in` takes any, and one match both reads them and says what is called.
const OPEN: u8 = 1;

const SET_VIEW: u8 = 2;

const SEEK: u8 = 3;

const READ: u8 = 4;

const WRITE: u8 = 5;

const CHECK: u8 = 6;

// How long a body is, or its numbers are, where bytes follow them.
const OPEN_BYTES: usize = 8;

const SEEK_BYTES: usize = 16;

const READ_BYTES: usize = 24;

const WRITE_BYTES: usize = 32;

const CHECK_BYTES: usize = 16;

// Where an access begins: at the pointer, or at an explicit offset.
const AT_POINTER: u64 = 0;

const AT_OFFSET: u64 = 1;

// The answer of a check whose bytes do not stand there.
pub const CHECK_FAILED: u64 = 25;

// A mode that every open refuses.
const MODE_REFUSED: u64 = 4;

// How long the replayed file is, and the buffer of a read.
pub const FILE_BYTES: usize = 32768;

// A good record's answer.
fn answered(answer: u64, count: u64, handle: Handle, rec: FileRecord) -> Answer
    ensures { result ≡ answered answer count handle rec }
{
    Answer {
        answer,
        count,
        handle,
        file: rec,
    }
}

// Where an access begins, if its body says so.
#[tactic(auto, unfolding(crate::specs::Records::begin_good, crate::specs::Records::begin_in, tagged_fields::specs::Numbers::signed_at))]
fn begin_in(body: &[u8]) -> Option<Begin>
    ensures { result ≡ cond (begin_good body.now) (Some (begin_in body.now)) None }
{
    match (
        tagged_fields::number(body, 0),
        tagged_fields::number(body, 1),
    ) {
        (AT_POINTER, 0) => Some(Begin::Pointer),
        (AT_OFFSET, bits) => Some(Begin::Explicit(Offset(tagged_fields::signed(bits)))),
        _ => None,
    }
}

// What follows the first `numbers` bytes of a body, if it is as many bytes as number `i` says.
fn following(body: &[u8], numbers: usize, i: usize) -> Option<&[u8]>
    ensures { MatchOption result (length body.now ≢ numbers + number_at body.now i) (λ rest. (length body.now ≡ numbers + number_at body.now i) × (rest.now ≡ drop numbers body.now)) }
{
    let rest = body.get(numbers..)?;
    if tagged_fields::number(body, i) == rest.len() as u64 {
        Some(rest)
    } else {
        None
    }
}

// Whether the bytes stand in the file from a place on.
fn stands(bytes: &[u8], place: BytePos, range: &[u8]) -> bool
    ensures { result ≡ stands_at bytes.now place.0 range.now }
{
    match bytes.get(place.0 as usize..) {
        Some(rest) => rest.starts_with(range),
        None => false,
    }
}

// The answer of a check.
fn check_answer(bytes: &[u8], place: BytePos, range: &[u8]) -> u64
    ensures { result ≡ cond (stands_at bytes.now place.0 range.now) 0 25 }
{
    if stands(bytes, place, range) {
        0
    } else {
        CHECK_FAILED
    }
}

// A tag's function is handed the body, and the file's bytes where it needs them; a struct of both and the state would be made only to be taken apart again.
#[tactic(auto, unfolding(crate::specs::Records::if_good, crate::specs::Records::open_in, crate::specs::Records::set_in, crate::specs::Records::seek_in, crate::specs::Records::read_in, crate::specs::Records::write_in, crate::specs::Records::check_in, crate::specs::Records::record_in, crate::specs::Steps::at_first, crate::specs::Steps::called, crate::specs::Steps::bytes_after, crate::specs::Steps::stepped, crate::specs::Steps::line_of, crate::specs::Steps::next_of, claim_calls::specs::Offsets::offset_of, laws::proofs::Prelude::also))]
impl Replay {
    // Before the first record: the handle of a refused open, and a file of size 0.
    pub fn new() -> Replay
        ensures { result ≡ at_first }
    {
        Replay {
            handle: Handle::open(MODE_REFUSED).handle,
            file: FileRecord::of_size(0),
            number: 0,
        }
    }

    // Tag 1. The handle is replaced, by a refused open's too.
    fn open(self, body: &[u8]) -> Option<Answer>
        ensures { (bytes : List ℕ) → result ≡ called self bytes (open_in body.now) }
    {
        if body.len() != OPEN_BYTES {
            return None;
        }
        let opened = Handle::open(tagged_fields::number(body, 0));
        Some(answered(opened.refusal, opened.count, opened.handle, self.file))
    }

    // Tag 2.
    fn set_view(self, body: &[u8]) -> Option<Answer>
        ensures { (bytes : List ℕ) → result ≡ called self bytes (set_in body.now) }
    {
        following(body, set_record::lists_end(body), 0)?;
        let a = set_record::set_view(self.handle, body);
        Some(answered(a.refusal, a.count, a.handle, self.file))
    }

    // Tag 3.
    fn seek(self, body: &[u8], bytes: &[u8]) -> Option<Answer>
        ensures { result ≡ called self bytes.now (seek_in body.now) }
    {
        if body.len() != SEEK_BYTES {
            return None;
        }
        let by = tagged_fields::signed_at(body, 0);
        let whence = tagged_fields::number(body, 1);
        let a = self.handle.seek(bytes, self.file, by, whence);
        Some(answered(a.refusal, a.count, a.handle, a.file))
    }

    // Tag 4.
    fn read(self, body: &[u8], bytes: &[u8]) -> Option<Answer>
        ensures { result ≡ called self bytes.now (read_in body.now) }
    {
        if body.len() != READ_BYTES {
            return None;
        }
        let access = DataAccess {
            handle: self.handle,
            file: self.file,
            begin: begin_in(body)?,
            count: tagged_fields::number(body, 2),
        };
        let mut buf = [0u8; FILE_BYTES];
        let a = access.read(bytes, &mut buf);
        Some(answered(a.refusal, a.count, a.handle, a.file))
    }

    // Tag 5.
    fn write(self, body: &[u8], bytes: &mut [u8]) -> Option<Answer>
        ensures { CallMade self bytes.old bytes.new (write_in body.now) result }
    {
        let buf = following(body, WRITE_BYTES, 3)?;
        let access = DataAccess {
            handle: self.handle,
            file: self.file,
            begin: begin_in(body)?,
            count: tagged_fields::number(body, 2),
        };
        let a = access.write(bytes, buf);
        Some(answered(a.refusal, a.count, a.handle, a.file))
    }

    // Tag 6. The handle is not looked at.
    fn check(self, body: &[u8], bytes: &[u8]) -> Option<Answer>
        ensures { result ≡ called self bytes.now (check_in body.now) }
    {
        let range = following(body, CHECK_BYTES, 1)?;
        let place = BytePos(tagged_fields::number(body, 0));
        let answer = check_answer(bytes, place, range);
        Some(answered(answer, 0, self.handle, self.file))
    }

    // What a tag and a body ask for; nothing is called for an unknown tag or a bad body.
    fn call(self, tag: u8, body: &[u8], bytes: &mut [u8]) -> Option<Answer>
        ensures { CallMade self bytes.old bytes.new (record_in tag body.now) result }
    {
        match tag {
            OPEN => self.open(body),
            SET_VIEW => self.set_view(body),
            SEEK => self.seek(body, bytes),
            READ => self.read(body, bytes),
            WRITE => self.write(body, bytes),
            CHECK => self.check(body, bytes),
            _ => None,
        }
    }

    // One record, if tag and body are good. For our own crates: the number is below the largest.
    pub fn step(self, tag: u8, body: &[u8], bytes: &mut [u8]) -> Option<Step>
        requires { self.number < 18446744073709551615 }
        ensures { Replayed self bytes.old bytes.new (record_in tag body.now) result }
    {
        let a = self.call(tag, body, bytes)?;
        let number = self.number + 1;
        Some(Step {
            line: Line {
                number,
                answer: a.answer,
                count: a.count,
                pointer: a.handle.pointer,
                size: a.file.size,
            },
            next: Replay {
                handle: a.handle,
                file: a.file,
                number,
            },
        })
    }
}
