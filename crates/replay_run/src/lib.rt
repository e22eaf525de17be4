//! A trace, record after record (docs/trace.md), over windows of it: the lines' numbers go into a lent list, and the answer says where to go on.
#![tactic(auto)]

ghost use Rattle.std.specs.Prelude.{cond, ◌≡◌, ◌+◌, ◌≤◌, length};
ghost use Rattle.laws.specs.Lists.{nth};
ghost use Rattle.laws.specs.Parts.{store};
ghost use Rattle.replay_run.specs.Traces.{numbers_of};
ghost use Rattle.replay_run.specs.Parts.{position, TurnMade, RunMade};

use replay_record::{Line, Replay};
use tagged_fields::Field;

// How a run over a window ends: more of the trace or more room for lines is needed; the trace ended after a whole record; or a record is cut short, of unknown tag or has a bad body.
#[derive(Clone, Copy)]
pub enum Ending {
    Later,
    Complete,
    Stopped,
}

// What a run answers: how it ended, the place in the window of the record that it did not replay, how many lines it wrote, and the state to go on with.
#[derive(Clone, Copy)]
pub struct RunAnswer {
    pub ending: Ending,
    pub at: usize,
    pub lines: usize,
    pub state: Replay,
}

// What one turn gives that replays a record: its line, and the state and the place after it.
#[derive(Clone, Copy)]
struct Turn {
    line: Line,
    next: Replay,
    at: usize,
}

// How many numbers a line has.
pub const LINE_NUMBERS: usize = 5;

// The last number that a record can have.
const LAST_NUMBER: u64 = u64::MAX;

// How the run ends where no whole record stands: only the end of the trace is an end.
fn ended(last: bool, then: Ending) -> Ending
    ensures { result ≡ cond last then Ending.Later }
{
    if last { then } else { Ending::Later }
}

// Replays the record at a place of the window, or says how the run ends there.
#[tactic(auto, using(crate::proofs::Turning::record_within), unfolding(crate::specs::Parts::turn_of, crate::specs::Parts::turn_bytes, crate::specs::Parts::field_turn, crate::specs::Parts::field_bytes, crate::specs::Parts::step_turn))]
fn make_turn(
    state: Replay,
    window: &[u8],
    at: usize,
    last: bool,
    bytes: &mut [u8],
) -> Result<Turn, Ending>
    ensures { TurnMade last window.now state bytes.old bytes.new at result }
{
    if state.number == LAST_NUMBER {
        return Err(Ending::Later);
    }
    match tagged_fields::field_at(window, at) {
        Field::End => Err(ended(last, Ending::Complete)),
        Field::Cut => Err(ended(last, Ending::Stopped)),
        Field::Whole { tag, start, length } => {
            let end = start + length;
            let Some(step) = state.step(tag, &window[start..end], bytes) else {
                return Err(Ending::Stopped);
            };
            Ok(Turn {
                line: step.line,
                next: step.next,
                at: end,
            })
        }
    }
}

// Puts the five numbers of a line into the list from a place on.
fn put_line(list: &mut [u64], at: usize, line: Line)
    requires { at + 5 ≤ length list.old }
    ensures { list.new ≡ store (λ k. at + k) (nth (numbers_of line)) 5 list.old }
{
    list[at..at + LINE_NUMBERS].copy_from_slice(&[
        line.number,
        line.answer,
        line.count,
        line.pointer,
        line.size,
    ]);
}

// Replays the records of a window in order and puts the numbers of their lines at the front of the list. `last` says that the window ends the trace.
// The run ends where the list has no room for a line, where the window has no whole record left, or at a record that ends the replay.
// Numbers and no Lines, with a count beside: `InPieces` takes the first 5·lines of the list.
pub fn run(
    state: Replay,
    window: &[u8],
    last: bool,
    bytes: &mut [u8],
    list: &mut [u64],
) -> RunAnswer
    ensures { RunMade last window.now (position state bytes.old 0) bytes.new list.old list.new result }
{
    let room = list.len() / LINE_NUMBERS;
    let mut current = state;
    let mut at = 0;
    for lines in 0..room {
        match make_turn(current, window, at, last, bytes) {
            Ok(turn) => {
                put_line(list, LINE_NUMBERS * lines, turn.line);
                current = turn.next;
                at = turn.at;
            }
            Err(ending) => {
                return RunAnswer {
                    ending,
                    at,
                    lines,
                    state: current,
                };
            }
        }
    }
    RunAnswer {
        ending: Ending::Later,
        at,
        lines: room,
        state: current,
    }
}
