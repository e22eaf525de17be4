//! Replays a recorded trace (docs/trace.md): reads the file that its argument names, piece by piece, and prints a line for each record.
//! Its buffers are arrays: each has a greatest length, and a Vec could run out of memory.
#![tactic(auto)]

mod error;
mod line;

ghost use Rattle.std.specs.Prelude.{◌≡◌, ◌+◌, ◌≤◌};

use error::Failure;
use replay_record::{FILE_BYTES, Replay};
use replay_run::{Ending, LINE_NUMBERS};
use std::env::FillError;
use std::fs::File;
use std::io::{ErrorKind, Print, Read};
use std::rt::{Env, Files};
use std::{io, str};

// The program's own name and the trace's.
const ARGUMENTS: usize = 2;

// The longest name of a trace.
const NAME_BYTES: usize = 4096;

// How many bytes of the trace are held at a time: more than the longest record, of 65,538 bytes, so that a full window has a whole one.
const WINDOW_BYTES: usize = 131072;

// At most this many turns are made. Each goes on in the trace by at most a window, so that every place in it is below 2^64.
const MOST_TURNS: u64 = 140737488355327;

// The most lines of a run, and how many numbers they have.
const MOST_LINES: usize = 1024;

const MOST_NUMBERS: usize = MOST_LINES * LINE_NUMBERS;

// What the next turn does: a read, or a run over what is read; or the replay is over.
#[derive(Clone, Copy)]
enum Next {
    Read,
    Run,
    Over,
}

// The part of the trace that is held: from `start` to `end` it has bytes that are read and not replayed. The trace ends with them where `last` says so, and has `place` bytes before them.
#[derive(Drop)]
struct Window {
    held: [u8; WINDOW_BYTES],
    start: usize,
    end: usize,
    last: bool,
    place: u64,
    ghost filled: { start ≤ end },
    ghost fits: { end ≤ 131072 },
}

impl Window {
    // Nothing is read yet.
    fn new() -> Window
        ensures { result.place ≡ 0 }
    {
        Window {
            held: [0; WINDOW_BYTES],
            start: 0,
            end: 0,
            last: false,
            place: 0,
        }
    }

    // Reads once, behind the bytes that are not replayed, which go to the front. A read that a signal interrupts is made again by the next turn.
    fn read(&mut self, file: &mut impl Read) -> Result<Next, Failure>
        ensures { self.new.place ≡ self.old.place }
    {
        self.held.copy_within(self.start..self.end, 0);
        self.end -= self.start;
        self.start = 0;
        // A run that neither ends with the trace nor takes a record of a full window has counted 2^64 - 1 records.
        if self.last || self.end == WINDOW_BYTES {
            return Err(Failure::TooLong);
        }
        match file.read(&mut self.held[self.end..]) {
            Ok(got) => {
                self.last = got == 0;
                self.end += got;
                Ok(Next::Run)
            }
            Err(e) if e.kind() == ErrorKind::Interrupted => Ok(Next::Read),
            Err(e) => Err(Failure::Trace(e)),
        }
    }
}

// Replays what is read and prints its lines, and that of a stop. Where the lines fill the list, whole records may be left; else the next turn reads.
fn run(
    rt: &impl Print,
    window: &mut Window,
    state: &mut Replay,
    bytes: &mut [u8; FILE_BYTES],
    list: &mut [u64; MOST_NUMBERS],
) -> Result<Next, Failure>
    requires { window.old.place + 131072 ≤ 18446744073709551615 }
    ensures { window.new.place ≤ window.old.place + 131072 }
{
    let unread = &window.held[window.start..window.end];
    let r = replay_run::run(*state, unread, window.last, bytes, list);
    *state = r.state;
    window.start += r.at;
    window.place += r.at as u64;
    line::print_lines(rt, &list[..LINE_NUMBERS * r.lines]).map_err(Failure::Output)?;
    match r.ending {
        Ending::Later if r.lines < MOST_LINES => Ok(Next::Read),
        Ending::Later => Ok(Next::Run),
        Ending::Complete => Ok(Next::Over),
        Ending::Stopped => {
            line::print_stop(rt, window.place).map_err(Failure::Output)?;
            Ok(Next::Over)
        }
    }
}

// Replays the trace in the file of this name, turn by turn.
fn replay_file(rt: &(impl Print + Files), name: &str) -> Result<(), Failure> {
    let mut file = File::open(rt, name).map_err(Failure::Trace)?;
    let mut window = Window::new();
    let mut state = Replay::new();
    let mut bytes = [0; FILE_BYTES];
    let mut list = [0; MOST_NUMBERS];
    let mut next = Next::Read;
    for _ in 0..MOST_TURNS {
        next = match next {
            Next::Read => window.read(&mut file)?,
            Next::Run => run(rt, &mut window, &mut state, &mut bytes, &mut list)?,
            Next::Over => break,
        };
    }
    match next {
        Next::Over => Ok(()),
        _ => Err(Failure::TooLong),
    }
}

// Whether argument `i` is there. Nothing of it is copied.
fn has_argument(rt: &impl Env, i: usize) -> bool {
    !matches!(rt.arg(i, &mut []), Err(FillError::NotPresent))
}

fn main(rt: HostRuntime) {
    if !has_argument(&rt, 1) || has_argument(&rt, ARGUMENTS) {
        error::usage(&rt);
        return;
    }
    let mut name = [0u8; NAME_BYTES];
    let Ok(length) = rt.arg(1, &mut name) else {
        error::fail(
            &rt,
            "the trace's name",
            io::Error::other("File name too long"),
        );
        return;
    };
    let Ok(name) = str::from_utf8(&name[..length]) else {
        error::fail(&rt, "the trace's name", io::Error::other("it is not UTF-8"));
        return;
    };
    if let Err(failure) = replay_file(&rt, name) {
        failure.say(&rt, name);
    }
}
