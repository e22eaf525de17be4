// What is said on standard error: one line, after which nothing more is printed. Where that cannot be written either, nobody is left to tell.
use std::alloc::AllocGlobal;
use std::io;
use std::io::{Eprint, ErrorKind};

// What stands between the reason that the system gives and its number.
const NUMBER: &str = " (os error ";

// Why a replay ends before its trace does: the trace cannot be read, or is longer than a replay can count, or its lines cannot be written.
// No Display: a broken pipe says nothing, and a system's error is printed without its number.
#[derive(Drop)]
pub enum Failure {
    Trace(io::Error),
    TooLong,
    Output(io::Error),
}

// Says how the program is called.
pub fn usage(rt: &impl Eprint) {
    let _ = eprintln!(rt; "replay: usage: replay TRACE");
}

// The reason in an error's text, without its number.
fn reason(text: &str) -> &str {
    match text.split_once(NUMBER) {
        Some((words, _)) => words,
        None => text,
    }
}

// Says what failed, with the reason that the system gives.
pub fn fail(rt: &(impl Eprint + AllocGlobal), what: &str, error: io::Error) {
    let _ = match error.to_string(rt.alloc()) {
        Ok(text) => eprintln!(rt; "replay: {what}: {}", reason(text.as_str())),
        Err(_) => eprintln!(rt; "replay: {what}: {error}"),
    };
}

impl Failure {
    // Says why the replay of the trace of this name ended, but for a pipe that nobody reads any more.
    pub fn say(self, rt: &(impl Eprint + AllocGlobal), name: &str) {
        match self {
            Failure::Trace(error) => fail(rt, name, error),
            Failure::TooLong => {
                let _ = eprintln!(rt; "replay: {name}: the trace is too long");
            }
            Failure::Output(error) => {
                if error.kind() != ErrorKind::BrokenPipe {
                    fail(rt, "standard output", error);
                }
            }
        }
    }
}
