//! The conformance driver: reads a script from standard input, makes its calls in order and prints a line a record (docs/conformance.md).
//! Its buffers are arrays: a Vec could run out of memory, for which a line has no number.
#![tactic(auto)]

mod body;
mod driver;
mod line;
mod recipes;
mod record;
mod tag;

use body::Body;
use driver::{Driver, Record};
use std::io;
use std::io::{ErrorKind, Input, Read, Write};
use tag::Tag;
use tagged_fields::Field;

// At most this many records are taken.
const MOST_RECORDS: u64 = 1000000;

// The longest body, as two bytes can count.
const LONGEST_BODY: usize = 65535;

// What a script has at a place: a record; one that is cut short or of another tag; or no byte more.
enum Next<'a> {
    Whole(Record<'a>),
    Stop,
    End,
}

// Reads as many bytes as a buffer has, and answers whether the input had them.
fn fills(input: &mut impl Read, buf: &mut [u8]) -> io::Result<bool> {
    match input.read_exact(buf) {
        Ok(()) => Ok(true),
        Err(e) if e.kind() == ErrorKind::UnexpectedEof => Ok(false),
        Err(e) => Err(e),
    }
}

// Reads a record, and its body to the front of `buf`.
fn read_record<'a>(input: &mut impl Read, buf: &'a mut [u8; LONGEST_BODY]) -> io::Result<Next<'a>> {
    // One read asks for the whole header: an input that keeps the bounds of messages may hold it in one.
    let mut header = [0; Field::HEADER_BYTES];
    let got = input.read(&mut header)?;
    if got == 0 {
        return Ok(Next::End);
    }
    if !fills(input, &mut header[got..])? {
        return Ok(Next::Stop);
    }
    let [tag, low, high] = header;
    let bytes = &mut buf[..usize::from(u16::from_le_bytes([low, high]))];
    if !fills(input, bytes)? {
        return Ok(Next::Stop);
    }
    let Ok(tag) = Tag::try_from(tag) else {
        return Ok(Next::Stop);
    };
    let body = Body { bytes };
    Ok(Next::Whole(Record { tag, body }))
}

// Makes the calls of a script and prints their lines. A record that is no whole one ends the run, with its byte place.
fn run(input: &mut impl Read, out: &mut impl Write) -> io::Result<()> {
    let mut driver = Driver::new();
    let mut buf = [0; LONGEST_BODY];
    let mut place = 0;
    for _i in 0..MOST_RECORDS {
        match read_record(input, &mut buf)? {
            Next::Whole(record) => {
                place += (Field::HEADER_BYTES + record.body.bytes.len()) as u64;
                let line = driver.step(record);
                writeln!(out, "{line}")?;
            }
            Next::Stop => return writeln!(out, "stop {place}"),
            Next::End => return Ok(()),
        }
    }
    Ok(())
}

fn main(rt: HostRuntime) -> io::Result<()> {
    let mut input = rt.reader();
    let mut out = io::writer(&rt);
    run(&mut input, &mut out)
}
