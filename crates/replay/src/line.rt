// The printed lines (docs/trace.md): they are put into a text, which asks for no memory and has room for the longest lines, and the text is written whole.
ghost use Rattle.std.specs.Prelude.{◌+◌, ◌≤◌, length};
ghost use Rattle.arrayvec.specs.ArrayString.{array_string_len};

use crate::MOST_NUMBERS;
use arrayvec::ArrayString;
use itoa::Buffer;
use replay_run::LINE_NUMBERS;
use std::io;
use std::io::Print;

// The longest text of a run's lines: each number has at most 20 digits and a byte after it.
const TEXT_BYTES: usize = MOST_NUMBERS * 21;

// Puts a number and a byte after it into the text.
fn put_number(text: &mut ArrayString<TEXT_BYTES>, n: u64, after: &str)
    requires { (array_string_len text.old + 21 ≤ 107520) × (length after.now ≤ 1) }
    ensures { array_string_len text.new ≤ array_string_len text.old + 21 }
{
    text.push_str(Buffer::new().format(n));
    text.push_str(after);
}

// Puts the line of five numbers into the text.
fn put_line(text: &mut ArrayString<TEXT_BYTES>, line: &[u64; LINE_NUMBERS])
    requires { array_string_len text.old + 105 ≤ 107520 }
    ensures { array_string_len text.new ≤ array_string_len text.old + 105 }
{
    let [number, answer, count, pointer, size] = line;
    put_number(text, *number, " ");
    put_number(text, *answer, " ");
    put_number(text, *count, " ");
    put_number(text, *pointer, " ");
    put_number(text, *size, "\n");
}

// Prints the lines of a run, five numbers to a line.
pub fn print_lines(rt: &impl Print, numbers: &[u64]) -> io::Result<()>
    requires { length numbers.now ≤ 5120 }
{
    let mut text = ArrayString::<TEXT_BYTES>::new();
    let (lines, _) = numbers.as_chunks::<LINE_NUMBERS>();
    for line in lines {
        put_line(&mut text, line);
    }
    rt.write_all(text.as_str().as_bytes())
}

// Prints the line of a stop.
pub fn print_stop(rt: &impl Print, place: u64) -> io::Result<()> {
    println!(rt; "stop {place}")
}
