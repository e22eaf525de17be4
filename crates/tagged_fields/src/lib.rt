//! Document 01's tagged fields: what stands at a place of a run of them, and the numbers of a body.
#![tactic(auto)]

ghost use Rattle.std.specs.Prelude.{◌≡◌, ◌+◌, ◌*◌, ◌^◌, ◌≤◌, ◌<◌, min, length};
ghost use Rattle.laws.specs.Parts.{front};
ghost use Rattle.tagged_fields.specs.Numbers.{number_bytes, number_at, signed_of, signed_at, number_from, signed_from};
ghost use Rattle.tagged_fields.specs.Fields.{field_at};

use std::array;

// What stands at a place: a whole field, with its tag and where its body begins and how long it is; one that is cut short; or the end of the run.
#[derive(Clone, Copy)]
pub enum Field {
    Whole {
        tag: u8,
        start: usize,
        length: usize,
    },
    Cut,
    End,
}

impl Field {
    // A tag of one byte and a length of two.
    pub const LENGTH_BYTES: usize = 2;

    pub const HEADER_BYTES: usize = 1 + Field::LENGTH_BYTES;
}

// How many bytes a number of a body takes.
pub const NUMBER_BYTES: usize = 8;

// What stands at place `at` of a run.
pub fn field_at(s: &[u8], at: usize) -> Field
    ensures { result ≡ field_at s.now at }
{
    match &s[at.min(s.len())..] {
        [] => Field::End,
        [tag, low, high, rest @ ..] => {
            let length = usize::from(u16::from_le_bytes([*low, *high]));
            if rest.len() < length {
                return Field::Cut;
            }
            Field::Whole {
                tag: *tag,
                start: at + Field::HEADER_BYTES,
                length,
            }
        }
        _ => Field::Cut,
    }
}

// Where the bytes after the first `n` numbers of a body begin; its end where there are none.
pub fn bytes_after(body: &[u8], n: usize) -> usize
    ensures { result ≡ min (number_bytes * n) (length body.now) }
{
    n.saturating_mul(NUMBER_BYTES).min(body.len())
}

// Number `i` of a body. Of one that the end cuts the bytes past it count 0.
pub fn number(s: &[u8], i: usize) -> u64
    ensures { result ≡ number_at s.now i }
{
    let rest = &s[bytes_after(s, i)..];
    let bytes = match rest.first_chunk() {
        Some(bytes) => *bytes,
        None => array::from_fn(|k| rest.get(k).copied().unwrap_or(0)),
    };
    u64::from_le_bytes(bytes)
}

// A number as two's complement reads it. A name, since `signed_of` states how the trace reads a number.
#[tactic(auto, unfolding(crate::specs::Numbers::signed_of))]
pub fn signed(x: u64) -> i64
    ensures { result ≡ signed_of x }
{
    x.cast_signed()
}

// Number `i` of a body, signed.
#[tactic(auto, unfolding(crate::specs::Numbers::signed_at))]
pub fn signed_at(s: &[u8], i: usize) -> i64
    ensures { result ≡ signed_at s.now i }
{
    signed(number(s, i))
}

// The numbers from number `from` of a body on, put into the first `n` places of `out`. For our own crates, as the one below.
// Two loops, since one over what decodes a number would take a trait and two impls for the one line that differs.
pub fn numbers_into(body: &[u8], from: usize, n: usize, out: &mut [u64])
    requires { (n ≤ length out.old) × (from + n < 2 ^ 64) }
    ensures { out.new ≡ front (number_from body.now from) n out.old }
{
    for (i, place) in out[..n].iter_mut().enumerate() {
        *place = number(body, from + i);
    }
}

// The same of signed numbers.
pub fn signed_into(body: &[u8], from: usize, n: usize, out: &mut [i64])
    requires { (n ≤ length out.old) × (from + n < 2 ^ 64) }
    ensures { out.new ≡ front (signed_from body.now from) n out.old }
{
    for (i, place) in out[..n].iter_mut().enumerate() {
        *place = signed_at(body, from + i);
    }
}
