//! The checksums of the conformance driver (docs/conformance.md). Nothing of MPI.
#![tactic(auto)]

ghost use Rattle.std.specs.Prelude.{◌≡◌};
ghost use Rattle.checksum.specs.Parts.{fed, code, list_checksum, signed_checksum};

// The checksum that a run of no numbers has.
pub const BEGIN: u64 = 7;

// P, and by what a number more multiplies.
const MODULUS: u64 = 4294967291;

const FACTOR: u64 = 65599;

// 2^63 - 1, above which the codes of negative numbers lie.
const LARGEST: u64 = i64::MAX as u64;

// The checksum of a run that has one number more.
#[tactic(auto, using(crate::proofs::Folding::feed_is))]
pub fn feed(s: u64, x: u64) -> u64
    ensures { result ≡ fed s x }
{
    (s % MODULUS * FACTOR + x % MODULUS + 1) % MODULUS
}

// What a signed number counts as. No library method counts so: `code` is that of docs/conformance.md.
#[tactic(auto, unfolding(crate::specs::Parts::code))]
pub fn coded(x: i64) -> u64
    ensures { result ≡ code x }
{
    if x < 0 {
        LARGEST + x.unsigned_abs()
    } else {
        x.unsigned_abs()
    }
}

// The checksum of bytes.
// Three folds of a line each: one over all three types would take a trait or a closure.
pub fn bytes(s: &[u8]) -> u64
    ensures { result ≡ list_checksum s.now }
{
    s.iter().fold(BEGIN, |sum, x| feed(sum, u64::from(*x)))
}

// The checksum of numbers.
pub fn numbers(s: &[u64]) -> u64
    ensures { result ≡ list_checksum s.now }
{
    s.iter().fold(BEGIN, |sum, x| feed(sum, *x))
}

// The checksum of signed numbers.
pub fn signed(s: &[i64]) -> u64
    ensures { result ≡ signed_checksum s.now }
{
    s.iter().fold(BEGIN, |sum, x| feed(sum, coded(*x)))
}
