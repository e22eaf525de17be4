// A record's body: a run of numbers of 8 bytes each, which name slots, files and lengths, and bytes that are made of a seed (docs/conformance.md).
ghost use Rattle.std.specs.Prelude.{◌≡◌, ◌*◌, ◌≤◌, ◌<◌, min, drop, length};
ghost use Rattle.laws.specs.Parts.{front};
ghost use Rattle.tagged_fields.specs.Numbers.{number_bytes, number_from, signed_from};

// How many handle slots and files the driver has.
pub const SLOT_COUNT: usize = 4;

pub const FILE_COUNT: usize = 2;

// The longest lent list.
pub const LONGEST_LIST: usize = 300;

// 2^31, below which the numbers lie that fill a lent list.
const FILLS: u64 = 2147483648;

// A body, or what is left of it. Numbers and bytes that it lacks are 0.
#[derive(Clone, Copy)]
pub struct Body<'a> {
    pub bytes: &'a [u8],
    ghost short: { length bytes.now ≤ 65535 },
}

impl<'a> Body<'a> {
    pub fn number(self, i: usize) -> u64 {
        tagged_fields::number(self.bytes, i)
    }

    pub fn signed(self, i: usize) -> i64 {
        tagged_fields::signed_at(self.bytes, i)
    }

    // Number `i` as a byte.
    pub fn byte(self, i: usize) -> u8 {
        (self.number(i) % 256) as u8
    }

    // Number `i` as a length, and `most` where it is above that.
    pub fn length(self, i: usize, most: usize) -> usize
        ensures { result ≤ most }
    {
        self.number(i).min(most as u64) as usize
    }

    // Number `i` as what fills a lent list, of either type.
    pub fn list_fill(self, i: usize) -> u32
        ensures { result < 2147483648 }
    {
        (self.number(i) % FILLS) as u32
    }

    // The handle slot that a body names: its first number.
    pub fn slot(self) -> usize
        ensures { result < 4 }
    {
        self.number(0) as usize % SLOT_COUNT
    }

    // The file that number `i` names.
    pub fn file(self, i: usize) -> usize
        ensures { result < 2 }
    {
        self.number(i) as usize % FILE_COUNT
    }

    // What stands after the first `n` numbers.
    pub fn after(self, n: usize) -> Body<'a>
        ensures { result.bytes.now ≡ drop (min (number_bytes * n) (length self.entry.bytes.now)) self.entry.bytes.now }
    {
        let start = tagged_fields::bytes_after(self.bytes, n);
        Body {
            bytes: &self.bytes[start..],
        }
    }

    // Takes the next numbers off, as many as a list has places, and puts them there.
    // Two functions, this one and the next, since `numbers_into` and `signed_into`, whose contracts settle what a list holds, are two.
    pub fn take_numbers<'b>(&mut self, list: &'b mut [u64]) -> &'b [u64]
        ensures { result.now ≡ front (number_from self.old.bytes.now 0) (length list.old) list.old }
    {
        tagged_fields::numbers_into(self.bytes, 0, list.len(), list);
        *self = self.after(list.len());
        list
    }

    // The same of signed numbers.
    pub fn take_signed<'b>(&mut self, list: &'b mut [i64]) -> &'b [i64]
        ensures { result.now ≡ front (signed_from self.old.bytes.now 0) (length list.old) list.old }
    {
        tagged_fields::signed_into(self.bytes, 0, list.len(), list);
        *self = self.after(list.len());
        list
    }
}

// Byte `i` of a file or a buffer that is made of a seed.
fn seeded_byte(seed: u64, i: usize) -> u8 {
    let low = i % 256;
    let high = i / 256 % 256;
    let rest = (seed % 256) as usize;
    ((rest + 7 * low + high) % 256) as u8
}

// Makes all bytes of a file or a buffer of a seed.
pub fn fill(seed: u64, bytes: &mut [u8]) {
    for (i, byte) in bytes.iter_mut().enumerate() {
        *byte = seeded_byte(seed, i);
    }
}
