//! Copying the data of one etype. These functions are pub for our own crates: the movers meet what is required here.
//! They are two, since the one is lent the buffer to write to and the other the file.
//! By index: a zip of two prefixes beside the running sum reads no plainer.
#![tactic(auto)]

ghost use Rattle.std.specs.Prelude.{◌≡◌, length};
ghost use Rattle.laws.specs.Lists.{nth};
ghost use Rattle.laws.specs.Parts.{store, front};
ghost use Rattle.view.specs.Parts.{size_of};
ghost use Rattle.move_etype.specs.Parts.{place_in, byte_in, Lies};

use view::{BytePos, View};

// Copies the data of the etype that begins at `at` out of the file to the front of `part`, packed in list order.
pub fn copy_out(view: &View, file: &[u8], at: BytePos, part: &mut [u8])
    requires { Lies view.now.numbers.etype.entries view.now.widths view.now.displacements at.0 (length file.now) (length part.old) }
    ensures { part.new ≡ front (byte_in view.now.numbers.etype.entries view.now.widths view.now.displacements file.now at.0) (size_of view.now.numbers.etype.entries view.now.widths) part.old }
{
    let n = view.numbers.etype.entries as usize;
    let begin = at.0;
    let mut packed = 0;
    for i in 0..n {
        let width = view.widths[i] as usize;
        let from = (begin + view.displacements[i]) as usize;
        move_run::copy_run(file, from, part, packed, width);
        packed += width;
    }
}

// Copies the front of `part` into the file as the packed data of the etype that begins at `at`.
pub fn copy_in(view: &View, part: &[u8], file: &mut [u8], at: BytePos)
    requires { Lies view.now.numbers.etype.entries view.now.widths view.now.displacements at.0 (length file.old) (length part.now) }
    ensures { file.new ≡ store (place_in view.now.numbers.etype.entries view.now.widths view.now.displacements at.0) (nth part.now) (size_of view.now.numbers.etype.entries view.now.widths) file.old }
{
    let n = view.numbers.etype.entries as usize;
    let begin = at.0;
    let mut taken = 0;
    for i in 0..n {
        let width = view.widths[i] as usize;
        let to = (begin + view.displacements[i]) as usize;
        move_run::copy_run(part, taken, file, to, width);
        taken += width;
    }
}
