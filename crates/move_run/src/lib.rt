//! Runs of bytes: copying one of an entry's width, and filling one with a value. The pub functions are for our own crates, which meet what is required here.
#![tactic(auto)]

ghost use Rattle.std.specs.Prelude.{◌≡◌, ◌-◌, ◌≤◌, true, length};
ghost use Rattle.laws.specs.Parts.{store};
ghost use Rattle.view.specs.Limits.{width_allowed};
ghost use Rattle.move_run.specs.Parts.{onward, byte_from, Runs, always};

use view::BytePos;

// Copies N bytes of `source` from `from` on to `target` from `to` on. They go through an array, which overlaps neither, so that the compiler makes one load and one store of them.
fn copy_n<const N: usize>(source: &[u8], from: usize, target: &mut [u8], to: usize)
    requires { Runs (length source.now) from (length target.old) to N }
    ensures { target.new ≡ store (onward to) (byte_from source.now from) N target.old }
{
    let mut run = [0u8; N];
    run.copy_from_slice(&source[from..from + N]);
    target[to..to + N].copy_from_slice(&run);
}

// Copies `width` bytes of `source` from `from` on to `target` from `to` on, for a width that an entry may have.
// Lists with a place, not parts: `store (onward to)` speaks of the whole target.
pub fn copy_run(source: &[u8], from: usize, target: &mut [u8], to: usize, width: usize)
    requires { Runs (length source.now) from (length target.old) to width × (width_allowed width ≡ true) }
    ensures { target.new ≡ store (onward to) (byte_from source.now from) width target.old }
{
    match width {
        4 => copy_n::<4>(source, from, target, to),
        8 => copy_n::<8>(source, from, target, to),
        2 => copy_n::<2>(source, from, target, to),
        _ => copy_n::<1>(source, from, target, to),
    }
}

// Puts `value` at each place of the file from `from` on, up to `to`; at none if `from` is not below `to`.
pub fn fill(file: &mut [u8], from: BytePos, to: BytePos, value: u8)
    requires { to.0 ≤ length file.old }
    ensures { file.new ≡ store (onward from.0) (always value) (to.0 - from.0) file.old }
{
    let end = to.0 as usize;
    let begin = from.0.min(to.0) as usize;
    file[begin..end].fill(value);
}
