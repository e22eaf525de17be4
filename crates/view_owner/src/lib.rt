//! The reverse lookup: the pair of offset and index in the packed data that a file byte belongs to.
//! Each entry of the filetype is tried for all tiles at once, by a remainder: the cost depends on the number of entries alone, and places need not rise with the offset.
#![tactic(auto)]

ghost use Rattle.std.specs.Prelude.{◌≡◌, ◌+◌, ◌<◌};
ghost use Rattle.view.specs.Types.{paper};
ghost use Rattle.view.specs.Acceptance.{Valid};
ghost use Rattle.view.specs.Parts.{owner_of};
ghost use Rattle.view_owner.specs.Parts.{entry_owner, instance_owner, InstanceIn, InstanceValid};

use view::{BytePos, Filetype, Pair, View};

// The pair of byte `b` if it lies, in some tile of the filetype, in an entry of instance `g`, or none.
// In the first tile the entry begins at `start`; `packed` bytes stand before it in the packed data.
fn owner_in_entry(
    f: Filetype,
    g: u64,
    start: BytePos,
    width: u64,
    packed: u64,
    b: BytePos,
) -> Option<Pair>
    requires { InstanceIn f.extent f.instances g × (packed + width < 18446744073709551616) }
    ensures { result ≡ entry_owner f.extent f.instances g start.0 width packed b.0 }
{
    if b.0 < start.0 {
        return None;
    }
    let distance = b.0 - start.0;
    let rest = distance % f.extent;
    if width <= rest {
        return None;
    }
    let tile = distance / f.extent;
    // Past this no offset of the tile is allowed, and the product below need not fit.
    if View::OFFSET_COUNT <= tile {
        return None;
    }
    let before = tile * f.instances;
    let offset = before + g;
    if View::OFFSET_COUNT <= offset {
        return None;
    }
    let index = packed + rest;
    Some(Pair {
        offset: view::to_offset(offset),
        index: index,
    })
}

// The pair of byte `b` if it lies, in some tile, in instance `g`, or none. In the first tile the instance begins at `begin`.
// By index, as `owner_at` counts the entries: the packed sum runs beside two lists.
fn owner_in_instance(view: &View, g: u64, begin: BytePos, b: BytePos) -> Option<Pair>
    requires { InstanceValid view.now.numbers.etype.entries view.now.widths view.now.displacements view.now.numbers.filetype.extent view.now.numbers.filetype.instances g begin.0 }
    ensures { result ≡ instance_owner view.now.numbers.etype.entries view.now.widths view.now.displacements view.now.numbers.filetype.extent view.now.numbers.filetype.instances g begin.0 b.0 }
{
    let n = view.numbers.etype.entries as usize;
    let f = view.numbers.filetype;
    let mut packed = 0;
    for i in 0..n {
        let width = view.widths[i];
        let start = begin.0 + view.displacements[i];
        let owner = owner_in_entry(f, g, BytePos(start), width, packed, b);
        if let Some(pair) = owner {
            return Some(pair);
        }
        packed += width;
    }
    None
}

// The pair that file byte `b` belongs to, or none: each entry of the filetype is tried in turn. For our own crates.
pub fn owner_of(view: &View, b: BytePos) -> Option<Pair>
    requires { Valid (paper view.now) }
    ensures { result ≡ owner_of (paper view.now) b.0 }
{
    for g in 0..view.numbers.filetype.instances {
        let begin = view.numbers.displacement + view.origins[g as usize];
        let owner = owner_in_instance(view, g, BytePos(begin), b);
        if let Some(pair) = owner {
            return Some(pair);
        }
    }
    None
}
