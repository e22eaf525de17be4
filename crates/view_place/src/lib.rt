//! Where things lie in a view: the place of an offset, the places of the offsets after it, and end of file.
//! These functions are pub for our own crates: a handle's calls test handle, offset and file first, and meet what is required here.
#![tactic(auto)]

ghost use Rattle.std.specs.Prelude.{true, ◌≡◌, ◌+◌, ◌≤◌, ◌<◌, pos};
ghost use Rattle.laws.specs.Lists.{nth};
ghost use Rattle.view.specs.Parts.{max_instances, end_from};
ghost use Rattle.view.specs.Limits.{max_file_length, offset_allowed};
ghost use Rattle.view.specs.Types.{whole};
ghost use Rattle.view_place.specs.Parts.{Tiled, OriginsLow, spot_at, next_spot, SpotValid, place_on, end_on};

use view::{BytePos, Filetype, Offset, View};

// The tile and the instance of an offset: where its tile begins, and which instance of the tile it is.
#[derive(Clone, Copy)]
pub struct Spot {
    pub tile: BytePos,
    pub instance: u64,
}

// The spot of offset `o`, by the one division of an access. For our own crates.
#[tactic(auto, unfolding(crate::specs::Parts::spot_at))]
pub fn spot_of(view: &View, o: Offset) -> Spot
    requires { Tiled view.now.numbers × (offset_allowed o.0 ≡ true) }
    ensures { result ≡ spot_at view.now.numbers (whole o.0) }
{
    let at = view::natural(o.0);
    let filetype = view.numbers.filetype;
    let tile = at / filetype.instances;
    let step = tile * filetype.extent;
    let begin = view.numbers.displacement + step;
    let instance = at % filetype.instances;
    Spot {
        tile: BytePos(begin),
        instance: instance,
    }
}

// The spot of the offset after that of `s`, with no division. For our own crates.
#[tactic(auto, unfolding(crate::specs::Parts::next_spot))]
pub fn next_spot(s: Spot, f: Filetype) -> Spot
    requires { (s.instance < max_instances) × (s.tile.0 + f.extent < 18446744073709551616) }
    ensures { result ≡ next_spot s f.instances f.extent }
{
    let tile = s.tile;
    let next = s.instance + 1;
    if next < f.instances {
        return Spot {
            tile: tile,
            instance: next,
        };
    }
    let after = tile.0 + f.extent;
    Spot {
        tile: BytePos(after),
        instance: 0,
    }
}

// Where the etype at a spot begins. For our own crates.
pub fn begin_at(view: &View, s: Spot) -> BytePos
    requires { SpotValid view.now.origins s }
    ensures { result.0 ≡ s.tile.0 + nth view.now.origins s.instance }
{
    let instance = s.instance as usize;
    let tile = s.tile;
    BytePos(tile.0 + view.origins[instance])
}

// The byte at which the etype at offset `o` begins. For our own crates.
pub fn place_of(view: &View, o: Offset) -> BytePos
    requires { Tiled view.now.numbers × OriginsLow view.now.numbers view.now.origins × (offset_allowed o.0 ≡ true) }
    ensures { result.0 ≡ place_on view.now.numbers view.now.origins (whole o.0) }
{
    let spot = spot_of(view, o);
    begin_at(view, spot)
}

// One past the last offset that is instance `i` of its tile and begins below `size`, or 0.
#[tactic(auto, unfolding(view::specs::Parts::end_from))]
fn end_from(start: BytePos, size: u64, f: Filetype, i: u64) -> u64
    requires { (size ≤ max_file_length) × (f.instances ≤ max_instances) × (i < f.instances) × (0 < f.extent) }
    ensures { result ≡ end_from start.0 size f.extent f.instances i }
{
    if size <= start.0 {
        return 0;
    }
    let room = size - start.0 - 1;
    room / f.extent * f.instances + i + 1
}

// End of file in etypes, by one division for each instance: places need not rise with the offset. For our own crates.
// By index: `end_from` takes the instance's number beside its origin.
pub fn end_of(view: &View, size: u64) -> Offset
    requires { Tiled view.now.numbers × OriginsLow view.now.numbers view.now.origins × (size ≤ max_file_length) }
    ensures { result.0 ≡ pos (end_on view.now.numbers view.now.origins size) }
{
    let filetype = view.numbers.filetype;
    let mut end = 0;
    for i in 0..filetype.instances {
        let start = view.numbers.displacement + view.origins[i as usize];
        let one = end_from(BytePos(start), size, filetype, i);
        end = end.max(one);
    }
    view::to_offset(end)
}
