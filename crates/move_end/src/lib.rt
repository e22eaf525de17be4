//! Where a write ends: the end of the highest byte that it maps to, which check 14 and the new size go by.
#![tactic(auto)]

ghost use Rattle.std.specs.Prelude.{◌≡◌};
ghost use Rattle.view.specs.Types.{paper, whole};
ghost use Rattle.move_read.specs.Parts.{write_end, Ranged};

use handle::Access;
use view::{BytePos, View};

// The end of the highest byte that an access maps to; 0 for none.
// It looks at the last offsets alone, one for each instance at most: any earlier one is the same instance of an earlier tile. Places need not rise with the offset. For our own crates.
pub fn write_end(view: &View, access: Access) -> BytePos
    requires { Ranged view.now access.offset.0 access.count }
    ensures { result.0 ≡ write_end (paper view.now) (whole access.offset.0) access.count }
{
    let count = access.count;
    if count == 0 {
        return BytePos(0);
    }
    let o = access.offset;
    let filetype = view.numbers.filetype;
    let reach = view.reach();
    let tail = count.min(filetype.instances);
    let skipped = count - tail;
    let from = view::natural(o.0) + skipped;
    let mut spot = view_place::spot_of(view, view::to_offset(from));
    let mut end = 0;
    for _ in 0..tail {
        let place = view_place::begin_at(view, spot);
        let one = place.0 + reach;
        end = end.max(one);
        spot = view_place::next_spot(spot, filetype);
    }
    BytePos(end)
}
