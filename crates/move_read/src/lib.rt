//! Moving the data of an access between the file and the buffer, etype by etype. What a read and a write do is said in specs/Moves.antt, and computed in specs/Parts.antt.
//! These functions are pub for our own crates: a handle's calls make checks 1, 12 and 13 first, and meet what is required here.
#![tactic(auto)]

ghost use Rattle.std.specs.Prelude.{length};
ghost use Rattle.move_read.specs.Parts.{Movable, ReadDone};

use handle::{Access, FileRecord};
use view::View;

// Reads the etypes of an access into the buffer, etype t from t·S on, and answers how many lie in the file: it stops at the first that does not.
// It divides once, for the first offset, and then steps from instance to instance and from tile to tile.
// By number: the answer is the number of the first etype that does not lie in the file.
pub fn gather(view: &View, file: &[u8], rec: FileRecord, access: Access, buf: &mut [u8]) -> u64
    requires { Movable view.now (length file.now) rec.size access.offset.0 access.count (length buf.old) }
    ensures { ReadDone view.now file.now rec.size access.offset.0 access.count buf.old result buf.new }
{
    let count = access.count;
    if count == 0 {
        return 0;
    }
    let size = rec.size;
    let filetype = view.numbers.filetype;
    let packed = view.data_size();
    let reach = view.reach();
    let mut spot = view_place::spot_of(view, access.offset);
    for t in 0..count {
        let place = view_place::begin_at(view, spot);
        let end = place.0 + reach;
        if size < end {
            return t;
        }
        let from = (t * packed) as usize;
        move_etype::copy_out(view, file, place, &mut buf[from..]);
        spot = view_place::next_spot(spot, filetype);
    }
    count
}
