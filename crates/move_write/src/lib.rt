//! The writing mover: storing a write's data etype by etype, and filling the gap. What a write does is said in move_read/specs/Moves.antt, and computed in Parts.antt beside it.
//! These functions are pub for our own crates: a handle's calls make checks 1, 12, 13 and 14 first, and meet what is required here.
#![tactic(auto)]

ghost use Rattle.std.specs.Prelude.{◌≡◌, ◌*◌, length};
ghost use Rattle.laws.specs.Lists.{nth};
ghost use Rattle.laws.specs.Parts.{store};
ghost use Rattle.view.specs.Types.{paper, whole};
ghost use Rattle.view.specs.Places.{data_size};
ghost use Rattle.move_read.specs.Moves.{file_byte};
ghost use Rattle.move_write.specs.Parts.{Storable, Growable, Grown};

use handle::{Access, FileRecord};
use view::{BytePos, View};

// What the gap between the old size and the new one gets.
const GAP_FILL: u8 = 0;

// Stores the etypes of an access from the buffer, etype t from t·S on, each of the data bytes at its place.
// It divides once, for the first offset, and then steps from instance to instance and from tile to tile.
pub fn scatter(view: &View, file: &mut [u8], access: Access, buf: &[u8])
    requires { Storable view.now (length file.old) access.offset.0 access.count (length buf.now) }
    ensures { file.new ≡ store (file_byte (paper view.now) (whole access.offset.0)) (nth buf.now) (access.count * data_size (paper view.now)) file.old }
{
    let count = access.count;
    if count == 0 {
        return;
    }
    let filetype = view.numbers.filetype;
    let packed = view.data_size();
    let mut spot = view_place::spot_of(view, access.offset);
    for t in 0..count {
        let place = view_place::begin_at(view, spot);
        let from = (t * packed) as usize;
        move_etype::copy_in(view, &buf[from..], file, place);
        spot = view_place::next_spot(spot, filetype);
    }
}

// Fills the gap of a write that ends at `end`, where it ends past the file's size, and answers the file's record with the new size.
pub fn grow(file: &mut [u8], mut rec: FileRecord, end: BytePos) -> FileRecord
    requires { Growable (length file.old) rec end.0 }
    ensures { Grown rec end.0 file.old file.new result }
{
    let size = rec.size;
    let grown = size.max(end.0);
    move_run::fill(file, BytePos(size), BytePos(grown), GAP_FILL);
    rec.size = grown;
    rec
}
