//! What giving a view back writes into the lent lists: widths and displacements of both types.
//! The etype is written as one group with origin 0, the filetype as a group for each instance.
#![tactic(auto)]

ghost use Rattle.std.specs.Prelude.{◌≡◌, ◌+◌, ◌*◌, ◌/◌, ◌%◌, ◌<◌, pos, length};
ghost use Rattle.laws.specs.Parts.{front};
ghost use Rattle.view.specs.Parts.{max_instances};
ghost use Rattle.view.specs.Types.{paper};
ghost use Rattle.view_typemap.specs.Parts.{Ready, TypemapsFilled, group_width, group_displacement, Room, Signed};

use view::{PerEntry, PerInstance, View};

// The widths of `k` groups of `n` entries, put at the front of `out`.
// Lists and not the view, here and below: for the etype `unshifted` stands for the origins.
fn fill_widths(ws: &PerEntry, n: usize, k: usize, out: &mut [u64])
    requires { Room n k (length out.old) }
    ensures { out.new ≡ front (group_width ws.now n) (k * n) out.old }
{
    for (i, place) in out[..k * n].iter_mut().enumerate() {
        *place = ws[i % n];
    }
}

// The displacements of `k` groups of `n` entries, each group shifted by its origin, put at the front of `out`. A loop shared with the one above would take what is stored as a closure, and be longer than both.
fn fill_displacements(origins: &PerInstance, ds: &PerEntry, n: usize, k: usize, out: &mut [i64])
    requires { Room n k (length out.old) × Signed origins.now ds.now n k }
    ensures { out.new ≡ front (group_displacement origins.now ds.now n) (k * n) out.old }
{
    for (i, place) in out[..k * n].iter_mut().enumerate() {
        *place = (origins[i / n] + ds[i % n]) as i64;
    }
}

// The widths and displacements of a view's etype and filetype, put at the front of the lent lists. For our own crates.
// `ew`, `ed` are the etype's widths and displacements; `fw`, `fd` the filetype's.
pub fn fill_lists(view: &View, ew: &mut [u64], ed: &mut [i64], fw: &mut [u64], fd: &mut [i64])
    requires { Ready (paper view.now) ew.old ed.old fw.old fd.old }
    ensures { TypemapsFilled (paper view.now) ew.old ew.new ed.old ed.new fw.old fw.new fd.old fd.new }
{
    let n = view.numbers.etype.entries as usize;
    let instances = view.numbers.filetype.instances as usize;
    // An array of the greatest length, as the view's.
    let unshifted = [0u64; View::MAX_INSTANCES as usize];
    fill_widths(&view.widths, n, 1, ew);
    fill_displacements(&unshifted, &view.displacements, n, 1, ed);
    fill_widths(&view.widths, n, instances, fw);
    fill_displacements(&view.origins, &view.displacements, n, instances, fd);
}
