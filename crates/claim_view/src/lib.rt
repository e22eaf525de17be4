//! Document 01's claim about a set and the giving back after it, as a function that makes both calls and whose contract is the claim, for all inputs.
#![tactic(auto)]

ghost use Rattle.view.specs.Types.{view_of_lists, typemaps};
ghost use Rattle.claim_view.specs.SetThenGet.{GotAsSet};

use file::{GetViewAnswer, Handle, SetViewAnswer};

#[derive(Clone, Copy)]
pub struct SetAndGot {
    pub set: SetViewAnswer,
    pub got: GetViewAnswer,
}

// Sets a view, and gives it back through the handle that the set gave back: the lists begin with exactly the lists set.
// The lists come one by one, as `Handle::set_view` has them.
pub fn set_then_get(
    handle: Handle,
    representation: &[u8],
    displacement: i64,
    ew: &[u64],
    ed: &[i64],
    ex: i64,
    fw: &[u64],
    fd: &[i64],
    fx: i64,
    gew: &mut [u64],
    ged: &mut [i64],
    gfw: &mut [u64],
    gfd: &mut [i64],
) -> SetAndGot
    ensures { GotAsSet handle representation.now
        (view_of_lists displacement ew.now ed.now ex fw.now fd.now fx)
        (typemaps gew.old ged.old gfw.old gfd.old)
        (typemaps gew.new ged.new gfw.new gfd.new) result }
{
    let set = handle.set_view(representation, displacement, ew, ed, ex, fw, fd, fx);
    let changed = set.handle;
    let got = changed.get_view(gew, ged, gfw, gfd);
    SetAndGot { set: set, got: got }
}
