//! From lent lists to an accepted view, or to the refusal number that the papers give them and what it names: checks 2 to 7, 17 to 19, 9 and 10, in this order.
//! Its buffers are arrays of the greatest length: no library here allocates.
#![tactic(auto)]

ghost use Rattle.std.specs.Prelude.{◌≡◌};
ghost use Rattle.view.specs.Parts.{fault_in};
ghost use Rattle.rule_groups.specs.Parts.{Recordable, view_record};
ghost use Rattle.view.specs.Types.{view_of_lists};
ghost use Rattle.rule_set.specs.Parts.{accepted_in, AcceptedAs, Limited, tiles_fault, TilesReady, groups_fault, shapes_fault, ShapesReady, RecordAccepted, ListsAccepted};

use view::{Etype, Filetype, Numbers, Refusal, Refused, View};

// What checks 9 and 10 say: the holes, and overlap where the mode allows writing. The first entry of the group after a hole is named, for the final hole the last entry; of overlap the first entry that clashes with itself or an earlier one, which is searched only where tiles are not in order.
// The filetype's two lists come one by one, as `tiles_fault`, `groups_fault` and `shapes_fault` of specs/ take them.
#[tactic(auto, using(crate::proofs::Shaping::tiles), unfolding(view::specs::Parts::fault_in, view::specs::Parts::refusal_number))]
fn tiles_fault(mode: u64, view: &View, fw: &[u64], fd: &[u64]) -> Result<(), Refused>
    requires { TilesReady view.now.numbers fw.now fd.now }
    ensures { fault_in result ≡ tiles_fault mode view.now.numbers view.now.origins fw.now fd.now }
{
    let extent = view.numbers.filetype.extent;
    let n = view.numbers.etype.entries as usize;
    let k = view.numbers.filetype.instances as usize;
    let hole = rule_instances::first_hole(view);
    if hole < k {
        let begin = hole * n;
        return Err(Refused::of_filetype(Refusal::Hole, begin));
    }
    if hole == k {
        let last = fw.len() - 1;
        return Err(Refused::of_filetype(Refusal::Hole, last));
    }
    if !View::allows_writing(mode) {
        return Ok(());
    }
    if rule_entries::filetype_apart(fw, fd, extent) {
        return Ok(());
    }
    let clash = rule_overlap::first_clash(fw, fd, extent);
    if clash < fw.len() {
        return Err(Refused::of_filetype(Refusal::Overlap, clash));
    }
    Ok(())
}

// What checks 17, 18, 19, 9 and 10 say of types in order: whole groups, then group by group, then the holes and overlap.
#[tactic(auto, using(crate::proofs::Shaping::groups), unfolding(view::specs::Parts::fault_in, view::specs::Parts::refusal_number, rule_groups::specs::Parts::group_numbers))]
fn groups_fault(mode: u64, view: &View, fw: &[u64], fd: &[u64]) -> Result<(), Refused>
    requires { ShapesReady view.now fw.now fd.now }
    ensures { fault_in result ≡ groups_fault view.now fw.now fd.now mode }
{
    let n = view.numbers.etype.entries as usize;
    if fw.len() % n != 0 {
        return Err(Refused::unnamed(Refusal::WholeGroups));
    }
    if let Some(fault) = rule_groups::first_group_fault(view, fw, fd) {
        return Err(Refused::of_filetype(fault.refusal, fault.entry));
    }
    tiles_fault(mode, view, fw, fd)
}

// What the checks from 7 on say, on a view's record and the filetype's lists. The order of each type comes before the groups; of two entries out of order the later is named.
#[tactic(auto, using(crate::proofs::Shaping::orders, laws::proofs::Runs::prefix, laws::proofs::Booleans::also_first, laws::proofs::Booleans::also_false), unfolding(view::specs::Parts::fault_in, view::specs::Parts::refusal_number))]
fn shapes_fault(mode: u64, view: &View, fw: &[u64], fd: &[u64]) -> Result<(), Refused>
    requires { ShapesReady view.now fw.now fd.now }
    ensures { fault_in result ≡ shapes_fault view.now fw.now fd.now mode }
{
    let used = view.numbers.etype.entries as usize;
    let later = rule_entries::first_out_of_order(&view.displacements[..used]);
    if later < used {
        return Err(Refused::of_etype(Refusal::Order, later));
    }
    let file_later = rule_entries::first_out_of_order(fd);
    if file_later < fd.len() {
        return Err(Refused::of_filetype(Refusal::Order, file_later));
    }
    groups_fault(mode, view, fw, fd)
}

// The record of a view of these numbers and lent lists, and the checks from 7 on of it. `fd` are the filetype's displacements as natural numbers.
#[tactic(auto, using(crate::proofs::Answering::recorded))]
fn accept_record(
    mode: u64,
    v: Numbers,
    ew: &[u64],
    ed: &[i64],
    fw: &[u64],
    fd: &[u64],
) -> Result<View, Refused>
    requires { Recordable ew.now ed.now fd.now × ShapesReady (view_record v ew.now ed.now fd.now) fw.now fd.now }
    ensures { RecordAccepted mode (view_record v ew.now ed.now fd.now) fw.now fd.now (accepted_in result) }
{
    let view = rule_groups::view_of(v, ew, ed, fd);
    shapes_fault(mode, &view, fw, fd)?;
    Ok(view)
}

// The checks from 7 on of lent lists that keep the limits, and the view.
fn accept_lists(
    mode: u64,
    displacement: i64,
    ew: &[u64],
    ed: &[i64],
    ex: i64,
    fw: &[u64],
    fd: &[i64],
    fx: i64,
) -> Result<View, Refused>
    requires { Limited (view_of_lists displacement ew.now ed.now ex fw.now fd.now fx) }
    ensures { ListsAccepted mode (view_of_lists displacement ew.now ed.now ex fw.now fd.now fx) (accepted_in result) }
{
    let mut naturals = [0u64; View::MAX_FILETYPE_ENTRIES as usize];
    rule_groups::copy_displacements(fd, &mut naturals);
    let m = fd.len();
    let used = &naturals[..m];
    let groups = m / ew.len();
    let v = Numbers {
        displacement: view::natural(displacement),
        etype: Etype {
            entries: ew.len() as u64,
            extent: view::natural(ex),
        },
        filetype: Filetype {
            instances: groups as u64,
            extent: view::natural(fx),
        },
    };
    accept_record(mode, v, ew, ed, fw, used)
}

// The view that lent lists make, accepted for a mode exactly if document 01's rules hold, or the refusal and what it names.
// `ew`, `ed`, `ex` are the etype's widths, displacements and extent; `fw`, `fd`, `fx` the filetype's.
// The lists of both types come one by one, as `Handle::set_view` has them.
pub fn accept(
    mode: u64,
    representation: &[u8],
    displacement: i64,
    ew: &[u64],
    ed: &[i64],
    ex: i64,
    fw: &[u64],
    fd: &[i64],
    fx: i64,
) -> Result<View, Refused>
    ensures { AcceptedAs mode representation.now (view_of_lists displacement ew.now ed.now ex fw.now fd.now fx) (accepted_in result) }
{
    rule_lists::limits_fault(representation, displacement, ew, ed, ex, fw, fd, fx)?;
    accept_lists(mode, displacement, ew, ed, ex, fw, fd, fx)
}
