//! The record of a view, made of lent lists, and the search for the first group that is not the etype's.
//! The pub functions are for `accept`, whose checks 4, 6 and 17 meet what is required here.
//! The lists of both types come one by one, as `Handle::set_view` has them.
#![tactic(auto)]

ghost use Rattle.std.specs.Prelude.{◌≡◌, ◌≤◌, ◌<◌, ◌/◌, ◌%◌, length};
ghost use Rattle.laws.specs.Parts.{front};
ghost use Rattle.laws.specs.Lists.{nth};
ghost use Rattle.view.specs.Parts.{max_etype_entries};
ghost use Rattle.rule_groups.specs.Parts.{whole_at, entry_shifted, group_numbers, first_group_fault, GroupsReady, group_origin, Recordable, view_record};

use view::{Numbers, Refusal, View};

// The first fault of a filetype's groups: the refusal, of a group or of an origin, and the entry that it names.
#[derive(Clone, Copy)]
pub struct GroupFault {
    pub refusal: Refusal,
    pub entry: usize,
}

// Displacements as natural numbers, put at the front of `out`.
#[tactic(auto, using(laws::proofs::Stores::store_none, laws::proofs::Stores::store_more), unfolding(crate::specs::Parts::whole_at))]
pub fn copy_displacements(ds: &[i64], out: &mut [u64])
    requires { length ds.now ≤ length out.old }
    ensures { out.new ≡ front (whole_at ds.now) (length ds.now) out.old }
{
    for (i, d) in ds.iter().enumerate() {
        out[i] = view::natural(*d);
    }
}

// Whether an entry of width `w` at `d` is the etype's of width `ew` at `ed`, shifted as far as from `first` to `begin`, which may lie below.
#[tactic(auto, unfolding(crate::specs::Parts::entry_shifted, laws::specs::Checks::also))]
fn entry_matches(w: u64, d: u64, ew: u64, ed: u64, begin: u64, first: u64) -> bool
    ensures { result ≡ entry_shifted w d ew ed begin first }
{
    w == ew && u128::from(d) + u128::from(first) == u128::from(begin) + u128::from(ed)
}

// The first fault of a filetype's groups, which are whole: group by group, an entry that is not the etype's, shifted as its group's first entry is, comes before an origin below 0.
// By index over four lists: `matches_at` counts so, and `break` yields the entry at fault.
#[tactic(auto, using(crate::proofs::Building::groups), unfolding(view::specs::Parts::refusal_number, crate::specs::Parts::group_numbers, crate::specs::Parts::matches_at))]
pub fn first_group_fault(view: &View, fw: &[u64], fd: &[u64]) -> Option<GroupFault>
    requires { GroupsReady view.now.numbers.etype.entries fw.now fd.now }
    ensures { group_numbers result ≡ first_group_fault view.now.widths view.now.displacements view.now.numbers.etype.entries fw.now fd.now }
{
    let n = view.numbers.etype.entries as usize;
    let first = view.displacements[0];
    'groups: {
        for g in 0..fw.len() / n {
            let begin = g * n;
            for j in 0..n {
                let i = begin + j;
                let matches = entry_matches(
                    fw[i],
                    fd[i],
                    view.widths[j],
                    view.displacements[j],
                    fd[begin],
                    first,
                );
                if !matches {
                    break 'groups Some(GroupFault {
                        refusal: Refusal::Group,
                        entry: i,
                    });
                }
            }
            if fd[begin] < first {
                break 'groups Some(GroupFault {
                    refusal: Refusal::Origin,
                    entry: begin,
                });
            }
        }
        None
    }
}

// The origin of each group of `n` entries, put at the front of `out`, where the etype begins at `first`.
#[tactic(auto, using(laws::proofs::Stores::store_none, laws::proofs::Stores::store_more), unfolding(crate::specs::Parts::group_origin))]
fn copy_origins(fd: &[u64], n: usize, first: u64, out: &mut [u64])
    requires { (0 < n) × (length fd.now / n ≤ length out.old) }
    ensures { out.new ≡ front (group_origin fd.now n first) (length fd.now / n) out.old }
{
    // By index: of parts by `chunks_exact` and `enumerate` the invariant is not given the index, and the proof did not close.
    for g in 0..fd.len() / n {
        out[g] = fd[g * n].saturating_sub(first);
    }
}

// The record of a view of these numbers: the etype's lists `ew` and `ed`, and the origins of the filetype's displacements `fd`.
// The record's lists are arrays of the greatest length, as `PerEntry` of `view` says.
pub fn view_of(v: Numbers, ew: &[u64], ed: &[i64], fd: &[u64]) -> View
    requires { Recordable ew.now ed.now fd.now }
    ensures { result ≡ view_record v ew.now ed.now fd.now }
{
    let mut widths = [0u64; View::MAX_ETYPE_ENTRIES as usize];
    widths[..ew.len()].copy_from_slice(ew);
    let mut displacements = [0u64; View::MAX_ETYPE_ENTRIES as usize];
    copy_displacements(ed, &mut displacements);
    let mut origins = [0u64; View::MAX_INSTANCES as usize];
    copy_origins(fd, ew.len(), displacements[0], &mut origins);
    View {
        numbers: v,
        widths: widths,
        displacements: displacements,
        origins: origins,
    }
}
