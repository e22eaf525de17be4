//! Tests of the single rules on a filetype's origins: where its instances end, how one follows another, and the holes between them.
//! Neighbours by index: `windows` gives slices, whose two places would be indexed again.
#![tactic(auto)]

ghost use Rattle.std.specs.Prelude.{◌≡◌, ◌+◌, ◌-◌, ◌%◌, ◌≤◌, ◌<◌, eqb};
ghost use Rattle.laws.specs.Lists.{nth};
ghost use Rattle.laws.specs.Search.{least_false, all};
ghost use Rattle.view.specs.Parts.{max_instances, max_entry_end, holes_fit};
ghost use Rattle.rule_instances.specs.Parts.{OriginsValid, reach_at, origins_step, hole_fits};

use view::View;

// Whether each instance ends within the limit. For our own crates.
pub fn instances_fit(view: &View, reach: u64) -> bool
    requires { (view.now.numbers.filetype.instances ≤ max_instances) × (reach ≤ max_entry_end) }
    ensures { result ≡ all (reach_at view.now.origins reach) view.now.numbers.filetype.instances }
{
    let k = view.numbers.filetype.instances as usize;
    let last = View::MAX_ENTRY_END - reach;
    view.origins[..k].iter().all(|p| *p <= last)
}

// Whether `a` from the beginning of each instance is at most `b` from the beginning of the next. For our own crates.
pub fn instances_step(view: &View, a: u64, b: u64) -> bool
    requires { OriginsValid view.now.numbers.filetype.instances view.now.origins × (a ≤ max_entry_end) × (b ≤ max_entry_end) }
    ensures { result ≡ origins_step view.now.origins view.now.numbers.filetype.instances a b }
{
    let last = view.numbers.filetype.instances as usize - 1;
    (0..last).all(|g| view.origins[g] + a <= view.origins[g + 1] + b)
}

// Whether a step from one beginning to the next, less the extent `e`, is a multiple of it.
fn gap_fits(step: u64, e: u64) -> bool
    requires { 0 < e }
    ensures { result ≡ eqb ((step - e) % e) 0 }
{
    step.saturating_sub(e) % e == 0
}

// The first hole of a filetype that is no multiple of the etype's extent: the number of the instance after it, for the final one the number of instances; one more if there is none. For our own crates.
// The number past the last stands for none, as `least_false` has it, on which `hole_entry` rests.
pub fn first_hole(view: &View) -> usize
    requires { (0 < view.now.numbers.filetype.instances) × (view.now.numbers.filetype.instances ≤ max_instances) × (0 < view.now.numbers.etype.extent) }
    ensures { result ≡ least_false (hole_fits view.now.origins view.now.numbers.filetype.instances view.now.numbers.etype.extent view.now.numbers.filetype.extent) (view.now.numbers.filetype.instances + 1) }
{
    let k = view.numbers.filetype.instances as usize;
    let extent = view.numbers.filetype.extent;
    let e = view.numbers.etype.extent;
    let begin = view.origins[0];
    if begin % e != 0 {
        return 0;
    }
    for i in 1..k {
        let step = view.origins[i].saturating_sub(view.origins[i - 1]);
        if !gap_fits(step, e) {
            return i;
        }
    }
    let end = extent.saturating_sub(view.origins[k - 1]);
    if !gap_fits(end, e) {
        return k;
    }
    k + 1
}

// Whether each hole of a filetype is a multiple of the etype's extent. For our own crates.
// Check 1 asks this in every call and needs no entry, so it has a loop of its own, which takes fewer instructions than `first_hole`.
pub fn holes_fit(view: &View) -> bool
    requires { (0 < view.now.numbers.filetype.instances) × (view.now.numbers.filetype.instances ≤ max_instances) × (0 < view.now.numbers.etype.extent) }
    ensures { result ≡ holes_fit (nth view.now.origins) view.now.numbers.filetype.instances view.now.numbers.etype.extent view.now.numbers.filetype.extent }
{
    let k = view.numbers.filetype.instances as usize;
    let extent = view.numbers.filetype.extent;
    let e = view.numbers.etype.extent;
    if view.origins[0] % e != 0 {
        return false;
    }
    for i in 1..k {
        let shift = view.origins[i].saturating_sub(view.origins[i - 1]);
        if !gap_fits(shift, e) {
            return false;
        }
    }
    let rest = extent.saturating_sub(view.origins[k - 1]);
    gap_fits(rest, e)
}
