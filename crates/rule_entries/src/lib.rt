//! Tests of the single rules on a type's lists. The test of a view's record and acceptance are made of these and of the tests on a filetype's origins.
//! By index, as the definitions' `nth`: two lists, and neighbours in one of them.
#![tactic(auto)]

ghost use Rattle.std.specs.Prelude.{ℕ, ◌≡◌, ◌≤◌, ◌<◌, ◌+◌, ◌-◌, length};
ghost use Rattle.laws.specs.Lists.{nth};
ghost use Rattle.laws.specs.Search.{least_false, all};
ghost use Rattle.view.specs.Parts.{max_etype_entries, max_entry_end, entry_end, in_order, EntriesValid};
ghost use Rattle.rule_entries.specs.Parts.{entry_fits_at, apart_at, apart_in, ListsReady};

use view::View;

// Whether each entry of an etype is allowed. For our own crates.
pub fn entries_fit(view: &View) -> bool
    requires { view.now.numbers.etype.entries ≤ max_etype_entries }
    ensures { result ≡ all (entry_fits_at view.now.widths view.now.displacements) view.now.numbers.etype.entries }
{
    let n = view.numbers.etype.entries as usize;
    (0..n).all(|i| rule_limits::entry_fits(view.widths[i], view.displacements[i]))
}

// The first entry that lies below the one before it, or a number past the last entry if there is none. For our own crates.
// The number past the last stands for none, as `least_false` has it, on which `order_entry`, `hole_entry` and `overlap_entry` rest.
pub fn first_out_of_order(ds: &[u64]) -> usize
    ensures { result ≡ least_false (in_order (nth ds.now)) (length ds.now - 1) + 1 }
{
    (1..ds.len())
        .find(|i| ds[*i] < ds[*i - 1])
        .unwrap_or(ds.len().max(1))
}

// Whether each entry but the last ends at or before the next one begins.
fn ends_follow(ws: &[u64], ds: &[u64]) -> bool
    requires { (0 < length ws.now) × (length ds.now ≡ length ws.now) × ((i : ℕ) → i < length ws.now → entry_end ws.now ds.now i ≤ max_entry_end) }
    ensures { result ≡ all (apart_at ws.now ds.now) (length ws.now - 1) }
{
    (0..ws.len() - 1).all(|i| ds[i] + ws[i] <= ds[i + 1])
}

// Whether each entry of the etype ends at or before the next one begins. For our own crates.
pub fn entries_apart(view: &View) -> bool
    requires { EntriesValid view.now.numbers.etype.entries view.now.widths view.now.displacements }
    ensures { result ≡ all (apart_at view.now.widths view.now.displacements) (view.now.numbers.etype.entries - 1) }
{
    let n = view.numbers.etype.entries as usize;
    ends_follow(&view.widths[..n], &view.displacements[..n])
}

// Whether each entry of a filetype ends at or before the next one begins, the last one before the first one of the next tile. For our own crates.
pub fn filetype_apart(ws: &[u64], ds: &[u64], extent: u64) -> bool
    requires { ListsReady ws.now ds.now extent }
    ensures { result ≡ all (apart_in ws.now ds.now extent) (length ws.now) }
{
    let last = ws.len() - 1;
    ends_follow(ws, ds) && ds[last] + ws[last] <= ds[0] + extent
}
