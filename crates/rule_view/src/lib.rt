//! The test of a view as its record stands, whatever its numbers: does it keep the limits and rules for a mode?
//! The parts are tested on the record, at a cost that grows with the etype's entries plus the instances, and no list is copied. Only where a view for writing has tiles that are not in order are its entries compared (`rule_overlap`).
#![tactic(auto)]

ghost use Rattle.std.specs.Prelude.{true, ◌≡◌};
ghost use Rattle.view.specs.Types.{paper};
ghost use Rattle.view.specs.Acceptance.{accepted};
ghost use Rattle.rule_view.specs.Parts.{etype_accepted, filetype_accepted, shape_apart, ShapeValid};

use view::View;

// Whether an etype keeps its limits and is ordered.
#[tactic(auto, unfolding(crate::specs::Parts::etype_accepted, laws::specs::Checks::also, laws::specs::Checks::within))]
fn etype_valid(view: &View) -> bool
    ensures { result ≡ etype_accepted view.now }
{
    let etype = view.numbers.etype;
    let n = etype.entries as usize;
    (View::MIN_ENTRIES..=View::MAX_ETYPE_ENTRIES).contains(&etype.entries)
        && (View::MIN_EXTENT..=View::MAX_EXTENT).contains(&etype.extent)
        && rule_entries::entries_fit(view)
        && sorting::never_decrease(&view.displacements[..n])
}

// Whether a filetype of instances of a valid etype keeps its limits, is ordered, and has holes that fit.
#[tactic(auto, unfolding(crate::specs::Parts::filetype_accepted, laws::specs::Checks::also, laws::specs::Checks::within))]
fn filetype_valid(view: &View) -> bool
    requires { etype_accepted view.now ≡ true }
    ensures { result ≡ filetype_accepted view.now }
{
    let n = view.numbers.etype.entries;
    let filetype = view.numbers.filetype;
    let last = (n - 1) as usize;
    (View::MIN_INSTANCES..=View::MAX_INSTANCES).contains(&filetype.instances)
        && filetype.instances * n <= View::MAX_FILETYPE_ENTRIES
        && (View::MIN_EXTENT..=View::MAX_EXTENT).contains(&filetype.extent)
        && rule_instances::instances_fit(view, view.reach())
        && rule_instances::instances_step(view, view.displacements[last], view.displacements[0])
        && rule_instances::holes_fit(view)
}

// Whether the tiles of a filetype of valid shape are in order: each entry ends at or before the next one begins, the last one before the next tile's first. Then no bytes clash.
#[tactic(auto, unfolding(crate::specs::Parts::shape_apart, laws::specs::Checks::also))]
fn shape_apart(view: &View) -> bool
    requires { ShapeValid view.now }
    ensures { result ≡ shape_apart view.now }
{
    let last = (view.numbers.etype.entries - 1) as usize;
    let end = view.displacements[last] + view.widths[last];
    let begin = view.displacements[0];
    let instance = (view.numbers.filetype.instances - 1) as usize;
    rule_entries::entries_apart(view)
        && rule_instances::instances_step(view, end, begin)
        && view.origins[instance] + end <= view.origins[0] + begin + view.numbers.filetype.extent
}

// Whether the view, whatever stands in it, keeps the limits and rules for this mode.
pub fn is_accepted(mode: u64, view: &View) -> bool
    ensures { result ≡ accepted mode (paper view.now) }
{
    view.numbers.displacement <= View::MAX_DISPLACEMENT
        && etype_valid(view)
        && filetype_valid(view)
        && (!View::allows_writing(mode) || shape_apart(view) || rule_overlap::view_clear(view))
}
