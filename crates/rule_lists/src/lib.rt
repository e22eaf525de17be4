//! The limits of lent lists and numbers: checks 2 to 6 of a set, each over both types, in document 01's order.
#![tactic(auto)]

ghost use Rattle.std.specs.Prelude.{◌≡◌, length, not, position, zip};
ghost use Rattle.laws.specs.Checks.{also};
ghost use Rattle.rule_limits.specs.Parts.{signed_entry_fits};
ghost use Rattle.view.specs.Limits.{extent_allowed};
ghost use Rattle.view.specs.Parts.{fault_in};
ghost use Rattle.view.specs.Rules.{is_native};
ghost use Rattle.view.specs.Types.{view_of_lists};
ghost use Rattle.rule_lists.specs.Parts.{limits_fault};

use view::{Refusal, Refused};

const NATIVE: &[u8] = b"native";

// Whether a representation is exactly the six bytes `native`.
#[tactic(auto, using(crate::proofs::Lending::native_same), unfolding(view::specs::Rules::native_name))]
fn is_native(representation: &[u8]) -> bool
    ensures { result ≡ is_native representation.now }
{
    representation == NATIVE
}

// Whether both types' extents are in range.
#[tactic(auto, unfolding(laws::specs::Checks::also))]
fn extents_allowed(ex: i64, fx: i64) -> bool
    ensures { result ≡ also (extent_allowed ex) (extent_allowed fx) }
{
    rule_limits::extent_allowed(ex) && rule_limits::extent_allowed(fx)
}

// The first entry of a type that is not allowed, if there is one.
fn first_not_allowed(ws: &[u64], ds: &[i64]) -> Option<usize>
    ensures { result ≡ position (λ e. not (signed_entry_fits e.0 e.1)) (zip ws.now ds.now) }
{
    ws.iter()
        .zip(ds)
        .position(|(w, d)| !rule_limits::entry_allowed(*w, *d))
}

// What checks 2 to 6 say. Of 6 the etype's first entry that breaks it is named, or, if there is none, the filetype's. For our own crates.
// `ew`, `ed`, `ex` are the etype's widths, displacements and extent; `fw`, `fd`, `fx` the filetype's.
// The lists of both types come one by one, as `Handle::set_view` has them.
#[tactic(auto, using(crate::proofs::Limiting::limits_are), unfolding(view::specs::Parts::fault_in, view::specs::Parts::refusal_number, view::specs::Parts::named_by, view::specs::Parts::fault_by, crate::proofs::Limiting::up_to6, laws::specs::Checks::check))]
pub fn limits_fault(
    representation: &[u8],
    displacement: i64,
    ew: &[u64],
    ed: &[i64],
    ex: i64,
    fw: &[u64],
    fd: &[i64],
    fx: i64,
) -> Result<(), Refused>
    ensures { fault_in result ≡ limits_fault representation.now (view_of_lists displacement ew.now ed.now ex fw.now fd.now fx) }
{
    if !is_native(representation) {
        return Err(Refused::unnamed(Refusal::Representation));
    }
    if !rule_limits::displacement_allowed(displacement) {
        return Err(Refused::unnamed(Refusal::Displacement));
    }
    if !rule_limits::counts_allowed(ew.len(), ed.len(), fw.len(), fd.len()) {
        return Err(Refused::unnamed(Refusal::EntryCount));
    }
    if !extents_allowed(ex, fx) {
        return Err(Refused::unnamed(Refusal::Extent));
    }
    if let Some(i) = first_not_allowed(ew, ed) {
        return Err(Refused::of_etype(Refusal::Entry, i));
    }
    if let Some(j) = first_not_allowed(fw, fd) {
        return Err(Refused::of_filetype(Refusal::Entry, j));
    }
    Ok(())
}
