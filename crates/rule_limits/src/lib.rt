//! Document 01's limits of a view, tested on single numbers: no list is read. These functions are pub for our own crates.
#![tactic(auto)]

ghost use Rattle.std.specs.Prelude.{◌≡◌};
ghost use Rattle.view.specs.Limits.{width_allowed, extent_allowed, displacement_allowed};
ghost use Rattle.rule_limits.specs.Parts.{entry_fits, signed_entry_fits, lengths_allowed};

use view::View;

// Width: 1, 2, 4 or 8.
#[tactic(auto, unfolding(view::specs::Limits::width_allowed, laws::specs::Checks::either))]
pub fn width_allowed(w: u64) -> bool
    ensures { result ≡ width_allowed w }
{
    matches!(
        w,
        View::WIDTH_1 | View::WIDTH_2 | View::WIDTH_4 | View::WIDTH_8
    )
}

// Whether an entry of width `w` at `d` is allowed. Its end is added up only where the sum cannot wrap.
#[tactic(auto, using(view::proofs::Accepted::width_small), unfolding(crate::specs::Parts::entry_fits, laws::specs::Checks::also))]
pub fn entry_fits(w: u64, d: u64) -> bool
    ensures { result ≡ entry_fits w d }
{
    width_allowed(w) && d <= View::MAX_ENTRY_END && d + w <= View::MAX_ENTRY_END
}

// The same for a displacement that comes in signed.
#[tactic(auto, unfolding(crate::specs::Parts::signed_entry_fits, crate::specs::Parts::entry_fits, view::specs::Limits::entry_displacement_allowed, view::specs::Types::whole, laws::specs::Checks::also))]
pub fn entry_allowed(w: u64, d: i64) -> bool
    ensures { result ≡ signed_entry_fits w d }
{
    d >= View::MIN_ENTRY_DISPLACEMENT && entry_fits(w, view::natural(d))
}

// Whether each type's two lists have one length, and both entry counts are allowed.
#[tactic(auto, unfolding(crate::specs::Parts::lengths_allowed, view::specs::Limits::etype_entries_allowed, view::specs::Limits::filetype_entries_allowed, laws::specs::Checks::also, laws::specs::Checks::within))]
pub fn counts_allowed(ew: usize, ed: usize, fw: usize, fd: usize) -> bool
    ensures { result ≡ lengths_allowed ew ed fw fd }
{
    let n = ew as u64;
    let m = fw as u64;
    ew == ed
        && fw == fd
        && (View::MIN_ENTRIES..=View::MAX_ETYPE_ENTRIES).contains(&n)
        && (View::MIN_ENTRIES..=View::MAX_FILETYPE_ENTRIES).contains(&m)
        && m <= View::MAX_INSTANCES * n
}

// Whether an extent is in range. A negative one counts as 0, which is not.
#[tactic(auto, unfolding(view::specs::Limits::extent_allowed, view::specs::Types::whole, laws::specs::Checks::within, laws::specs::Checks::also))]
pub fn extent_allowed(x: i64) -> bool
    ensures { result ≡ extent_allowed x }
{
    let extent = view::natural(x);
    (View::MIN_EXTENT..=View::MAX_EXTENT).contains(&extent)
}

// Whether a view displacement is in range.
#[tactic(auto, unfolding(view::specs::Limits::displacement_allowed, view::specs::Types::whole))]
pub fn displacement_allowed(d: i64) -> bool
    ensures { result ≡ displacement_allowed d }
{
    d >= View::MIN_DISPLACEMENT && view::natural(d) <= View::MAX_DISPLACEMENT
}
