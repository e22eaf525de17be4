//! Check 1, and the checks that reads and writes share. The checks of every call, in document 01's order, are listed in specs/Refusals.antt.
//! A handle comes with its view lent, so that no call copies it.
#![tactic(auto)]

ghost use Rattle.std.specs.Prelude.{◌≡◌};
ghost use Rattle.handle.specs.Handles.{handle_valid, file_valid};
ghost use Rattle.view.specs.Parts.{refusal_in};
ghost use Rattle.handle.specs.Parts.{lent_handle};
ghost use Rattle.call_checks.specs.Refusals.{access_refusal};

use handle::{Access, FileNumbers, HandleRef};
use view::{Refusal, View};

// Check 1 where the file is not looked at, whatever the handle's numbers: mode, pointer and view.
pub fn handle_valid(h: HandleRef) -> bool
    ensures { result ≡ handle_valid (lent_handle h.entry) }
{
    if !View::mode_allowed(h.mode) {
        return false;
    }
    if View::OFFSET_COUNT < h.pointer {
        return false;
    }
    rule_view::is_accepted(h.mode, h.view)
}

// Check 1 where the file is looked at: also its length and its size.
pub fn file_valid(h: HandleRef, f: FileNumbers) -> bool
    ensures { result ≡ file_valid (lent_handle h.entry) f.length f.record }
{
    if !f.allowed() {
        return false;
    }
    handle_valid(h)
}

// Checks 1, 11, 12 and 13 of an access that the mode allows or not, with a buffer of `room` bytes.
// `allowed` comes as a bool, since the definition `access_refusal` takes it so.
pub fn access_refusal(
    allowed: bool,
    h: HandleRef,
    f: FileNumbers,
    access: Access,
    room: u64,
) -> Result<(), Refusal>
    ensures { refusal_in result ≡ access_refusal allowed (lent_handle h.entry) f.length f.record access.offset.0 access.count room 0 }
{
    if !file_valid(h, f) {
        return Err(Refusal::Handle);
    }
    if !allowed {
        return Err(Refusal::Mode);
    }
    if !access.allowed() {
        return Err(Refusal::Range);
    }
    let packed = h.view.data_size();
    let bytes = access.count * packed;
    if room < bytes {
        return Err(Refusal::Room);
    }
    Ok(())
}
