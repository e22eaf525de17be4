// Setting a view, and getting it: document 01's giving back.
ghost use Rattle.std.specs.Prelude.{◌≡◌};
ghost use Rattle.view.specs.Types.{paper, view_of_lists, typemaps};
ghost use Rattle.view.specs.Acceptance.{Valid};
ghost use Rattle.view.specs.Parts.{refusal_number};
ghost use Rattle.file.specs.Parts.{set_view_answer, get_view_as, GetViewDone, set_view_as};

use crate::{GetViewAnswer, Handle, SetViewAnswer, TypeShape};
use view::{Named, Refusal, Refused};

// A refused set: the handle comes back as it came.
fn set_view_refused(refused: Refused, handle: Handle) -> SetViewAnswer
    ensures { result ≡ set_view_as (refusal_number refused.refusal) handle refused.named }
{
    let named = refused.named;
    SetViewAnswer {
        refusal: refused.refusal.number(),
        count: 0,
        handle: handle,
        named: named,
    }
}

// Entry count and extent of a type, as giving back answers them.
fn shape(entries: u64, extent: u64) -> TypeShape
    ensures { (result.entries ≡ entries) × (result.extent ≡ extent) }
{
    TypeShape {
        entries: entries,
        extent: extent,
    }
}

// The answer of a giving back that is granted: both entry counts, both extents and the displacement of the handle's view.
fn get_view_granted(handle: Handle) -> GetViewAnswer
    requires { Valid (paper handle.view) }
    ensures { result ≡ get_view_as 0 handle }
{
    let entries = handle.view.numbers.etype.entries;
    let all = handle.view.numbers.filetype.instances * entries;
    GetViewAnswer {
        refusal: 0,
        count: 0,
        handle: handle,
        displacement: handle.view.numbers.displacement,
        etype: shape(entries, handle.view.numbers.etype.extent),
        filetype: shape(all, handle.view.numbers.filetype.extent),
    }
}

// One that is refused: zeros.
fn get_view_refused(refusal: Refusal, handle: Handle) -> GetViewAnswer
    ensures { result ≡ get_view_as (refusal_number refusal) handle }
{
    GetViewAnswer {
        refusal: refusal.number(),
        count: 0,
        handle: handle,
        displacement: 0,
        etype: shape(0, 0),
        filetype: shape(0, 0),
    }
}

impl Handle {
    // Sets the view that the lent lists describe, and the pointer to 0; a refusal may name the entry that breaks a rule. Widths, displacements and extent of the etype (ew, ed, ex) and of the filetype (fw, fd, fx).
    pub fn set_view(
        mut self,
        representation: &[u8],
        displacement: i64,
        ew: &[u64],
        ed: &[i64],
        ex: i64,
        fw: &[u64],
        fd: &[i64],
        fx: i64,
    ) -> SetViewAnswer
        ensures { result ≡ set_view_answer self representation.now
            (view_of_lists displacement ew.now ed.now ex fw.now fd.now fx) }
    {
        if !call_checks::handle_valid(self.lent()) {
            return set_view_refused(Refused::unnamed(Refusal::Handle), self);
        }
        let mode = self.mode;
        match rule_set::accept(mode, representation, displacement, ew, ed, ex, fw, fd, fx) {
            Ok(view) => {
                self.view = view;
                self.pointer = 0;
                SetViewAnswer {
                    refusal: 0,
                    count: 0,
                    handle: self,
                    named: Named::Nothing,
                }
            }
            Err(refused) => set_view_refused(refused, self),
        }
    }

    // Document 01's giving back: the view's typemaps at the front of the four lists, both entry counts, both extents and the displacement.
    pub fn get_view(
        self,
        ew: &mut [u64],
        ed: &mut [i64],
        fw: &mut [u64],
        fd: &mut [i64],
    ) -> GetViewAnswer
        ensures { GetViewDone self
            (typemaps ew.old ed.old fw.old fd.old)
            (typemaps ew.new ed.new fw.new fd.new) result }
    {
        match call_query::get_view(self.lent(), ew, ed, fw, fd) {
            Ok(()) => get_view_granted(self),
            Err(refusal) => get_view_refused(refusal, self),
        }
    }
}
