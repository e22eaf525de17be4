// Open.
ghost use Rattle.std.specs.Prelude.{◌≡◌};
ghost use Rattle.file.specs.Parts.{fresh_handle, open_answer, open_as};
ghost use Rattle.file.specs.Handles.{mode_got};

use crate::{Handle, OpenAnswer};
use view::{Refusal, View};

fn open_answer(refusal: u64, handle: Handle) -> OpenAnswer
    ensures { result ≡ open_as refusal handle }
{
    OpenAnswer {
        refusal: refusal,
        count: 0,
        handle: handle,
    }
}

// The mode that an open gets.
fn mode_got(mode: u64) -> u64
    ensures { result ≡ mode_got mode }
{
    if mode == Handle::MODE_UNNAMED {
        Handle::MODE_BOTH
    } else {
        mode
    }
}

impl Handle {
    // A handle with the default view and pointer 0.
    fn fresh(mode: u64) -> Handle
        ensures { result ≡ fresh_handle mode }
    {
        let view = View::linear();
        Handle {
            mode: mode,
            pointer: 0,
            view: view,
        }
    }

    // Opens: the default view, pointer 0 and the mode got. A refused open's handle has mode 0.
    pub fn open(mode: u64) -> OpenAnswer
        ensures { result ≡ open_answer mode }
    {
        if Handle::MODE_BOTH < mode {
            return open_answer(
                Refusal::OpenMode.number(),
                Handle::fresh(Handle::MODE_UNNAMED),
            );
        }
        open_answer(0, Handle::fresh(mode_got(mode)))
    }
}
