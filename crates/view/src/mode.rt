// The modes of an open, and what each allows. A handle holds any number as its mode, and check 1 refuses those that are none, so a mode stays a number.
ghost use Rattle.std.specs.Prelude.{◌≡◌};
ghost use Rattle.view.specs.Modes.{mode_allowed, allows_reading, allows_writing};

use crate::View;

impl View {
    // The modes of an open: overlap is refused in a mode that allows writing. An open that names no mode has 0.
    pub const MODE_UNNAMED: u64 = 0;

    pub const MODE_READING: u64 = 1;

    pub const MODE_WRITING: u64 = 2;

    pub const MODE_BOTH: u64 = 3;

    // Mode 1, 2 or 3.
    #[tactic(auto, unfolding(crate::specs::Modes::mode_allowed, laws::specs::Checks::within, laws::specs::Checks::also))]
    pub fn mode_allowed(mode: u64) -> bool
        ensures { result ≡ mode_allowed mode }
    {
        (View::MODE_READING..=View::MODE_BOTH).contains(&mode)
    }

    // Mode 1 or 3.
    #[tactic(auto, unfolding(crate::specs::Modes::allows_reading, laws::specs::Checks::either, laws::specs::Checks::also))]
    pub fn allows_reading(mode: u64) -> bool
        ensures { result ≡ allows_reading mode }
    {
        matches!(mode, View::MODE_READING | View::MODE_BOTH)
    }

    // Mode 2 or 3.
    #[tactic(auto, unfolding(crate::specs::Modes::allows_writing, laws::specs::Checks::either, laws::specs::Checks::also))]
    pub fn allows_writing(mode: u64) -> bool
        ensures { result ≡ allows_writing mode }
    {
        matches!(mode, View::MODE_WRITING | View::MODE_BOTH)
    }
}
