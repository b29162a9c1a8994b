//! What holds of journals: nothing is computed here.
ghost use Rattle.run_scripts.specs.Laws.{ArePlayedBack};

use machine_events::machine::Core;

/// The lines that a journal has after its source are read as a script again, and that script makes the journal's events, whatever the core represents.
pub fn journals_are_played_back<C: Core>()
    ensures { ArePlayedBack C.behaviour }
{}
