//! What holds of forms whose checks find no fault: nothing is computed here.
ghost use Rattle.flat_analysis.specs.LiveKeys.{HeldKeysAreLive};

/// Each local that a held key reads is live, from the lock that takes the key's name to the unlock that gives it back.
pub fn held_keys_are_live()
    ensures { HeldKeysAreLive }
{}
