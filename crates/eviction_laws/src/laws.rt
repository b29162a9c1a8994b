//! Laws of lives without a crash: nothing is computed here.
ghost use Rattle.eviction_laws.specs.Evictions.{EvictionsOnlyPersist, LivesEnterNone, OtherLivesEnterNone, StartsEnterNone};

/// Two lists of steps of one life without a crash that differ in evictions alone give the same replies to steps, the same registers, live words and holders
/// of locks, the same begun steps, and as many releases that leave a hart with nothing. Only what is durable may differ, and so which steps are kept.
pub fn evictions_only_persist()
    ensures { EvictionsOnlyPersist }
{}

/// In a life without a crash no hart enters recovery: none at a machine's start, none where another life begins, and none by a step or an eviction.
pub fn lives_enter_none()
    ensures first { StartsEnterNone }
    ensures another { OtherLivesEnterNone }
    ensures events { LivesEnterNone }
{}
