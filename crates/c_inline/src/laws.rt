//! Laws of calls and of the flat form: nothing is computed here.
ghost use Rattle.c_inline.specs.CallLaws.{BodiesAreBodies, CallersAreKept, DepthIsEnough, LocalsGrow};
ghost use Rattle.c_inline.specs.CallLaws.{LocalsAreNew, NoneIsShared, ParametersHold, UnassignedAreKept};
ghost use Rattle.c_inline.specs.FormLaws.{FlatIsFormed, FlatIsPlain};

/// Where no call leads back, calls are no deeper than there are functions: the flat form doesn't change
/// where deeper ones are allowed, and each call in it is the whole body of its function.
pub fn depth_is_enough()
    ensures deeper { DepthIsEnough }
    ensures whole { BodiesAreBodies }
{}

/// What a call becomes has locals of its own: they come after those that there are, and no other call
/// has them. Of the caller's it reads those of the arguments and of the target's index, and assigns the
/// target.
pub fn calls_have_their_own_locals()
    ensures grow { LocalsGrow }
    ensures not_shared { NoneIsShared }
    ensures new { LocalsAreNew }
{}

/// Until a call is done, its caller's locals are what they were, but for the call's target.
pub fn calls_keep_their_callers()
    ensures statements { UnassignedAreKept }
    ensures calls { CallersAreKept }
{}

/// The flat form of a well formed program whose indexes fit, that follows no reference which may be null, and in which no
/// call leads back, is well formed.
pub fn flat_is_formed()
    ensures { FlatIsFormed }
{}

/// In the flat form of a program in which no mutex is in an array none is, either.
pub fn flat_is_plain()
    ensures { FlatIsPlain }
{}

/// Once the arguments of a call are passed, its parameters hold their values, converted to the parameters' kinds.
pub fn parameters_hold_arguments()
    ensures { ParametersHold }
{}
