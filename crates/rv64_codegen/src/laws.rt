//! What is true of the expressions of nodes, and of what is emitted for threads.
ghost use Rattle.rv64_codegen.specs.ThreadPieces.{EmittedIsCode};
ghost use Rattle.rv64_codegen.specs.Locals.{ReadsAreHeld, LiveIsEnough, FormedIsAtHome, FormedTargetIsAtHome};

/// Registers that hold the locals that an expression reads are those with which its code may begin.
pub fn reads_are_held()
    ensures { ReadsAreHeld }
{}

/// What a node reads is held where all that is live is.
pub fn live_is_enough()
    ensures { LiveIsEnough }
{}

/// All that a formed expression names has a home.
pub fn formed_is_at_home()
    ensures { FormedIsAtHome }
{}

/// What is assigned has a home.
pub fn target_is_at_home()
    ensures { FormedTargetIsAtHome }
{}

/// What is emitted for a thread is its code.
pub fn emitted_is_code()
    ensures { EmittedIsCode }
{}
