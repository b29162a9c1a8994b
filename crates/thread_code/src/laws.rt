//! What is true of registers at nodes.
ghost use Rattle.thread_code.specs.Laws.{EntersAgain, IsReadyAgain, ReadyWhatever};

/// A thread may enter a node with any registers that hold what a boundary keeps.
pub fn kept_registers_suffice()
    ensures { EntersAgain }
{}

/// And go on at its core, with any that hold what the boundary before it keeps.
pub fn kept_registers_suffice_at_cores()
    ensures { IsReadyAgain }
{}

/// Whatever variables have.
pub fn cores_see_no_variable()
    ensures { ReadyWhatever }
{}
