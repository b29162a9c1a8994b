//! Laws of steps in runs of well formed flat forms: nothing is computed here.
ghost use Rattle.source_machine.specs.StepAnswers.{EndedIsOver, WaitsIsHeld};

/// In every state of a run of a well formed flat form, `Ended` says that the thread's last step is done, and
/// `Waits` that the thread stands at the lock of that mutex and that a thread holds it.
pub fn answers_say_why()
    ensures ended { EndedIsOver }
    ensures waits { WaitsIsHeld }
{}
