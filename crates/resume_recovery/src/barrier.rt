//! Which harts still take locks.
ghost use Rattle.std.specs.Prelude.{◌≡◌, ◌<◌, ◌^◌, length};
ghost use Rattle.machine_model.specs.Machine.{is_taking};
ghost use Rattle.resume_recovery.specs.links.LeastLockTaker.{taking_among};

use machine_model::phase::Phase;

fn is_taking(phase: Phase) -> bool
    ensures { result ≡ is_taking phase }
{
    match phase {
        Phase::Take => true,
        _ => false,
    }
}

/// The least hart that still takes its locks.
pub fn least_taking(phases: &[Phase]) -> Option<u32>
    requires { length phases.now < 2 ^ 32 }
    ensures { result ≡ taking_among 0 phases.now }
{
    for (hart, phase) in phases.iter().enumerate() {
        if is_taking(*phase) {
            return Some(hart as u32);
        }
    }
    None
}
