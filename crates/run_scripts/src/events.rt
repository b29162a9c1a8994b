//! Events that are known before a run.
ghost use Rattle.std.specs.Prelude.{◌≡◌, ◌↔◌, ◌+◌, ◌≤◌, ◌++◌, ℕ, All, length};
ghost use Rattle.machine_events.specs.Cores.{IsValid};

use machine_events::event::Event;
use machine_events::machine::Core;

/// Makes events on a core, one after another.
pub fn make_events<C: Core>(core: &mut C, events: &[Event])
    requires valid { All (IsValid (C.hart_count core.old) (C.evictable core.old)) events.now }
    requires room { length events.now ≤ C.space core.old }
    ensures opening { C.opening core.new ≡ C.opening core.old }
    ensures history { C.history core.new ≡ C.history core.old ++ events.now }
    ensures room { C.space core.new + length events.now ≡ C.space core.old }
    ensures harts { C.hart_count core.new ≡ C.hart_count core.old }
    ensures evictable { (line mask : ℕ) → C.evictable core.new line mask ↔ C.evictable core.old line mask }
{
    for event in events {
        core.event(*event);
    }
}
