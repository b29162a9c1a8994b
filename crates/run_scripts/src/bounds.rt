//! How many events a script makes at most, as its lines tell before any is made.
ghost use Rattle.std.specs.Prelude.{◌≡◌, ◌<◌, ◌^◌, map, min};
ghost use Rattle.run_scripts.specs.Bounds.{line_bound, lines_bound};
ghost use Rattle.run_scripts.specs.links.ScriptViews as views;

use crate::script::{Command, Script};
use ido_base::limits::MOST_STEPS_TO;

/// Events that a line makes at most.
fn line_bound(command: Command) -> u64
    ensures bound { result ≡ line_bound command }
    ensures fits { result < 2 ^ 32 }
{
    match command {
        Command::Steps { count, .. } | Command::Enabled { count } => u64::from(count),
        Command::Point { .. } | Command::Fence { .. } => MOST_STEPS_TO,
        Command::Evict { .. } | Command::Crash | Command::Start => 1,
    }
}

/// Events that a script makes at most on any core, or the limit where that is less.
pub fn script_bound(script: &Script, limit: u32) -> u64
    ensures { result ≡ min limit (lines_bound (map views.line_of script.now.lines.items)) }
{
    let limit = u64::from(limit);
    let mut bound = 0;
    for line in &script.lines {
        bound = limit.min(bound + line_bound(line.command));
    }
    bound
}
