//! The table of outcomes.
ghost use Rattle.std.specs.Prelude.{◌≡◌, ◌≢◌, ◌+◌, ◌≤◌, ◌++◌, length, replicate, slice_get, take, IfOk, OnOk, Some};
ghost use Rattle.ido_cli.specs.Sweeps.{IsTable, reports_of, run_text};

use hart_driver::report::Report;
use hart_driver::sweep::Outcome;
use ido_base::memory::OutOfMemory;
use run_scripts::report::put;
use std::alloc::Global;

/// How many outcomes at the front have this report.
fn run_length(outcomes: &[Outcome], report: &Report) -> usize
    ensures within { result ≤ length outcomes.now }
    ensures front { take result (reports_of outcomes.now) ≡ replicate result report.now }
    ensures stops { slice_get (reports_of outcomes.now) result ≢ Some report.now }
{
    for (i, outcome) in outcomes.iter().enumerate() {
        if outcome.report.bytes() != report.bytes() {
            return i;
        }
    }
    outcomes.len()
}

/// Adds `from A to B` and the report of these points.
#[tactic(auto, unfolding(crate::specs::Sweeps::run_text))]
fn put_run(
    alloc: Global,
    text: &mut Vec<u8>,
    first: usize,
    last: usize,
    report: &Report,
) -> Result<(), OutOfMemory>
    ensures { OnOk result (text.new.items ≡ text.old.items ++ run_text first last report.now) }
{
    let line = format!(in alloc; "from {first} to {last}\n")?;
    put(text, line.as_bytes())?;
    put(text, report.bytes())
}

/// The table of outcomes, the first of them that of point 0: for each longest run of equal reports the line `from A to B` and that report.
pub fn table(alloc: Global, outcomes: &[Outcome]) -> Result<Vec<u8>, OutOfMemory>
    ensures { IfOk result (λ text. IsTable 0 (reports_of outcomes.now) text.items) }
{
    let mut text = Vec::new(alloc);
    let mut rest = outcomes;
    let mut first = 0usize;
    while let [outcome, after @ ..] = rest {
        let more = run_length(after, &outcome.report);
        let (_, left) = after.split_at(more);
        put_run(alloc, &mut text, first, first + more, &outcome.report)?;
        first += more + 1;
        rest = left;
    }
    Ok(text)
}
