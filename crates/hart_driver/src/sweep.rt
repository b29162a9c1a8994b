//! Outcomes of one run cut short at each of its points, found in threads beside each other.
ghost use Rattle.std.specs.Prelude.{◌≡◌, ◌+◌, ◌<◌, ◌≤◌, ◌^◌, ◌++◌, ◌∷◌, [], ℕ, IfOk, OnOk};
ghost use denote.Param.Send.{IsSync};
ghost use Rattle.hart_driver.specs.declared.sweep.Outcome.{Outcome};
ghost use Rattle.hart_driver.specs.Outcomes.{AreOutcomes};

use crate::report::Report;
use ido_base::memory::OutOfMemory;
use ido_outside::Gate;
use std::alloc::Global;
use std::thread::{Threads, join};

/// Parts into which the points are halved, each of which has a thread of its own.
const MOST_PARTS: u32 = 32;

/// What became of a run that was cut short at a point.
#[derive(Drop)]
pub struct Outcome {
    /// Whether nothing is left to be done.
    pub settled: bool,
    pub report: Report,
}

/// A run that can be made again up to any of its points, and from there to an outcome.
pub trait Replay {
    /// There is such a point. What else the run's maker has to know of it is for the implementation to say.
    ghost has_point: { Self → ℕ → Type 0 };

    /// This is the outcome of that point.
    ghost is_outcome: { Self → ℕ → Outcome → Type 0 };

    /// The outcome of a point.
    fn outcome(&self, k: u32) -> Result<Outcome, OutOfMemory>
        requires { has_point self.now k }
        ensures { IfOk result (λ o. is_outcome self.now k o) };
}

/// Adds an outcome.
fn push(outcomes: &mut Vec<Outcome>, outcome: Outcome) -> Result<(), OutOfMemory>
    ensures { OnOk result (outcomes.new.items ≡ outcomes.old.items ++ outcome ∷ []) }
{
    outcomes.push(outcome)?;
    Ok(())
}

/// Adds more of them.
fn append(outcomes: &mut Vec<Outcome>, mut more: Vec<Outcome>) -> Result<(), OutOfMemory>
    ensures { OnOk result (outcomes.new.items ≡ outcomes.old.items ++ more.items) }
{
    outcomes.append(&mut more)?;
    Ok(())
}

/// The outcome, which has the bytes of its report in memory where the last one of those before it has them, if both reports are equal.
fn merged(before: &[Outcome], outcome: Outcome) -> Result<Outcome, OutOfMemory>
    ensures { IfOk result (λ merged. merged ≡ outcome) }
{
    if let [.., last] = before {
        if last.report.bytes() == outcome.report.bytes() {
            let report = last.report.shared()?;
            return Ok(Outcome {
                settled: outcome.settled,
                report,
            });
        }
    }
    Ok(outcome)
}

/// The outcomes of so many points from this one on, one after another. Equal reports that follow one another are in memory once.
fn outcomes_in_turn<P: Replay, G: Gate>(
    alloc: Global,
    replay: &P,
    gate: &G,
    first: u64,
    count: u64,
) -> Result<Vec<Outcome>, OutOfMemory>
    requires room { first + count ≤ 2 ^ 32 }
    requires points { (k : ℕ) → first ≤ k → k < first + count → P.has_point replay.now k }
    ensures { IfOk result (λ v. AreOutcomes (P.is_outcome replay.now) first count v.items) }
{
    let mut outcomes = Vec::new(alloc);
    for k in first..first + count {
        gate.pass(k as u32, 1);
        let outcome = replay.outcome(k as u32)?;
        let one = merged(&outcomes, outcome)?;
        push(&mut outcomes, one)?;
    }
    Ok(outcomes)
}

/// The outcomes of so many points from this one on, found in so many threads at most.
#[cycle(halves)]
fn outcomes_from<R: Threads + Sync, P: Replay + Sync, G: Gate + Sync>(
    rt: &R,
    alloc: Global,
    replay: &P,
    gate: &G,
    first: u64,
    count: u64,
    parts: u32,
) -> Result<Vec<Outcome>, OutOfMemory>
    requires room { first + count ≤ 2 ^ 32 }
    requires points { (k : ℕ) → first ≤ k → k < first + count → P.has_point replay.now k }
    ensures { IfOk result (λ v. AreOutcomes (P.is_outcome replay.now) first count v.items) }
{
    if parts <= 1 || count <= 1 {
        return outcomes_in_turn(alloc, replay, gate, first, count);
    }
    let low = count / 2;
    let high = count - low;
    let next = first + low;
    let half = parts / 2;
    let front = move || -> Result<Vec<Outcome>, OutOfMemory>
        requires { IsSync R.row × IsSync P.row × IsSync G.row × (first + low ≤ 2 ^ 32) × ((k : ℕ) → first ≤ k → k < first + low → P.has_point replay.now k) }
        ensures { IfOk result (λ v. AreOutcomes (P.is_outcome replay.entry.now) first low v.items) }
    { outcomes_from(rt, alloc, replay, gate, first, low, half) };
    let back = move || -> Result<Vec<Outcome>, OutOfMemory>
        requires { IsSync R.row × IsSync P.row × IsSync G.row × (next + high ≤ 2 ^ 32) × ((k : ℕ) → next ≤ k → k < next + high → P.has_point replay.now k) }
        ensures { IfOk result (λ v. AreOutcomes (P.is_outcome replay.entry.now) next high v.items) }
    { outcomes_from(rt, alloc, replay, gate, next, high, half) };
    let (a, b) = join(rt, front, back);
    let mut outcomes = a?;
    append(&mut outcomes, b?)?;
    Ok(outcomes)
}

/// The outcomes of the points from 0 to this one, in order: whatever threads find them, they are those that one thread would find one after
/// another. Before each of them the gate is passed, with its number and 1.
pub fn sweep<R: Threads + Sync, P: Replay + Sync, G: Gate + Sync>(
    rt: &R,
    alloc: Global,
    replay: &P,
    last: u32,
    gate: &G,
) -> Result<Vec<Outcome>, OutOfMemory>
    requires { (k : ℕ) → k ≤ last → P.has_point replay.now k }
    ensures { IfOk result (λ v. AreOutcomes (P.is_outcome replay.now) 0 (last + 1) v.items) }
{
    outcomes_from(rt, alloc, replay, gate, 0, u64::from(last) + 1, MOST_PARTS)
}
