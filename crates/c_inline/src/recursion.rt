//! Calls that lead back to the function that they stand in.
ghost use Rattle.std.specs.Prelude.{◌≡◌, ◌<◌, ◌≤◌, ◌+◌, ℕ, List, ◌++◌, ◌∷◌, [], ◌⊎◌, ◌↔◌, IsTrue, true, false, length};
ghost use Rattle.std.specs.Prelude.{IfOk, OnOk, MatchBool, MatchOption, IfSome, Contains, slice_get, slice_set, Some};
ghost use Rattle.c_tree.specs.Inlining as i;
ghost use Rattle.c_inline.specs.links.Calls.{call_of, lists_of, calls_at, CallsLead, LeadsBack, IsFirstBack};
ghost use Rattle.c_inline.specs.links.CallRanks.{AreRanks};
ghost use Rattle.c_inline.specs.links.ReachedFunctions.{IsReachedFunction, IsBackBelow, IsBetter};

use crate::calls::Call;
use crate::rank::rank_of;
use ido_base::place::Place;
use std::alloc::{AllocError, Global};

/// Whether calls lead from the one function to the other, or they are one.
fn leads(alloc: Global, calls: &[Vec<Call>], from: u32, to: usize) -> Result<bool, AllocError>
    requires { to < length calls.now }
    ensures { IfOk result (λ b. MatchBool b (CallsLead (lists_of calls.now) to from) (¬ (CallsLead (lists_of calls.now) to from))) }
{
    let mut reached = vec![in alloc; false; calls.len()]?;
    let mut waiting = Vec::new(alloc);
    reach(&mut reached, &mut waiting, from)?;
    while let Some(function) = waiting.pop() {
        if function as usize == to {
            return Ok(true);
        }
        for call in &calls[function as usize] {
            reach(&mut reached, &mut waiting, call.function)?;
        }
    }
    Ok(false)
}

/// A function that exists and wasn't reached yet is reached, and waits for its own calls to be followed.
fn reach(reached: &mut Vec<bool>, waiting: &mut Vec<u32>, function: u32) -> Result<(), AllocError>
    ensures { OnOk result (IsReachedFunction reached.old.items waiting.old.items function reached.new.items waiting.new.items) }
{
    let number = function as usize;
    if number < reached.len() && !reached[number] {
        waiting.push(function)?;
        reached[number] = true;
    }
    Ok(())
}

/// The place of a call in a function, where it leads back and comes before the best one; else the best one.
fn better(
    alloc: Global,
    calls: &[Vec<Call>],
    ranks: &[Option<u32>],
    number: usize,
    call: Call,
    best: Option<Place>,
) -> Result<Option<Place>, AllocError>
    requires exists { number < length calls.now }
    requires ranks { AreRanks (lists_of calls.now) ranks.now }
    ensures { IfOk result (IsBetter (lists_of calls.now) number (call_of call) best) }
{
    if !is_before(call.place, best) {
        return Ok(best);
    }
    if rank_of(ranks, call.function as usize) < rank_of(ranks, number) {
        return Ok(best);
    }
    if leads(alloc, calls, call.function, number)? {
        return Ok(Some(call.place));
    }
    Ok(best)
}

/// The place of the first of a function's calls that leads back, or the best one where that comes first.
fn first_back_in(
    alloc: Global,
    calls: &[Vec<Call>],
    ranks: &[Option<u32>],
    number: usize,
    mut best: Option<Place>,
) -> Result<Option<Place>, AllocError>
    requires exists { number < length calls.now }
    requires ranks { AreRanks (lists_of calls.now) ranks.now }
    requires best { IsBackBelow (lists_of calls.now) number best }
    ensures { IfOk result (IsBackBelow (lists_of calls.now) (number + 1)) }
{
    for call in &calls[number] {
        best = better(alloc, calls, ranks, number, *call, best)?;
    }
    Ok(best)
}

/// Whether a place comes before one, or there is none.
fn is_before(place: Place, best: Option<Place>) -> bool
    ensures { MatchOption best (result ≡ true) (λ b. MatchBool result (place.0 < b.0) (b.0 ≤ place.0)) }
{
    match best {
        Some(best) => place.0 < best.0,
        None => true,
    }
}

/// The place of the first call that leads back. None leads back to a function of a higher rank than that of the one that
/// is called.
pub fn first_back(
    alloc: Global,
    calls: &[Vec<Call>],
    ranks: &[Option<u32>],
) -> Result<Option<Place>, AllocError>
    requires { AreRanks (lists_of calls.now) ranks.now }
    ensures { IfOk result (λ best. MatchOption best ((c : i.Call) → ¬ (LeadsBack (lists_of calls.now) c)) (IsFirstBack (lists_of calls.now))) }
{
    let mut best = None;
    for number in 0..calls.len() {
        best = first_back_in(alloc, calls, ranks, number, best)?;
    }
    Ok(best)
}
