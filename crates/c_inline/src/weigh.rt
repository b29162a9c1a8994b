//! What functions weigh, found once for each.
ghost use Rattle.std.specs.Prelude.{◌≡◌, ◌<◌, ◌+◌, ℕ, map, length, IfOk, MatchBool, Contains};
ghost use Rattle.c_tree.specs.Inlining as i;
ghost use Rattle.c_tree.specs.Programs.{function_of};
ghost use Rattle.c_inline.specs.links.Calls.{calls_of, function_calls, lists_of};
ghost use Rattle.c_inline.specs.links.KnownWeights.{AreRight, IsUnknown, CallsUnknown, IsClosed, found};

use crate::calls::Call;
use crate::weight::{Weights, statements_weight};
use c_tree::program::Function;
use std::alloc::{AllocError, Global};

/// Whether what is called exists and isn't known yet.
fn is_unknown(known: &[Option<u64>], function: u32) -> bool
    ensures { MatchBool result (IsUnknown known.now function) (¬ (IsUnknown known.now function)) }
{
    matches!(known.get(function as usize), Some(None))
}

/// Whether all that is called is known.
fn is_ready(known: &[Option<u64>], calls: &[Call]) -> bool
    ensures { MatchBool result
        ((c : i.Call) → Contains (calls_of calls.now) c → ¬ (IsUnknown known.now c.function))
        ((c : i.Call) × Contains (calls_of calls.now) c × IsUnknown known.now c.function) }
{
    for call in calls {
        if is_unknown(known, call.function) {
            return false;
        }
    }
    true
}

/// Finds what a function weighs, where all that it calls is known. Answers whether it was found now.
fn weigh_function(
    weights: Weights,
    functions: &[Function],
    calls: &[Vec<Call>],
    known: &mut Vec<Option<u64>>,
    number: usize,
) -> bool
    requires exists { number < length functions.now }
    requires calls { lists_of calls.now ≡ map function_calls (map function_of functions.now) }
    requires right { AreRight weights (map function_of functions.now) known.old.items }
    ensures right { AreRight weights (map function_of functions.now) known.new.items }
    ensures found { MatchBool result
        (found known.new.items ≡ found known.old.items + 1)
        ((known.new.items ≡ known.old.items) × (IsUnknown known.old.items number → CallsUnknown (map function_of functions.now) known.old.items number)) }
{
    if known[number].is_some() {
        return false;
    }
    if !is_ready(known, &calls[number]) {
        return false;
    }
    let weight = statements_weight(weights, functions, known, &functions[number].body);
    known[number] = Some(weight);
    true
}

/// Finds what functions weigh, in this order.
fn weigh_in_order(
    weights: Weights,
    functions: &[Function],
    calls: &[Vec<Call>],
    known: &mut Vec<Option<u64>>,
    order: &[usize],
)
    requires calls { lists_of calls.now ≡ map function_calls (map function_of functions.now) }
    requires right { AreRight weights (map function_of functions.now) known.old.items }
    ensures { AreRight weights (map function_of functions.now) known.new.items }
{
    for number in order {
        if *number < functions.len() {
            weigh_function(weights, functions, calls, known, *number);
        }
    }
}

/// Finds what functions weigh, once forwards and once backwards. Answers whether any was found.
fn weigh_both_ways(
    weights: Weights,
    functions: &[Function],
    calls: &[Vec<Call>],
    known: &mut Vec<Option<u64>>,
) -> bool
    requires calls { lists_of calls.now ≡ map function_calls (map function_of functions.now) }
    requires right { AreRight weights (map function_of functions.now) known.old.items }
    ensures right { AreRight weights (map function_of functions.now) known.new.items }
    ensures found { MatchBool result
        (found known.old.items < found known.new.items)
        (IsClosed (map function_of functions.now) known.new.items) }
{
    let mut found = false;
    for number in 0..functions.len() {
        if weigh_function(weights, functions, calls, known, number) {
            found = true;
        }
    }
    for number in (0..functions.len()).rev() {
        if weigh_function(weights, functions, calls, known, number) {
            found = true;
        }
    }
    found
}

/// What each function weighs, but for those from which calls lead to one that leads back: these are not known. In an order
/// that has callees first they are found in one pass.
pub fn weigh(
    alloc: Global,
    weights: Weights,
    functions: &[Function],
    calls: &[Vec<Call>],
    order: &[usize],
) -> Result<Vec<Option<u64>>, AllocError>
    requires calls { lists_of calls.now ≡ map function_calls (map function_of functions.now) }
    ensures right { IfOk result (λ known. AreRight weights (map function_of functions.now) known.items) }
    ensures closed { IfOk result (λ known. IsClosed (map function_of functions.now) known.items) }
{
    let mut known = vec![in alloc; None; functions.len()]?;
    weigh_in_order(weights, functions, calls, &mut known, order);
    while weigh_both_ways(weights, functions, calls, &mut known) {}
    Ok(known)
}
