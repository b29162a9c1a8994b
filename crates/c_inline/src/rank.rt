//! An order of functions: callees first, and the functions of a strongly connected component of calls side by side.
ghost use Rattle.std.specs.Prelude.{◌≡◌, ◌<◌, ◌≤◌, IfOk, MatchBool, Contains};
ghost use Rattle.c_tree.specs.Inlining as i;
ghost use Rattle.c_inline.specs.links.Calls.{calls_of, lists_of};
ghost use Rattle.c_inline.specs.links.CallRanks.{AreRanks, rank_at};

use crate::calls::Call;
use std::alloc::{AllocError, Global};

/// Functions in an order.
#[derive(Drop)]
pub struct Ranked {
    /// Of each function its rank: meant to be the same within a strongly connected component of calls.
    pub ranks: Vec<Option<u32>>,
    /// The functions, meant to be by rank, the lowest first.
    pub callees_first: Vec<usize>,
}

/// The rank of a function, 0 where it has none.
pub fn rank_of(ranks: &[Option<u32>], function: usize) -> u32
    ensures { result ≡ rank_at ranks.now function }
{
    match ranks.get(function) {
        Some(Some(rank)) => *rank,
        _ => 0,
    }
}

/// Whether no call leads to a function of a higher rank than this.
fn lead_no_higher(ranks: &[Option<u32>], rank: u32, calls: &[Call]) -> bool
    ensures { MatchBool result
        ((c : i.Call) → Contains (calls_of calls.now) c → rank_at ranks.now c.function ≤ rank)
        ((c : i.Call) × Contains (calls_of calls.now) c × (rank < rank_at ranks.now c.function)) }
{
    for call in calls {
        if rank_of(ranks, call.function as usize) > rank {
            return false;
        }
    }
    true
}

/// Whether each call leads to a function of no higher rank.
fn are_ranks(ranks: &[Option<u32>], calls: &[Vec<Call>]) -> bool
    ensures { MatchBool result (AreRanks (lists_of calls.now) ranks.now) (¬ (AreRanks (lists_of calls.now) ranks.now)) }
{
    for number in 0..calls.len() {
        if !lead_no_higher(ranks, rank_of(ranks, number), &calls[number]) {
            return false;
        }
    }
    true
}

/// A function whose calls are being followed, and how many of them were.
#[derive(Clone, Copy)]
struct Visit {
    function: usize,
    followed: usize,
}

/// A walk along calls that finds which functions lead to one another and back (Gabow, Path-based depth-first search).
#[derive(Drop)]
struct Walk {
    // Of each function the number of its visit, where it was visited.
    visited: Vec<Option<u32>>,
    // Of each function its rank, once it is known.
    ranks: Vec<Option<u32>>,
    // The functions that were visited and have no rank yet, in the order of their visits.
    open: Vec<usize>,
    // Of the open functions the ones that are not known to lead back to an earlier one.
    roots: Vec<usize>,
    // The visits that are under way, the innermost last.
    visits: Vec<Visit>,
    // The functions that have a rank, in the order in which they were given it.
    closed: Vec<usize>,
    // How many functions were visited.
    count: u32,
    // The next rank.
    rank: u32,
}

impl Walk {
    /// Nothing is visited.
    fn new(alloc: Global, functions: usize) -> Result<Self, AllocError> {
        Ok(Walk {
            visited: vec![in alloc; None; functions]?,
            ranks: vec![in alloc; None; functions]?,
            open: Vec::new(alloc),
            roots: Vec::new(alloc),
            visits: Vec::new(alloc),
            closed: Vec::new(alloc),
            count: 0,
            rank: 0,
        })
    }

    /// The number of a function's visit.
    fn visit_of(&self, function: usize) -> Option<u32> {
        match self.visited.get(function) {
            Some(number) => *number,
            None => None,
        }
    }

    /// Begins the visit of a function that exists.
    fn begin(&mut self, function: usize) -> Result<(), AllocError> {
        if function < self.visited.len() {
            self.visited[function] = Some(self.count);
            self.count = self.count.saturating_add(1);
            self.open.push(function)?;
            self.roots.push(function)?;
            self.visits.push(Visit {
                function,
                followed: 0,
            })?;
        }
        Ok(())
    }

    /// A call leads back to the visit of this number: what was visited after it is no root.
    fn lead_back(&mut self, number: u32) -> Result<(), AllocError> {
        while let Some(root) = self.roots.pop() {
            if matches!(self.visit_of(root), Some(earlier) if earlier <= number) {
                self.roots.push(root)?;
                break;
            }
        }
        Ok(())
    }

    /// Follows a call.
    fn follow(&mut self, function: usize) -> Result<(), AllocError> {
        match (self.visited.get(function), self.ranks.get(function)) {
            (Some(None), _) => self.begin(function),
            (Some(Some(number)), Some(None)) => {
                let number = *number;
                self.lead_back(number)
            }
            _ => Ok(()),
        }
    }

    /// Gives the next rank to a root and all that was visited after it and has none.
    fn close(&mut self, root: usize) -> Result<(), AllocError> {
        while let Some(function) = self.open.pop() {
            if function < self.ranks.len() {
                self.ranks[function] = Some(self.rank);
                self.closed.push(function)?;
            }
            if function == root {
                break;
            }
        }
        self.rank = self.rank.saturating_add(1);
        Ok(())
    }

    /// After the last call of a function: it is given its rank, if it is a root.
    fn leave(&mut self, function: usize) -> Result<(), AllocError> {
        match self.roots.pop() {
            Some(root) if root == function => self.close(root),
            Some(root) => {
                self.roots.push(root)?;
                Ok(())
            }
            None => Ok(()),
        }
    }

    /// Goes on with a visit: along the next call, or back from the function.
    fn go_on(&mut self, calls: &[Vec<Call>], visit: Visit) -> Result<(), AllocError> {
        match calls.get(visit.function) {
            Some(list) => match list.get(visit.followed) {
                Some(call) => {
                    self.visits.push(Visit {
                        function: visit.function,
                        followed: visit.followed + 1,
                    })?;
                    self.follow(call.function as usize)
                }
                None => self.leave(visit.function),
            },
            None => Ok(()),
        }
    }
}

/// How many steps it takes to visit all functions and to follow all calls.
fn walking_steps(calls: &[Vec<Call>]) -> usize {
    let mut steps = calls.len().saturating_mul(2);
    for list in calls {
        steps = steps.saturating_add(list.len());
    }
    steps
}

/// Visits all functions and follows every call once.
fn walk_all(alloc: Global, calls: &[Vec<Call>]) -> Result<Ranked, AllocError> {
    let mut walk = Walk::new(alloc, calls.len())?;
    let mut next = 0;
    for _ in 0..walking_steps(calls) {
        match walk.visits.pop() {
            Some(visit) => walk.go_on(calls, visit)?,
            None => {
                if next == calls.len() {
                    break;
                }
                if walk.visit_of(next).is_none() {
                    walk.begin(next)?;
                }
                next += 1;
            }
        }
    }
    Ok(Ranked {
        ranks: walk.ranks,
        callees_first: walk.closed,
    })
}

/// Functions in an order by their calls, each of which leads to a function of no higher rank.
pub fn order(alloc: Global, calls: &[Vec<Call>]) -> Result<Ranked, AllocError>
    ensures { IfOk result (λ ranked. AreRanks (lists_of calls.now) ranked.ranks.items) }
{
    let mut ranked = walk_all(alloc, calls)?;
    if !are_ranks(&ranked.ranks, calls) {
        ranked.ranks = Vec::new(alloc);
    }
    Ok(ranked)
}
