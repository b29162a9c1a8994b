//! Whether registers of locals are apart.
ghost use Rattle.std.specs.Prelude.{◌≡◌, ◌<◌, length, IfOk, IfErr, MatchBool, MatchOption};
ghost use Rattle.flow_graph.specs.Nodes.{graph_of};
ghost use Rattle.flow_graph.specs.Liveness.{HasNoClash};
ghost use Rattle.flow_graph.specs.LocalSets.{AreLive};
ghost use Rattle.flow_graph.specs.Colours.{colouring_of};
ghost use Rattle.reg_colour.specs.RefusedColourings.{IsWrong};
ghost use Rattle.reg_colour.specs.links.LeastClash.{IsUpTo, IsLesser, IsLeastOf, AreDisjoint, IsFirstShared, ClashAt, ClashOf, ClashBoth, locals_of};

use crate::intervals::{Interval, intervals};
use flow_graph::colours::Colours;
use flow_graph::graph::Graph;
use flow_graph::live_sets::LiveSets;
use ido_base::memory::OutOfMemory;
use std::alloc::Global;
use thiserror::Error;

/// Why registers are refused.
#[derive(Clone, Copy, Debug, PartialEq, Eq, Drop, Error)]
pub enum ColourError {
    /// The locals `a` and `b` of a thread, of which `a` is the lesser one, have one register, and the intervals of both hold
    /// the node.
    #[error("the locals {a} and {b} share a register at node {node}")]
    Clash { node: usize, a: usize, b: usize },
    /// An allocation was refused.
    #[error("out of memory")]
    Memory,
}

impl From<OutOfMemory> for ColourError {
    ghost use Rattle.reg_colour.specs.declared.checking.ColourError.TheVariants.{Memory as Unremembered};

    ghost from_gives = { λ _ e. e ≡ Unremembered };

    fn from(_: OutOfMemory) -> Self {
        ColourError::Memory
    }
}

/// A clash of two locals of a thread.
#[derive(Clone, Copy)]
struct Found {
    node: usize,
    a: usize,
    b: usize,
}

impl Found {
    /// Whether it is at a later node than the other one, or there and of greater locals.
    fn is_after(self, other: Found) -> bool
        ensures { MatchBool result (IsUpTo other self.node self.a self.b) (IsUpTo self other.node other.a other.b) }
    {
        if self.node != other.node {
            self.node > other.node
        } else if self.a != other.a {
            self.a > other.a
        } else {
            self.b > other.b
        }
    }
}

/// The lesser one.
fn earlier(one: Option<Found>, other: Option<Found>) -> Option<Found>
    ensures { IsLesser one other result }
{
    match (one, other) {
        (Some(x), Some(y)) => Some(if x.is_after(y) { y } else { x }),
        (Some(x), None) => Some(x),
        (None, y) => y,
    }
}

/// The first node that both intervals hold.
fn shared(one: Option<Interval>, other: Option<Interval>) -> Option<usize>
    ensures { MatchOption result (AreDisjoint one other) (IsFirstShared one other) }
{
    let one = one?;
    let other = other?;
    let node = one.first.max(other.first);
    if node < one.end && node < other.end {
        Some(node)
    } else {
        None
    }
}

/// The first clash of two locals, the second of which is the greater one.
fn clash(intervals: &[Option<Interval>], registers: &[u8], a: usize, b: usize) -> Option<Found>
    requires order { a < b }
    requires exists { b < length registers.now }
    requires long { length intervals.now ≡ length registers.now }
    ensures { IsLeastOf (ClashBoth (locals_of intervals.now registers.now) a b) result }
{
    if registers[a] != registers[b] {
        return None;
    }
    let node = shared(intervals[a], intervals[b])?;
    Some(Found { node, a, b })
}

/// The first clash of the local with a greater one.
fn first_of(intervals: &[Option<Interval>], registers: &[u8], a: usize) -> Option<Found>
    requires exists { a < length registers.now }
    requires long { length intervals.now ≡ length registers.now }
    ensures { IsLeastOf (ClashOf (locals_of intervals.now registers.now) a) result }
{
    let mut found = None;
    for b in a + 1..registers.len() {
        found = earlier(found, clash(intervals, registers, a, b));
    }
    found
}

/// The first clash of locals of a thread.
fn first_in(intervals: &[Option<Interval>], registers: &[u8]) -> Option<Found>
    requires { length intervals.now ≡ length registers.now }
    ensures { IsLeastOf (ClashAt (locals_of intervals.now registers.now)) result }
{
    let mut found = None;
    for a in 0..registers.len() {
        found = earlier(found, first_of(intervals, registers, a));
    }
    found
}

/// Whether no two locals of a thread have one register whose intervals share a node. The first such node is reported, with
/// the least local that clashes there with a greater one, and the least one of these. The live sets are those of the graph.
pub fn check_colours(
    alloc: Global,
    graph: &Graph,
    live: &LiveSets,
    colours: &Colours,
) -> Result<(), ColourError>
    requires { AreLive (graph_of graph.now) live.now }
    ensures apart { IfOk result (λ _. HasNoClash (graph_of graph.now) (colouring_of colours.now)) }
    ensures first { IfErr result (IsWrong (graph_of graph.now) (colouring_of colours.now)) }
{
    let mut found = None;
    for (thread, part) in graph.threads.iter().enumerate() {
        if thread < colours.threads.len() {
            let registers = &colours.threads[thread];
            let intervals = intervals(alloc, graph, live, *part, registers.len())?;
            found = earlier(found, first_in(&intervals, registers));
        }
    }
    match found {
        None => Ok(()),
        Some(Found { node, a, b }) => Err(ColourError::Clash { node, a, b }),
    }
}
