//! Straight code between nodes that take mutexes or give them back.
ghost use Rattle.std.specs.Prelude.{◌≡◌, ◌↔◌, ◌<◌, suc, IfOk, IsTrue, Some, length, slice_get};
ghost use Rattle.flow_graph.specs.Nodes.{graph_of, node_of};
ghost use Rattle.region_cutter.specs.FewestCuts.{AreStretches, IsPlain, Synchronises};
ghost use Rattle.region_cutter.specs.links.Stretches.{AreEntries, Enters, EntersAt, GoesStraight, IsEnteredFrom, IsStraightEnd, IsStretchAt, IsSync};
ghost use Rattle.region_cutter.specs.links.Stretches.{LeadsToSync, plain};

use crate::start::{locks, unlocks};
use flow_graph::graph::{Action, Graph, Node};
use ido_base::memory::OutOfMemory;
use std::alloc::Global;

/// The nodes from `first` up to `past`, without `past`: straight code.
#[derive(Clone, Copy, PartialEq, Eq, Debug, Drop)]
pub struct Stretch {
    pub first: usize,
    pub past: usize,
}

/// From which nodes edges lead to a node.
#[derive(Clone, Copy, Drop)]
pub(crate) enum Entry {
    /// From none.
    Nowhere,
    /// From this one alone.
    From(usize),
    /// From several.
    Several,
}

/// From which nodes edges lead, where one leads from this node too.
fn enter(entry: Entry, from: usize) -> Entry
    ensures { Enters entry from result }
{
    match entry {
        Entry::Nowhere => Entry::From(from),
        Entry::From(other) => { if other == from { entry } else { Entry::Several } }
        Entry::Several => entry,
    }
}

/// Notes an edge from the one node to the other, if there is that one.
fn enter_at(entries: &mut Vec<Entry>, from: usize, to: Option<usize>)
    ensures { EntersAt from to entries.old.items entries.new.items }
{
    if let Some(to) = to {
        if to < entries.len() {
            entries[to] = enter(entries[to], from);
        }
    }
}

/// Of each node from which nodes edges lead to it.
fn entries_of(alloc: Global, graph: &Graph) -> Result<Vec<Entry>, OutOfMemory>
    ensures { IfOk result (λ entries. AreEntries (graph_of graph.now) (length graph.now.nodes.items) entries.items) }
{
    let mut entries = vec![in alloc; Entry::Nowhere; graph.nodes.len()]?;
    for number in 0..graph.nodes.len() {
        let node = &graph.nodes[number];
        enter_at(&mut entries, number, node.next());
        enter_at(&mut entries, number, node.other());
    }
    Ok(entries)
}

/// Whether the node evaluates or stores.
fn evaluates_or_stores(node: &Node) -> bool
    ensures { result ≡ plain (node_of node.now).action }
{
    match node.action {
        Action::Eval { .. } | Action::Store { .. } => true,
        _ => false,
    }
}

/// Whether there is that node and it evaluates or stores.
fn is_plain(graph: &Graph, number: usize) -> bool
    ensures { IsTrue result ↔ IsPlain (graph_of graph.now) number }
{
    match graph.nodes.get(number) {
        Some(node) => evaluates_or_stores(node),
        None => false,
    }
}

/// Whether the node takes a mutex or gives one back, and touches no variable.
fn is_sync(node: &Node) -> bool
    ensures { IsTrue result ↔ IsSync (node_of node.now) }
{
    (locks(node) || unlocks(node)) && node.reads.is_empty() && node.writes.is_none()
}

/// Whether there is that node and it takes a mutex or gives one back, and touches no variable.
fn synchronises(graph: &Graph, number: usize) -> bool
    ensures { IsTrue result ↔ Synchronises (graph_of graph.now) number }
{
    match graph.nodes.get(number) {
        Some(node) => is_sync(node),
        None => false,
    }
}

/// Whether edges lead to the node from that one alone.
fn is_entered_from(graph: &Graph, entries: &[Entry], from: usize, node: usize) -> bool
    requires exists { node < length graph.now.nodes.items }
    requires entries { AreEntries (graph_of graph.now) (length graph.now.nodes.items) entries.now }
    ensures { IsTrue result ↔ IsEnteredFrom (graph_of graph.now) from node }
{
    match entries[node] {
        Entry::From(other) => other == from,
        _ => false,
    }
}

/// Whether the next number is that of a node that evaluates or stores, to which edges lead from this one alone.
fn goes_straight(graph: &Graph, entries: &[Entry], number: usize) -> bool
    requires exists { number < length graph.now.nodes.items }
    requires entries { AreEntries (graph_of graph.now) (length graph.now.nodes.items) entries.now }
    ensures { IsTrue result ↔ GoesStraight (graph_of graph.now) number }
{
    is_plain(graph, number + 1) && is_entered_from(graph, entries, number, number + 1)
}

/// The number after the last node up to which the code goes straight on.
fn straight_end(graph: &Graph, entries: &[Entry], first: usize) -> usize
    requires plain { IsPlain (graph_of graph.now) first }
    requires entries { AreEntries (graph_of graph.now) (length graph.now.nodes.items) entries.now }
    ensures { IsStraightEnd (graph_of graph.now) first result }
{
    let mut last = first;
    while goes_straight(graph, entries, last) {
        last += 1;
    }
    last + 1
}

/// Whether a node that takes a mutex or gives one back comes after this one.
fn leads_to_sync(graph: &Graph, last: usize) -> bool
    requires { IsPlain (graph_of graph.now) last }
    ensures { IsTrue result ↔ LeadsToSync (graph_of graph.now) last }
{
    match graph.nodes[last].next() {
        Some(after) => synchronises(graph, after),
        None => false,
    }
}

/// The straight code that begins at the node, to which edges lead from the other alone.
fn stretch_after(graph: &Graph, entries: &[Entry], before: usize, first: usize) -> Option<Stretch>
    requires entered { IsEnteredFrom (graph_of graph.now) before first }
    requires entries { AreEntries (graph_of graph.now) (length graph.now.nodes.items) entries.now }
    ensures { IsStretchAt (graph_of graph.now) first result }
{
    if !synchronises(graph, before) || !is_plain(graph, first) {
        return None;
    }
    let past = straight_end(graph, entries, first);
    if leads_to_sync(graph, past - 1) {
        Some(Stretch { first, past })
    } else {
        None
    }
}

/// The straight code that begins at the node, if there is such code.
fn stretch_at(graph: &Graph, entries: &[Entry], first: usize) -> Option<Stretch>
    requires exists { first < length graph.now.nodes.items }
    requires entries { AreEntries (graph_of graph.now) (length graph.now.nodes.items) entries.now }
    ensures { IsStretchAt (graph_of graph.now) first result }
{
    match entries[first] {
        Entry::From(before) => stretch_after(graph, entries, before, first),
        _ => None,
    }
}

/// All stretches of straight code between nodes that take mutexes or give them back, by their first nodes.
pub fn stretches(alloc: Global, graph: &Graph) -> Result<Vec<Stretch>, OutOfMemory>
    ensures { IfOk result (λ found. AreStretches (graph_of graph.now) found.items) }
{
    let entries = entries_of(alloc, graph)?;
    let mut found = Vec::new(alloc);
    for first in 0..graph.nodes.len() {
        if let Some(stretch) = stretch_at(graph, &entries, first) {
            found.push(stretch)?;
        }
    }
    Ok(found)
}
