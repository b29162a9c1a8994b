//! Which stores need no clean of their own line.
ghost use Rattle.std.specs.Prelude.{◌≡◌, ◌↔◌, ◌<◌, ◌≤◌, ℕ, IfOk, OnOk, IsTrue, length, slice_get, true};
ghost use Rattle.flow_graph.specs.Nodes.{graph_of, node_of};
ghost use Rattle.flow_graph.specs.IdempotentCuts.{HasBoundaryAfter, boundaries_of};
ghost use Rattle.flow_graph.specs.OmittedCleans.{IsCleanedLater};
ghost use Rattle.ido_base.specs.Layout.{end_from};
ghost use Rattle.ido_base.specs.declared.limits.TheConstants.{MOST_VARIABLE_BYTES};
ghost use Rattle.memory_layout.specs.Variables.{are_sizes};
ghost use Rattle.region_cutter.specs.Places.{WriteElements, WritesAnElement};
ghost use Rattle.region_cutter.specs.links.Lines.{AreAnswers, AreLines, GoesOnPast, IsCleanedAfter, IsPast, LeadsOver, Leaves, WritesInLine};
ghost use Rattle.region_cutter.specs.links.GraphSearch.{ReachesEnd, IsSearchStep};

use crate::search::Search;
use crate::start::locks;
use flow_graph::cuts::Cuts;
use flow_graph::graph::{Graph, Node};
use ido_base::limits::LINE_BYTES;
use ido_base::location::Shape;
use ido_base::memory::OutOfMemory;
use memory_layout::variables::var_at;
use std::alloc::Global;

/// The line into which the node stores, if it stores into one element that is known.
fn line_of(shapes: &[Shape], node: &Node) -> Option<u64>
    requires sizes { IsTrue (are_sizes shapes.now) }
    requires within { end_from 0 shapes.now ≤ MOST_VARIABLE_BYTES }
    requires element { WritesAnElement shapes.now (node_of node.now) }
    ensures { (line : ℕ) → (result ≡ Some line) ↔ WritesInLine shapes.now (node_of node.now) line }
{
    match node.writes {
        Some(written) => {
            if written.lo == written.hi {
                Some(var_at(shapes, written.variable as usize, written.lo) / LINE_BYTES)
            } else {
                None
            }
        }
        None => None,
    }
}

/// The lines of all nodes.
fn lines(alloc: Global, graph: &Graph, shapes: &[Shape]) -> Result<Vec<Option<u64>>, OutOfMemory>
    requires sizes { IsTrue (are_sizes shapes.now) }
    requires within { end_from 0 shapes.now ≤ MOST_VARIABLE_BYTES }
    requires elements { WriteElements (graph_of graph.now) shapes.now }
    ensures { IfOk result (λ lines. AreLines (graph_of graph.now) shapes.now lines.items) }
{
    let mut lines = Vec::with_capacity(alloc, graph.nodes.len())?;
    for node in &graph.nodes {
        lines.push(line_of(shapes, node))?;
    }
    Ok(lines)
}

/// Whether a boundary stands at the node.
pub(crate) fn stands(flags: &[bool], node: usize) -> bool
    ensures { IsTrue result ↔ (slice_get flags.now node ≡ Some true) }
{
    match flags.get(node) {
        Some(stands) => *stands,
        None => false,
    }
}

/// Whether the node of this number takes a mutex and a boundary stands after it.
pub(crate) fn has_after(graph: &Graph, cuts: &Cuts, number: usize, node: &Node) -> bool
    requires { slice_get graph.now.nodes.items number ≡ Some node.now }
    ensures { IsTrue result ↔ HasBoundaryAfter (graph_of graph.now) (boundaries_of cuts.now) number }
{
    let takes = locks(node);
    let stands = stands(&cuts.after_lock, number);
    takes && stands
}

/// Whether there is that node and a boundary is passed on the way to it: after the node before it, or before it.
fn leads_over(cuts: &Cuts, after: bool, to: Option<usize>) -> bool
    ensures { IsTrue result ↔ LeadsOver (boundaries_of cuts.now) after to }
{
    match to {
        Some(node) => after || stands(&cuts.before, node),
        None => false,
    }
}

/// Whether a boundary stands right after the node of this number.
fn leaves(graph: &Graph, cuts: &Cuts, number: usize, node: &Node) -> bool
    requires { slice_get graph.now.nodes.items number ≡ Some node.now }
    ensures { IsTrue result ↔ Leaves (graph_of graph.now) (boundaries_of cuts.now) number }
{
    let after = has_after(graph, cuts, number, node);
    let next = leads_over(cuts, after, node.next());
    let other = leads_over(cuts, after, node.other());
    next || other
}

/// The node, unless it stores into the line.
fn unless_cleaned(lines: &[Option<u64>], line: u64, to: Option<usize>) -> Option<usize>
    ensures { (node : ℕ) → (result ≡ Some node) ↔ ((to ≡ Some node) × ¬ (slice_get lines.now node ≡ Some (Some line))) }
{
    match to {
        Some(node) => match lines.get(node) {
            Some(Some(other)) => { if *other == line { None } else { Some(node) } }
            _ => Some(node),
        },
        None => None,
    }
}

/// Goes on with a search from a node after which no boundary stands.
fn go_on(
    search: &mut Search,
    lines: &[Option<u64>],
    line: u64,
    node: &Node,
) -> Result<(), OutOfMemory>
    ensures { OnOk result (IsSearchStep (IsPast lines.now line (node_of node.now)) search.old.seen.items search.old.waiting.items search.new.seen.items
        search.new.waiting.items) }
{
    search.come_to_any(unless_cleaned(lines, line, node.next()))?;
    search.come_to_any(unless_cleaned(lines, line, node.other()))?;
    Ok(())
}

/// Whether a path leads from the node to the next boundary, on which no later node stores into the line.
fn reaches_uncleaned(
    alloc: Global,
    graph: &Graph,
    cuts: &Cuts,
    lines: &[Option<u64>],
    line: u64,
    from: usize,
) -> Result<bool, OutOfMemory>
    ensures { IfOk result (λ yes. IsTrue yes
        ↔ ReachesEnd (GoesOnPast (graph_of graph.now) (boundaries_of cuts.now) lines.now line) (Leaves (graph_of graph.now) (boundaries_of cuts.now)) from) }
{
    let mut search = Search::at(alloc, graph.nodes.len(), from)?;
    while let Some(number) = search.waiting.pop() {
        let node = &graph.nodes[number];
        if leaves(graph, cuts, number, node) {
            return Ok(true);
        }
        go_on(&mut search, lines, line, node)?;
    }
    Ok(false)
}

/// Whether the node's clean may be left out.
fn is_cleaned_after(
    alloc: Global,
    graph: &Graph,
    cuts: &Cuts,
    lines: &[Option<u64>],
    number: usize,
) -> Result<bool, OutOfMemory>
    requires { number < length lines.now }
    ensures { IfOk result (λ yes. IsTrue yes ↔ IsCleanedAfter (graph_of graph.now) (boundaries_of cuts.now) lines.now number) }
{
    match lines[number] {
        Some(line) => {
            let uncleaned = reaches_uncleaned(alloc, graph, cuts, lines, line, number)?;
            Ok(!uncleaned)
        }
        None => Ok(false),
    }
}

/// The answers for all nodes, of which these are the lines.
fn answers(
    alloc: Global,
    graph: &Graph,
    cuts: &Cuts,
    lines: &[Option<u64>],
) -> Result<Vec<bool>, OutOfMemory>
    ensures { IfOk result (λ later. AreAnswers (graph_of graph.now) (boundaries_of cuts.now) lines.now (length lines.now) later.items) }
{
    let mut later = Vec::with_capacity(alloc, lines.len())?;
    for number in 0..lines.len() {
        let cleaned = is_cleaned_after(alloc, graph, cuts, lines, number)?;
        later.push(cleaned)?;
    }
    Ok(later)
}

/// Of each node whether it is a store whose own clean may be left out, where these are the shapes of all variables: on every path
/// from it to the next boundary a later store is into the same line, and both elements are known. Each store takes a search
/// through what is left of its region.
pub fn cleaned_later(
    alloc: Global,
    graph: &Graph,
    cuts: &Cuts,
    shapes: &[Shape],
) -> Result<Vec<bool>, OutOfMemory>
    requires sizes { IsTrue (are_sizes shapes.now) }
    requires within { end_from 0 shapes.now ≤ MOST_VARIABLE_BYTES }
    requires elements { WriteElements (graph_of graph.now) shapes.now }
    ensures count { IfOk result (λ later. length later.items ≡ length graph.now.nodes.items) }
    ensures later { IfOk result (λ later.
        (node : ℕ) → (slice_get later.items node ≡ Some true) ↔ IsCleanedLater (graph_of graph.now) (boundaries_of cuts.now) shapes.now node) }
{
    let lines = lines(alloc, graph, shapes)?;
    let later = answers(alloc, graph, cuts, &lines)?;
    Ok(later)
}
