//! What may change where one boundary is taken away: only paths that pass the node before which it stood.
ghost use Rattle.std.specs.Prelude.{◌≡◌, ◌↔◌, ◌<◌, ℕ, Contains, IfOk, OnOk, IsTrue, Some, None, length, slice_get};
ghost use Rattle.flow_graph.specs.Nodes.{graph_of, node_of};
ghost use Rattle.flow_graph.specs.IdempotentCuts.{BeginsRegion, HasBefore, boundaries_of};
ghost use Rattle.region_cutter.specs.links.RemovalPaths.{AddsWritten, AllAfter, AreAhead, AreWrittenFrom, ComesBack, ComesFrom, ComesFromAny, ExposesOver};
ghost use Rattle.region_cutter.specs.links.RemovalPaths.{Inside, IsExposedBefore, IsExposedOver, IsKnownWithout, IsOverAny, IsUnwritten};
ghost use Rattle.region_cutter.specs.links.RemovalPaths.{OverwritesFromAny, OverwritesRead, WritesOver, WritesPast, WritesSame};
ghost use Rattle.region_cutter.specs.links.CoveredReads.{AreCovered, AreCoveredAfter, AreFound, IsRead};
ghost use Rattle.region_cutter.specs.links.NodeMarks.{AreMarks};
ghost use Rattle.region_cutter.specs.links.GraphSearch.{IsSearchStep};

use crate::cleaning::{has_after, stands};
use crate::covered::{Read, is_covered, note};
use crate::marks::Marks;
use crate::search::Search;
use flow_graph::cuts::Cuts;
use flow_graph::graph::{Graph, Node};
use ido_base::location::{Location, overlap, same};
use ido_base::memory::OutOfMemory;
use std::alloc::Global;

/// The node, unless a boundary is passed on the way to it.
fn inside(cuts: &Cuts, after: bool, to: Option<usize>) -> Option<usize>
    ensures { (node : ℕ) → (result ≡ Some node) ↔ ((to ≡ Some node) × (IsTrue after → ⊥) × ¬ (HasBefore (boundaries_of cuts.now) node)) }
{
    match to {
        Some(node) => {
            if after || stands(&cuts.before, node) {
                None
            } else {
                Some(node)
            }
        }
        None => None,
    }
}

/// Goes on with a search inside the region.
fn go_on(
    graph: &Graph,
    cuts: &Cuts,
    search: &mut Search,
    number: usize,
    node: &Node,
) -> Result<(), OutOfMemory>
    requires { slice_get graph.now.nodes.items number ≡ Some node.now }
    ensures { OnOk result (IsSearchStep (Inside (graph_of graph.now) (boundaries_of cuts.now) number) search.old.seen.items search.old.waiting.items
        search.new.seen.items search.new.waiting.items) }
{
    let after = has_after(graph, cuts, number, node);
    search.come_to_any(inside(cuts, after, node.next()))?;
    search.come_to_any(inside(cuts, after, node.other()))?;
    Ok(())
}

/// Adds what the node writes.
fn add_written(writes: &mut Vec<Location>, node: &Node) -> Result<(), OutOfMemory>
    ensures { OnOk result (AddsWritten (node_of node.now) writes.old.items writes.new.items) }
{
    if let Some(location) = node.writes {
        writes.push(location)?;
    }
    Ok(())
}

/// The nodes to which regions go on from a node, itself among them, and where they write.
#[derive(Drop)]
struct Ahead {
    seen: Vec<bool>,
    writes: Vec<Location>,
}

/// What lies ahead of the node.
fn ahead_of(alloc: Global, graph: &Graph, cuts: &Cuts, from: usize) -> Result<Ahead, OutOfMemory>
    ensures seen { IfOk result (λ ahead. AreAhead (graph_of graph.now) (boundaries_of cuts.now) from ahead.seen.items) }
    ensures writes { IfOk result (λ ahead. AreWrittenFrom (graph_of graph.now) (boundaries_of cuts.now) from ahead.writes.items) }
{
    let mut search = Search::at(alloc, graph.nodes.len(), from)?;
    let mut writes = Vec::new(alloc);
    while let Some(number) = search.waiting.pop() {
        let node = &graph.nodes[number];
        add_written(&mut writes, node)?;
        go_on(graph, cuts, &mut search, number, node)?;
    }
    let Search { seen, waiting: _ } = search;
    Ok(Ahead { seen, writes })
}

/// Whether one of these writes may be over the elements.
fn is_over_any(writes: &[Location], elements: Location) -> bool
    ensures { IsTrue result ↔ IsOverAny writes.now elements }
{
    for written in writes {
        if overlap(*written, elements) {
            return true;
        }
    }
    false
}

/// Whether the node may write one of the elements.
pub(crate) fn writes_over(graph: &Graph, elements: Location, number: usize, node: &Node) -> bool
    requires { slice_get graph.now.nodes.items number ≡ Some node.now }
    ensures { IsTrue result ↔ WritesOver (graph_of graph.now) elements number }
{
    match node.writes {
        Some(written) => overlap(written, elements),
        None => false,
    }
}

/// Whether the node writes the very element.
pub(crate) fn writes_same(graph: &Graph, element: Location, number: usize, node: &Node) -> bool
    requires { slice_get graph.now.nodes.items number ≡ Some node.now }
    ensures { IsTrue result ↔ WritesSame (graph_of graph.now) element number }
{
    match node.writes {
        Some(written) => same(written, element),
        None => false,
    }
}

/// Whether both are the same elements.
fn equal(a: Location, b: Location) -> bool
    ensures { IsTrue result ↔ (a ≡ b) }
{
    a == b
}

/// Whether these are among the locations.
pub(crate) fn is_among(locations: &[Location], elements: Location) -> bool
    ensures { IsTrue result ↔ Contains locations.now elements }
{
    for other in locations {
        if equal(*other, elements) {
            return true;
        }
    }
    false
}

/// Whether a region begins at the node.
fn begins_at(graph: &Graph, cuts: &Cuts, marks: &Marks, number: usize) -> bool
    requires exists { number < length graph.now.nodes.items }
    requires marks { AreMarks (graph_of graph.now) marks.now }
    requires locks { AllAfter (graph_of graph.now) (boundaries_of cuts.now) }
    ensures { IsTrue result ↔ BeginsRegion (graph_of graph.now) (boundaries_of cuts.now) number }
{
    let before = stands(&cuts.before, number);
    let after = stands(&marks.begun, number);
    before || after
}

/// Whether the node writes the very element that is to be passed by, if there is one.
fn writes_past(graph: &Graph, past: Option<Location>, number: usize, node: &Node) -> bool
    requires { slice_get graph.now.nodes.items number ≡ Some node.now }
    ensures { IsTrue result ↔ WritesPast (graph_of graph.now) past number }
{
    match past {
        Some(element) => writes_same(graph, element, number, node),
        None => false,
    }
}

/// Comes back to the node, unless a boundary stands after it or it writes the very element.
fn come_from(
    graph: &Graph,
    cuts: &Cuts,
    search: &mut Search,
    past: Option<Location>,
    from: usize,
) -> Result<(), OutOfMemory>
    requires { from < length graph.now.nodes.items }
    ensures { OnOk result (IsSearchStep (ComesFrom (graph_of graph.now) (boundaries_of cuts.now) past from) search.old.seen.items search.old.waiting.items
        search.new.seen.items search.new.waiting.items) }
{
    let node = &graph.nodes[from];
    if has_after(graph, cuts, from, node) {
        return Ok(());
    }
    if writes_past(graph, past, from, node) {
        return Ok(());
    }
    search.come_to(from)?;
    Ok(())
}

/// Comes back to each of these nodes.
fn come_from_each(
    graph: &Graph,
    cuts: &Cuts,
    search: &mut Search,
    past: Option<Location>,
    sources: &[usize],
) -> Result<(), OutOfMemory>
    requires { (from : ℕ) → Contains sources.now from → from < length graph.now.nodes.items }
    ensures { OnOk result (IsSearchStep (ComesFromAny (graph_of graph.now) (boundaries_of cuts.now) past sources.now) search.old.seen.items
        search.old.waiting.items search.new.seen.items search.new.waiting.items) }
{
    for from in sources {
        come_from(graph, cuts, search, past, *from)?;
    }
    Ok(())
}

/// Goes back with a search inside the region, but not to nodes that write the very element, if there is one.
fn go_back(
    graph: &Graph,
    cuts: &Cuts,
    marks: &Marks,
    search: &mut Search,
    past: Option<Location>,
    number: usize,
) -> Result<(), OutOfMemory>
    requires exists { number < length graph.now.nodes.items }
    requires marks { AreMarks (graph_of graph.now) marks.now }
    ensures { OnOk result (IsSearchStep (ComesBack (graph_of graph.now) (boundaries_of cuts.now) past number) search.old.seen.items search.old.waiting.items
        search.new.seen.items search.new.waiting.items) }
{
    if !stands(&cuts.before, number) {
        come_from_each(graph, cuts, search, past, &marks.sources[number])?;
    }
    Ok(())
}

/// Whether a region comes to the node that has not written the very element before. It goes back from the node.
fn is_unwritten(
    alloc: Global,
    graph: &Graph,
    cuts: &Cuts,
    marks: &Marks,
    element: Location,
    node: usize,
) -> Result<bool, OutOfMemory>
    requires exists { node < length graph.now.nodes.items }
    requires marks { AreMarks (graph_of graph.now) marks.now }
    requires locks { AllAfter (graph_of graph.now) (boundaries_of cuts.now) }
    ensures { IfOk result (λ yes. IsTrue yes ↔ IsUnwritten (graph_of graph.now) (boundaries_of cuts.now) element node) }
{
    let mut search = Search::at(alloc, graph.nodes.len(), node)?;
    while let Some(number) = search.waiting.pop() {
        if begins_at(graph, cuts, marks, number) {
            return Ok(true);
        }
        go_back(graph, cuts, marks, &mut search, Some(element), number)?;
    }
    Ok(false)
}

/// Whether one of these writes may be over the elements, and a region comes to the read that has not written them before. Where one of them may
/// be and none comes, the read is one more that was found.
fn is_exposed_over(
    alloc: Global,
    graph: &Graph,
    cuts: &Cuts,
    marks: &Marks,
    covered: &[Vec<bool>],
    found: &mut Vec<Read>,
    writes: &[Location],
    read: Read,
    elements: Location,
) -> Result<bool, OutOfMemory>
    requires read { IsRead (graph_of graph.now) read elements }
    requires marks { AreMarks (graph_of graph.now) marks.now }
    requires locks { AllAfter (graph_of graph.now) (boundaries_of cuts.now) }
    requires covered { AreCovered (graph_of graph.now) (boundaries_of cuts.now) covered.now }
    requires found { AreFound (graph_of graph.now) (boundaries_of cuts.now) found.old.items }
    ensures exposed { IfOk result (λ yes. IsTrue yes ↔ IsExposedOver (graph_of graph.now) (boundaries_of cuts.now) writes.now read.node elements) }
    ensures found { IfOk result (λ _. AreFound (graph_of graph.now) (boundaries_of cuts.now) found.new.items) }
{
    if !is_over_any(writes, elements) {
        return Ok(false);
    }
    if is_covered(covered, read) {
        return Ok(false);
    }
    if is_unwritten(alloc, graph, cuts, marks, elements, read.node)? {
        return Ok(true);
    }
    found.push(read)?;
    Ok(false)
}

/// Whether the node reads such elements.
fn exposes_over(
    alloc: Global,
    graph: &Graph,
    cuts: &Cuts,
    marks: &Marks,
    covered: &[Vec<bool>],
    found: &mut Vec<Read>,
    writes: &[Location],
    number: usize,
    node: &Node,
) -> Result<bool, OutOfMemory>
    requires node { slice_get graph.now.nodes.items number ≡ Some node.now }
    requires marks { AreMarks (graph_of graph.now) marks.now }
    requires locks { AllAfter (graph_of graph.now) (boundaries_of cuts.now) }
    requires covered { AreCovered (graph_of graph.now) (boundaries_of cuts.now) covered.now }
    requires found { AreFound (graph_of graph.now) (boundaries_of cuts.now) found.old.items }
    ensures exposed { IfOk result (λ yes. IsTrue yes ↔ ExposesOver (graph_of graph.now) (boundaries_of cuts.now) writes.now number) }
    ensures found { IfOk result (λ _. AreFound (graph_of graph.now) (boundaries_of cuts.now) found.new.items) }
{
    for (place, elements) in node.reads.iter().enumerate() {
        let read = Read {
            node: number,
            number: place,
        };
        let exposed = is_exposed_over(
            alloc, graph, cuts, marks, covered, found, writes, read, *elements,
        )?;
        if exposed {
            return Ok(true);
        }
    }
    Ok(false)
}

/// Whether a node reads such elements from which a region comes to this one. It goes back from this one, and ends at the first.
fn is_exposed_before(
    alloc: Global,
    graph: &Graph,
    cuts: &Cuts,
    marks: &Marks,
    covered: &[Vec<bool>],
    found: &mut Vec<Read>,
    writes: &[Location],
    node: usize,
) -> Result<bool, OutOfMemory>
    requires exists { node < length graph.now.nodes.items }
    requires marks { AreMarks (graph_of graph.now) marks.now }
    requires locks { AllAfter (graph_of graph.now) (boundaries_of cuts.now) }
    requires covered { AreCovered (graph_of graph.now) (boundaries_of cuts.now) covered.now }
    requires found { AreFound (graph_of graph.now) (boundaries_of cuts.now) found.old.items }
    ensures exposed { IfOk result (λ yes. IsTrue yes ↔ IsExposedBefore (graph_of graph.now) (boundaries_of cuts.now) writes.now node) }
    ensures found { IfOk result (λ _. AreFound (graph_of graph.now) (boundaries_of cuts.now) found.new.items) }
{
    let mut search = Search::nowhere(alloc, graph.nodes.len())?;
    go_back(graph, cuts, marks, &mut search, None, node)?;
    while let Some(number) = search.waiting.pop() {
        let reader = &graph.nodes[number];
        let exposed = exposes_over(
            alloc, graph, cuts, marks, covered, found, writes, number, reader,
        )?;
        if exposed {
            return Ok(true);
        }
        go_back(graph, cuts, marks, &mut search, None, number)?;
    }
    Ok(false)
}

/// Whether regions can be run again without the boundary before the node, which is gone already, if they could with it. What it finds of
/// reads it notes: all of it where the boundary stays away, and else what holds with it too.
pub(crate) fn is_idempotent_without(
    alloc: Global,
    graph: &Graph,
    cuts: &Cuts,
    marks: &Marks,
    covered: &mut Vec<Vec<bool>>,
    node: usize,
) -> Result<bool, OutOfMemory>
    requires exists { node < length graph.now.nodes.items }
    requires marks { AreMarks (graph_of graph.now) marks.now }
    requires locks { AllAfter (graph_of graph.now) (boundaries_of cuts.now) }
    requires covered { AreCovered (graph_of graph.now) (boundaries_of cuts.now) covered.old.items }
    ensures known { IfOk result (IsKnownWithout (graph_of graph.now) (boundaries_of cuts.now) node) }
    ensures covered { IfOk result (λ known. AreCoveredAfter (graph_of graph.now) (boundaries_of cuts.now) node known covered.old.items covered.new.items) }
{
    let ahead = ahead_of(alloc, graph, cuts, node)?;
    let mut found = Vec::new(alloc);
    let exposed = is_exposed_before(
        alloc,
        graph,
        cuts,
        marks,
        covered,
        &mut found,
        &ahead.writes,
        node,
    )?;
    note(covered, &found, &ahead.seen, !exposed);
    Ok(!exposed)
}

/// Whether the node reads elements that its region may not have written before, and may write from the other node on, if there is that one.
fn overwrites_from(
    alloc: Global,
    graph: &Graph,
    cuts: &Cuts,
    marks: &Marks,
    number: usize,
    node: &Node,
    to: Option<usize>,
) -> Result<bool, OutOfMemory>
    requires node { slice_get graph.now.nodes.items number ≡ Some node.now }
    requires marks { AreMarks (graph_of graph.now) marks.now }
    requires locks { AllAfter (graph_of graph.now) (boundaries_of cuts.now) }
    ensures { IfOk result (λ yes. IsTrue yes ↔ OverwritesFromAny (graph_of graph.now) (boundaries_of cuts.now) number to) }
{
    match to {
        Some(to) => {
            let ahead = ahead_of(alloc, graph, cuts, to)?;
            let none: Vec<Vec<bool>> = Vec::new(alloc);
            let mut found = Vec::new(alloc);
            let exposed = exposes_over(
                alloc,
                graph,
                cuts,
                marks,
                &none,
                &mut found,
                &ahead.writes,
                number,
                node,
            )?;
            Ok(exposed)
        }
        None => Ok(false),
    }
}

/// Whether the node reads elements that its region may not have written before, and may write later.
pub(crate) fn overwrites_read(
    alloc: Global,
    graph: &Graph,
    cuts: &Cuts,
    marks: &Marks,
    number: usize,
    node: &Node,
) -> Result<bool, OutOfMemory>
    requires node { slice_get graph.now.nodes.items number ≡ Some node.now }
    requires marks { AreMarks (graph_of graph.now) marks.now }
    requires locks { AllAfter (graph_of graph.now) (boundaries_of cuts.now) }
    ensures { IfOk result (λ yes. IsTrue yes ↔ OverwritesRead (graph_of graph.now) (boundaries_of cuts.now) number) }
{
    if node.reads.is_empty() {
        return Ok(false);
    }
    let after = has_after(graph, cuts, number, node);
    let next = inside(cuts, after, node.next());
    let other = inside(cuts, after, node.other());
    let one = overwrites_from(alloc, graph, cuts, marks, number, node, next)?;
    let two = overwrites_from(alloc, graph, cuts, marks, number, node, other)?;
    Ok(one || two)
}
