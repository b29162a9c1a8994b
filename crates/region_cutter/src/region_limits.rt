//! How far regions of straight code may go: for each node from which a region may begin, up to where it may be run again.
ghost use Rattle.std.specs.Prelude.{◌≡◌, ◌↔◌, ◌<◌, ◌≤◌, ℕ, suc, Contains, IfOk, OnOk, IsTrue, Some, length, slice_get};
ghost use Rattle.ido_base.specs.declared.location.Location as place;
ghost use Rattle.flow_graph.specs.Nodes.{graph_of};
ghost use Rattle.region_cutter.specs.Elements.{ReadsElements};
ghost use Rattle.region_cutter.specs.links.RegionLimits.{AddsTracks, AreAtEnd, AreLimits, AreTracked, HasTrack};
ghost use Rattle.region_cutter.specs.links.RegionLimits.{HaveReads, IsHit, IsLeastHit, IsLimit, IsNext, IsTracked};

use crate::local::{is_among, writes_over, writes_same};
use flow_graph::graph::{Graph, Node};
use ido_base::location::Location;
use ido_base::memory::OutOfMemory;
use std::alloc::Global;

/// Elements that are read in straight code, as seen from one of its nodes.
#[derive(Clone, Copy, Drop)]
pub(crate) struct Track {
    elements: Location,
    /// The first node from there on that may write one of the elements, or the end.
    next: usize,
    /// The first node that may overwrite them where a region that begins there has read them, or the end.
    hit: usize,
}

/// Whether the node reads the elements.
fn reads(graph: &Graph, elements: Location, number: usize, node: &Node) -> bool
    requires { slice_get graph.now.nodes.items number ≡ Some node.now }
    ensures { IsTrue result ↔ ReadsElements (graph_of graph.now) elements number }
{
    is_among(&node.reads, elements)
}

/// The first node from this one on that may write one of the elements, where that is the first after it.
fn next_from(graph: &Graph, track: Track, number: usize, node: &Node, past: usize) -> usize
    requires node { slice_get graph.now.nodes.items number ≡ Some node.now }
    requires before { number < past }
    requires tracked { IsTracked (graph_of graph.now) (suc number) past track }
    ensures { IsNext (graph_of graph.now) track.elements number past result }
{
    if writes_over(graph, track.elements, number, node) {
        number
    } else {
        track.next
    }
}

/// The first node that may overwrite the elements where a region that begins at this one has read them.
fn hit_from(graph: &Graph, track: Track, number: usize, node: &Node, past: usize) -> usize
    requires node { slice_get graph.now.nodes.items number ≡ Some node.now }
    requires before { number < past }
    requires tracked { IsTracked (graph_of graph.now) (suc number) past track }
    ensures { IsHit (graph_of graph.now) track.elements number past result }
{
    if reads(graph, track.elements, number, node) {
        track.next
    } else if writes_same(graph, track.elements, number, node) {
        past
    } else {
        track.hit
    }
}

/// The elements as seen from this node, where that is how they are seen from the next.
fn seen_from(graph: &Graph, track: Track, number: usize, node: &Node, past: usize) -> Track
    requires node { slice_get graph.now.nodes.items number ≡ Some node.now }
    requires before { number < past }
    requires tracked { IsTracked (graph_of graph.now) (suc number) past track }
    ensures tracked { IsTracked (graph_of graph.now) number past result }
    ensures elements { result.elements ≡ track.elements }
{
    Track {
        elements: track.elements,
        next: next_from(graph, track, number, node, past),
        hit: hit_from(graph, track, number, node, past),
    }
}

/// Goes back to the node with all elements.
fn go_back(graph: &Graph, tracks: &mut [Track], number: usize, past: usize)
    requires exists { number < length graph.now.nodes.items }
    requires before { number < past }
    requires tracked { AreTracked (graph_of graph.now) (suc number) past tracks.old }
    ensures tracked { AreTracked (graph_of graph.now) number past tracks.new }
    ensures kept { (elements : place.Location) → HasTrack tracks.old elements → HasTrack tracks.new elements }
{
    let node = &graph.nodes[number];
    for k in 0..tracks.len() {
        tracks[k] = seen_from(graph, tracks[k], number, node, past);
    }
}

/// The least hit.
fn least_hit(tracks: &[Track], past: usize) -> usize
    ensures { IsLeastHit past result tracks.now }
{
    let mut least = past;
    for track in tracks {
        if track.hit < least {
            least = track.hit;
        }
    }
    least
}

/// Whether the elements are among these.
fn is_tracked(tracks: &[Track], elements: Location) -> bool
    ensures { IsTrue result → HasTrack tracks.now elements }
{
    for track in tracks {
        if track.elements == elements {
            return true;
        }
    }
    false
}

/// Adds the elements, if they aren't there, as seen from the end.
fn add_track(tracks: &mut Vec<Track>, elements: Location, past: usize) -> Result<(), OutOfMemory>
    ensures { OnOk result (AddsTracks past (λ read. elements ≡ read) tracks.old.items tracks.new.items) }
{
    if !is_tracked(tracks, elements) {
        tracks.push(Track {
            elements,
            next: past,
            hit: past,
        })?;
    }
    Ok(())
}

/// Adds what the node reads.
fn add_tracks(tracks: &mut Vec<Track>, node: &Node, past: usize) -> Result<(), OutOfMemory>
    ensures { OnOk result (AddsTracks past (Contains node.now.reads.items) tracks.old.items tracks.new.items) }
{
    for elements in &node.reads {
        add_track(tracks, *elements, past)?;
    }
    Ok(())
}

/// What the nodes read, each location once, as seen from the end.
fn tracks_of(
    alloc: Global,
    graph: &Graph,
    first: usize,
    past: usize,
) -> Result<Vec<Track>, OutOfMemory>
    requires { past ≤ length graph.now.nodes.items }
    ensures end { IfOk result (λ tracks. AreAtEnd past tracks.items) }
    ensures reads { IfOk result (λ tracks. HaveReads (graph_of graph.now) first past tracks.items) }
{
    let mut tracks = Vec::new(alloc);
    for number in first..past {
        add_tracks(&mut tracks, &graph.nodes[number], past)?;
    }
    Ok(tracks)
}

/// Goes back to the node with all elements. Its limit.
fn limit_at(graph: &Graph, tracks: &mut [Track], first: usize, number: usize, past: usize) -> usize
    requires exists { number < length graph.now.nodes.items }
    requires before { number < past }
    requires from_first { first ≤ number }
    requires tracked { AreTracked (graph_of graph.now) (suc number) past tracks.old }
    requires reads { HaveReads (graph_of graph.now) first past tracks.old }
    ensures tracked { AreTracked (graph_of graph.now) number past tracks.new }
    ensures reads { HaveReads (graph_of graph.now) first past tracks.new }
    ensures limit { IsLimit (graph_of graph.now) number past result }
{
    go_back(graph, tracks, number, past);
    least_hit(tracks, past)
}

/// Of each node from `first` up to before `past` up to where a region that begins there may go. It goes from the last to the first, and
/// looks at each location that is read among them once a node.
pub fn limits(
    alloc: Global,
    graph: &Graph,
    first: usize,
    past: usize,
) -> Result<Vec<usize>, OutOfMemory>
    requires some { first ≤ past }
    requires exist { past ≤ length graph.now.nodes.items }
    ensures { IfOk result (λ limits. AreLimits (graph_of graph.now) first past first limits.items) }
{
    let mut tracks = tracks_of(alloc, graph, first, past)?;
    let mut limits = vec![in alloc; past; past - first]?;
    let mut number = past;
    while number > first {
        number -= 1;
        limits[number - first] = limit_at(graph, &mut tracks, first, number, past);
    }
    Ok(limits)
}
