//! Fewest boundaries on straight code.
ghost use Rattle.std.specs.Prelude.{◌≡◌, ◌<◌, ◌≤◌, ◌-◌, ℕ, suc, Contains, IfOk, length, map, slice_get, slice_index_or, Some};
ghost use Rattle.flow_graph.specs.Nodes.{graph_of};
ghost use Rattle.flow_graph.specs.IdempotentCuts.{Writes};
ghost use Rattle.region_cutter.specs.FewestCuts.{AreFewest, AreLabels, IsStretch};
ghost use Rattle.region_cutter.specs.links.RegionLimits.{AreChosen, AreCounts, AreSteps, AreWithin, IsLatestCut};

use crate::region_limits::limits;
use flow_graph::graph::Graph;
use ido_base::memory::OutOfMemory;
use std::alloc::Global;

/// Takes away the last of these nodes while the one before it is within the limit.
fn shorten(nearest: &mut Vec<usize>, limit: usize)
    requires some { 0 < length nearest.old.items }
    requires last { (count node : ℕ) → suc count ≡ length nearest.old.items → slice_get nearest.old.items count ≡ Some node → node ≤ limit }
    ensures { AreWithin limit nearest.old.items nearest.new.items }
{
    while nearest.len() > 1 && nearest[nearest.len() - 2] <= limit {
        nearest.pop();
    }
}

/// How many regions are needed from each node on, where these are the limits of all nodes. For each count it knows the nearest node from
/// which no more are needed.
fn counts(
    alloc: Global,
    limits: &[usize],
    first: usize,
    past: usize,
) -> Result<Vec<usize>, OutOfMemory>
    requires some { first < past }
    requires limits { AreSteps first past limits.now }
    ensures { IfOk result (λ counts. AreCounts first past first limits.now counts.items) }
{
    let mut counts = vec![in alloc; 0; past - first + 1]?;
    let mut nearest = vec![in alloc; past]?;
    let mut number = past;
    while number > first {
        number -= 1;
        shorten(&mut nearest, limits[number - first]);
        counts[number - first] = nearest.len();
        nearest.push(number)?;
    }
    Ok(counts)
}

/// The latest node to which a region from there leads and from which one region less is needed.
fn next_cut(limits: &[usize], counts: &[usize], first: usize, past: usize, from: usize) -> usize
    requires from_first { first ≤ from }
    requires before { from < past }
    requires limits { AreSteps first past limits.now }
    requires counts { AreCounts first past first limits.now counts.now }
    ensures { IsLatestCut first limits.now counts.now from result }
{
    let wanted = counts[from - first] - 1;
    let mut cut = limits[from - first];
    while counts[cut - first] != wanted {
        cut -= 1;
    }
    cut
}

/// The nodes before which the regions end, but for the last one.
fn chosen(
    alloc: Global,
    limits: &[usize],
    counts: &[usize],
    first: usize,
    past: usize,
) -> Result<Vec<usize>, OutOfMemory>
    requires some { first < past }
    requires limits { AreSteps first past limits.now }
    requires counts { AreCounts first past first limits.now counts.now }
    ensures { IfOk result (λ cuts. AreChosen first past limits.now counts.now first cuts.items) }
{
    let mut cuts = Vec::new(alloc);
    let mut from = first;
    while counts[from - first] > 1 {
        from = next_cut(limits, counts, first, past, from);
        cuts.push(from)?;
    }
    Ok(cuts)
}

/// How many regions less are needed from each node on than from the first.
fn labels_of(alloc: Global, counts: &[usize]) -> Result<Vec<usize>, OutOfMemory>
    requires { 0 < length counts.now }
    ensures { IfOk result (λ labels. labels.items ≡ map (λ count. slice_index_or counts.now 0 0 - count) counts.now) }
{
    let all = counts[0];
    let mut labels = Vec::with_capacity(alloc, counts.len())?;
    for count in counts {
        labels.push(all.saturating_sub(*count))?;
    }
    Ok(labels)
}

/// Of straight code the fewest boundaries, of the fewest those that stand latest, and labels of its nodes and its end that show that
/// there can't be fewer. It takes a time that grows with the nodes times the locations that they read.
pub fn fewest(
    alloc: Global,
    graph: &Graph,
    first: usize,
    past: usize,
) -> Result<(Vec<usize>, Vec<usize>), OutOfMemory>
    requires { IsStretch (graph_of graph.now) first past }
    ensures cuts { IfOk result (λ found. AreFewest (graph_of graph.now) first past found.0.items) }
    ensures labels { IfOk result (λ found. AreLabels (graph_of graph.now) first past (length found.0.items) found.1.items) }
    ensures writes { IfOk result (λ found. (node : ℕ) → Contains found.0.items node → Writes (graph_of graph.now) node) }
    ensures long { IfOk result (λ found. length found.1.items ≡ suc (past - first)) }
{
    let limits = limits(alloc, graph, first, past)?;
    let counts = counts(alloc, &limits, first, past)?;
    let cuts = chosen(alloc, &limits, &counts, first, past)?;
    let labels = labels_of(alloc, &counts)?;
    Ok((cuts, labels))
}
