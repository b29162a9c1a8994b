//! The boundaries from which trials begin: in straight code the fewest, and elsewhere wherever they may stand.
ghost use Rattle.std.specs.Prelude.{◌≡◌, ◌<◌, ◌≤◌, ℕ, Contains, IfOk, length};
ghost use Rattle.flow_graph.specs.Nodes.{graph_of};
ghost use Rattle.flow_graph.specs.IdempotentCuts.{boundaries_of};
ghost use Rattle.region_cutter.specs.FewestCuts.{AreFewestCuts, AreStretches};
ghost use Rattle.region_cutter.specs.links.BoundaryTrials.{AreEverywhere, AreKept};
ghost use Rattle.region_cutter.specs.links.FewBoundaries.{ArePlaced};

use crate::fewest_cuts::fewest;
use crate::start::everywhere;
use crate::straight::{Stretch, stretches};
use flow_graph::cuts::Cuts;
use flow_graph::graph::Graph;
use ido_base::memory::OutOfMemory;
use std::alloc::Global;

/// Of the nodes after the first of straight code leaves a boundary before these alone.
fn place(before: &mut Vec<bool>, stretch: Stretch, chosen: &[usize])
    requires some { stretch.first < stretch.past }
    requires exist { stretch.past ≤ length before.old.items }
    requires inside { (node : ℕ) → Contains chosen.now node → (stretch.first < node) × (node < stretch.past) }
    ensures { ArePlaced stretch.first stretch.past chosen.now before.old.items before.new.items }
{
    for number in stretch.first + 1..stretch.past {
        before[number] = false;
    }
    for cut in chosen {
        before[*cut] = true;
    }
}

/// Leaves the fewest boundaries in straight code, where any may stand.
fn place_fewest(
    alloc: Global,
    graph: &Graph,
    cuts: &mut Cuts,
    stretches: &[Stretch],
) -> Result<(), OutOfMemory>
    requires all { AreStretches (graph_of graph.now) stretches.now }
    requires everywhere { AreEverywhere (graph_of graph.now) (boundaries_of cuts.old) }
    ensures { IfOk result (λ _. AreKept (graph_of graph.now) (boundaries_of cuts.new) × AreFewestCuts (graph_of graph.now) (boundaries_of cuts.new)) }
{
    for stretch in stretches {
        let (chosen, _) = fewest(alloc, graph, stretch.first, stretch.past)?;
        place(&mut cuts.before, *stretch, &chosen);
    }
    Ok(())
}

/// Boundaries wherever they may stand, but in straight code the fewest.
pub(crate) fn few(alloc: Global, graph: &Graph) -> Result<Cuts, OutOfMemory>
    ensures kept { IfOk result (λ cuts. AreKept (graph_of graph.now) (boundaries_of cuts)) }
    ensures fewest { IfOk result (λ cuts. AreFewestCuts (graph_of graph.now) (boundaries_of cuts)) }
{
    let mut cuts = everywhere(alloc, graph)?;
    let stretches = stretches(alloc, graph)?;
    place_fewest(alloc, graph, &mut cuts, &stretches)?;
    Ok(cuts)
}
