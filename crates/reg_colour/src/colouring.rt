//! Registers for the locals of all threads.
ghost use Rattle.std.specs.Prelude.{◌≡◌, IfOk, IfErr};
ghost use Rattle.flow_graph.specs.Nodes.{graph_of};
ghost use Rattle.flow_graph.specs.Liveness.{HasRoom, HasNoClash, AreRegisters};
ghost use Rattle.flow_graph.specs.LocalSets.{AreLive};
ghost use Rattle.flow_graph.specs.Colours.{colouring_of};
ghost use Rattle.reg_colour.specs.RefusedColourings.{IsRefusedColouring};
ghost use Rattle.reg_colour.specs.links.Threads.{IsThread, IsEarlier};

use crate::intervals::intervals;
use crate::scan::{Crowd, Outcome, scan};
use flow_graph::colours::Colours;
use flow_graph::graph::{Graph, Part};
use flow_graph::live_sets::LiveSets;
use ido_base::memory::OutOfMemory;
use ido_base::place::Place;
use std::alloc::{AllocFailed, Global};
use thiserror::Error;

/// Why locals have no registers.
#[derive(Clone, Copy, Debug, PartialEq, Eq, Drop, Error)]
pub enum ColourRefusal {
    /// The intervals of more locals of a thread hold a node than there are registers: its place, which is that of the first
    /// such node, and how many they are.
    #[error("{wanted} locals are live over one step")]
    Locals { place: Place, wanted: usize },
    /// An allocation was refused.
    #[error("out of memory")]
    Memory,
}

impl From<OutOfMemory> for ColourRefusal {
    ghost use Rattle.reg_colour.specs.declared.colouring.ColourRefusal.TheVariants.{Memory as Unremembered};

    ghost from_gives = { λ _ e. e ≡ Unremembered };

    fn from(_: OutOfMemory) -> Self {
        ColourRefusal::Memory
    }
}

impl<T: Drop> From<AllocFailed<T>> for ColourRefusal {
    ghost use Rattle.reg_colour.specs.declared.colouring.ColourRefusal.TheVariants.{Memory as Unremembered};

    ghost from_gives = { λ _ e. e ≡ Unremembered };

    fn from(_: AllocFailed<T>) -> Self {
        ColourRefusal::Memory
    }
}

/// Of two crowds the one at the earlier node.
fn earlier(found: Option<Crowd>, crowd: Crowd) -> Crowd
    ensures { IsEarlier found crowd result }
{
    match found {
        Some(found) if found.node <= crowd.node => found,
        _ => crowd,
    }
}

/// Registers for the locals of a thread, or its first node that too many intervals hold.
fn colour_thread(
    alloc: Global,
    graph: &Graph,
    live: &LiveSets,
    part: Part,
) -> Result<Outcome, OutOfMemory>
    requires { AreLive (graph_of graph.now) live.now }
    ensures { IfOk result (IsThread (graph_of graph.now) part) }
{
    let intervals = intervals(alloc, graph, live, part, part.locals)?;
    scan(alloc, part, &intervals)
}

/// A register below 18 for each local of each thread, so that no two of a thread have one whose intervals share a node: a
/// linear scan (Poletto and Sarkar) over the intervals. A local that no node touches may have any. It is refused where the
/// intervals of more than 18 locals hold a node: by the place of the first such node, and how many they are. The live sets
/// are those of the graph.
pub fn colour(alloc: Global, graph: &Graph, live: &LiveSets) -> Result<Colours, ColourRefusal>
    requires { AreLive (graph_of graph.now) live.now }
    ensures registers { IfOk result (λ colours. AreRegisters (graph_of graph.now) (colouring_of colours)) }
    ensures apart { IfOk result (λ colours. HasNoClash (graph_of graph.now) (colouring_of colours)) }
    ensures room { IfOk result (λ _. HasRoom (graph_of graph.now)) }
    ensures refused { IfErr result (IsRefusedColouring (graph_of graph.now)) }
{
    let mut threads = Vec::new(alloc);
    let mut crowd = None;
    for part in &graph.threads {
        match colour_thread(alloc, graph, live, *part)? {
            Outcome::Coloured(registers) => threads.push(registers)?,
            Outcome::Crowded(found) => crowd = Some(earlier(crowd, found)),
        }
    }
    match crowd {
        None => Ok(Colours { threads }),
        Some(crowd) => Err(ColourRefusal::Locals {
            place: graph.nodes[crowd.node].place,
            wanted: crowd.wanted,
        }),
    }
}
