//! The check of cuts.
ghost use Rattle.std.specs.Prelude.{◌≡◌, ℕ, IfOk, IfErr, MatchOption};
ghost use Rattle.flow_graph.specs.Nodes.{graph_of};
ghost use Rattle.flow_graph.specs.IdempotentCuts.{boundaries_of, AreCuts};
ghost use Rattle.region_checker.specs.Conflicts.{IsRefusedCut};
ghost use Rattle.region_checker.specs.links.ConflictSearch.{IsFirstFound, with_read};

use crate::boundaries::missing;
use crate::conflicts::{first_read, first_store};
use crate::error::{CheckError, Idempotent};
use crate::paths::regions_of;
use flow_graph::cuts::Cuts;
use flow_graph::graph::Graph;
use ido_base::memory::OutOfMemory;
use std::alloc::Global;

/// A node that reads what another one overwrites in the same region.
#[derive(Clone, Copy, Drop)]
struct Conflict {
    read: usize,
    store: usize,
}

/// The conflict of the store with the read.
fn with_read(store: usize, read: Option<usize>) -> Option<Conflict>
    ensures { result ≡ with_read store read }
{
    match read {
        Some(read) => Some(Conflict { read, store }),
        None => None,
    }
}

/// The first conflict.
fn first_conflict(
    alloc: Global,
    graph: &Graph,
    cuts: &Cuts,
) -> Result<Option<Conflict>, OutOfMemory>
    ensures { IfOk result (IsFirstFound (graph_of graph.now) (boundaries_of cuts.now)) }
{
    let regions = regions_of(alloc, graph, cuts)?;
    match first_store(alloc, graph, &regions)? {
        Some(store) => {
            let read = first_read(alloc, graph, &regions, store)?;
            Ok(with_read(store, read))
        }
        None => Ok(None),
    }
}

/// Whether a boundary stands after each lock and before each unlock, and each region may be run again. The first boundary that
/// is missing is reported; where none is, the first store that overwrites what its region has read, and its first such read. Only for
/// that is each location looked for in the whole graph.
pub fn check(alloc: Global, graph: &Graph, cuts: &Cuts) -> Result<Idempotent, CheckError>
    ensures accepted { IfOk result (λ _. AreCuts (graph_of graph.now) (boundaries_of cuts.now)) }
    ensures refused { IfErr result (IsRefusedCut (graph_of graph.now) (boundaries_of cuts.now)) }
{
    if let Some(error) = missing(graph, cuts) {
        return Err(error);
    }
    if region_cutter::is_idempotent(alloc, graph, cuts)? {
        return Ok(Idempotent);
    }
    match first_conflict(alloc, graph, cuts)? {
        Some(Conflict { read, store }) => Err(CheckError::Anti { read, store }),
        None => Ok(Idempotent),
    }
}
