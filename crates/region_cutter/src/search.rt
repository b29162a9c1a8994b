//! Searches along the paths of a graph.
ghost use Rattle.std.specs.Prelude.{◌≡◌, ◌++◌, [], IfOk, OnOk, Some, false, option_to_list, replicate};
ghost use Rattle.region_cutter.specs.links.GraphSearch.{IsSearchStep};

use ido_base::memory::OutOfMemory;
use std::alloc::Global;

/// The nodes that a search has come to, and those of them from which it has still to go on.
#[derive(Drop)]
pub(crate) struct Search {
    pub(crate) seen: Vec<bool>,
    pub(crate) waiting: Vec<usize>,
}

impl Search {
    /// A search among so many nodes that begins at this one.
    pub(crate) fn at(alloc: Global, nodes: usize, from: usize) -> Result<Search, OutOfMemory>
        ensures { IfOk result (λ search. IsSearchStep (λ node. from ≡ node) (replicate nodes false) [] search.seen.items search.waiting.items) }
    {
        let seen = vec![in alloc; false; nodes]?;
        let mut search = Search {
            seen,
            waiting: Vec::new(alloc),
        };
        search.come_to(from)?;
        Ok(search)
    }

    /// A search among so many nodes that begins nowhere.
    pub(crate) fn nowhere(alloc: Global, nodes: usize) -> Result<Search, OutOfMemory>
        ensures seen { IfOk result (λ search. search.seen.items ≡ replicate nodes false) }
        ensures waiting { IfOk result (λ search. search.waiting.items ≡ []) }
    {
        let seen = vec![in alloc; false; nodes]?;
        Ok(Search {
            seen,
            waiting: Vec::new(alloc),
        })
    }

    /// Comes to the node, if there is that one: goes on from there some time, unless the search has come to it before.
    pub(crate) fn come_to(&mut self, number: usize) -> Result<(), OutOfMemory>
        ensures { OnOk result (IsSearchStep (λ node. number ≡ node) self.old.seen.items self.old.waiting.items self.new.seen.items self.new.waiting.items) }
    {
        if number < self.seen.len() && !self.seen[number] {
            self.waiting.push(number)?;
            self.seen[number] = true;
        }
        Ok(())
    }

    /// Comes to the node, where the number is one: goes on from there some time, unless the search has come to it before.
    pub(crate) fn come_to_any(&mut self, number: Option<usize>) -> Result<(), OutOfMemory>
        ensures { OnOk result (IsSearchStep (λ node. number ≡ Some node) self.old.seen.items self.old.waiting.items self.new.seen.items
            self.new.waiting.items) }
    {
        match number {
            Some(number) => self.come_to(number)?,
            None => {}
        }
        Ok(())
    }
}
