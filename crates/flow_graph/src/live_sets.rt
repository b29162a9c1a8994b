//! Which locals are live at which node.
ghost use Rattle.std.specs.Prelude.{◌≡◌, ◌↔◌, ℕ, Contains, IfOk, IsTrue};
ghost use Rattle.std.specs.List.Sorted.{IsStrictlyIncreasing};
ghost use Rattle.flow_graph.specs.LocalSets.{HasAt};

use crate::local_set::LocalSet;
use ido_base::memory::OutOfMemory;
use std::alloc::Global;
use std::marker::Model;

/// Of each node of a graph the locals that are live at its entry.
#[derive(Drop)]
pub struct LiveSets {
    sets: Vec<LocalSet>,
}

impl Model for LiveSets {
    ghost use Rattle.std.specs.Prelude.{ℕ, List};

    ghost Value = { List (List ℕ) };

    ghost view = { λ x. x.sets.items };
}

impl LiveSets {
    /// The sets of live locals, in the order of the nodes.
    pub fn new(sets: Vec<LocalSet>) -> LiveSets
        ensures { result ≡ sets.items }
    {
        LiveSets { sets }
    }

    /// The local is live at the entry of the node. None is where there is no such node.
    pub fn is_live(&self, node: usize, local: usize) -> bool
        ensures { IsTrue result ↔ HasAt self.now node local }
    {
        match self.sets.get(node) {
            Some(set) => set.contains(local),
            None => false,
        }
    }

    /// The locals that are live at the entry of the node, in ascending order; none where there is no such node.
    pub fn locals(&self, alloc: Global, node: usize) -> Result<Vec<u32>, OutOfMemory>
        ensures ascending { IfOk result (λ v. IsStrictlyIncreasing v.items) }
        ensures each { IfOk result (λ v. (local : ℕ) → Contains v.items local ↔ HasAt self.now node local) }
    {
        match self.sets.get(node) {
            Some(set) => set.locals(alloc),
            None => Ok(Vec::new(alloc)),
        }
    }
}
