//! The places of names, found by hash.
ghost use Rattle.std.specs.Prelude.{◌≡◌, ℕ, List, cond, IfOk, OnOk, OnErr, IsSome, Some, None};
ghost use Rattle.std.specs.Option.{option_or};
ghost use Rattle.c_tree.specs.Names.{same_name};
ghost use Rattle.c_typer.specs.links.Places.{place_of};

use indexmap::IndexMap;
use std::alloc::{AllocError, Global};

/// The place of each name that has one. A name that had one and has none any more keeps its entry.
#[derive(Drop)]
pub struct Places {
    by_name: IndexMap<Vec<u8>, Option<usize>>,
}

impl Places {
    /// No name has a place.
    pub fn new(alloc: Global) -> Places
        ensures { (name : List ℕ) → place_of result name ≡ None }
    {
        Places {
            by_name: IndexMap::new(alloc),
        }
    }

    /// The place of a name.
    pub fn get(&self, name: &[u8]) -> Option<usize>
        ensures { result ≡ place_of self.now name.now }
    {
        self.by_name.get(name).copied().flatten()
    }

    /// Puts a name at a place, and answers the place that it had before.
    pub fn put(&mut self, name: Vec<u8>, place: usize) -> Result<Option<usize>, AllocError>
        ensures before { IfOk result (λ before. before ≡ place_of self.old name.items) }
        ensures put { OnOk result ((other : List ℕ) → place_of self.new other ≡ cond (same_name name.items other) (Some place) (place_of self.old other)) }
        ensures kept { OnErr result ((other : List ℕ) → place_of self.new other ≡ place_of self.old other) }
    {
        Ok(self.by_name.insert(name, Some(place))?.flatten())
    }

    /// Puts a name at a place if it has none.
    pub fn put_first(&mut self, name: &Vec<u8>, place: usize) -> Result<(), AllocError>
        ensures { OnOk result ((other : List ℕ) → place_of self.new other
            ≡ option_or (place_of self.old other) (cond (same_name name.now.items other) (Some place) None)) }
    {
        if self.get(name).is_none() {
            self.put(name.clone()?, place)?;
        }
        Ok(())
    }

    /// Puts a name that has a place at the one that it had before, or at none.
    pub fn put_back(&mut self, name: &[u8], before: Option<usize>)
        requires { IsSome (place_of self.old name.now) }
        ensures { (other : List ℕ) → place_of self.new other ≡ cond (same_name name.now other) before (place_of self.old other) }
    {
        if let Some(place) = self.by_name.get_mut(name) {
            *place = before;
        }
    }
}
