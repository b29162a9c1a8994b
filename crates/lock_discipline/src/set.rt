//! Sets of names.
ghost use Rattle.std.specs.Prelude.{◌≡◌, ◌<◌, ◌^◌, ℕ, length, slice_set, find, IfOk};
ghost use Rattle.c_tree.specs.LockNames.{count_held, holds, none_held};
ghost use Rattle.c_tree.specs.LockDiscipline.{numbers_below};

use ido_base::memory::OutOfMemory;
use std::alloc::Global;
use std::marker::Model;
use std::rc::Rc;

/// Which of a thread's names are held.
#[derive(Drop)]
pub struct NameSet {
    /// Of each name whether it is: the steps between two that take or give a lock share it.
    held: Rc<Vec<bool>>,
    /// How many are.
    count: u32,
}

impl Model for NameSet {
    ghost use Rattle.std.specs.Prelude.{Bool, List, ◌≡◌, ◌<◌, ◌^◌, length};
    ghost use Rattle.c_tree.specs.LockNames.{count_held};

    ghost Value = { List Bool };

    ghost view = { λ s. s.held.value.items };

    ghost invariant = { λ s. (length s.held.value.items < 2 ^ 32) × (s.count ≡ count_held s.held.value.items) };
}

/// How many are held.
fn count(held: &[bool]) -> u32
    requires { length held.now < 2 ^ 32 }
    ensures { result ≡ count_held held.now }
{
    let mut count = 0;
    for is_held in held {
        if *is_held {
            count += 1;
        }
    }
    count
}

impl NameSet {
    /// The names of which that is said, one by one, are held.
    fn of(alloc: Global, held: Vec<bool>) -> Result<NameSet, OutOfMemory>
        requires { length held.items < 2 ^ 32 }
        ensures { IfOk result (λ set. set ≡ held.items) }
    {
        let count = count(&held);
        let held = Rc::new(alloc, held)?;
        Ok(NameSet { held, count })
    }

    /// No name, of so many.
    pub fn none(alloc: Global, names: usize) -> Result<NameSet, OutOfMemory>
        ensures { IfOk result (λ set. set ≡ none_held names) }
    {
        if names > u32::MAX as usize {
            return Err(OutOfMemory);
        }
        let held: Vec<bool> = vec![in alloc; false; names]?;
        NameSet::of(alloc, held)
    }

    /// The set once more.
    pub fn again(&self) -> Result<NameSet, OutOfMemory>
        ensures { IfOk result (λ set. set ≡ self.now) }
    {
        let held = self.held.clone()?;
        Ok(NameSet {
            held,
            count: self.count,
        })
    }

    /// Of each name whether it is held.
    pub fn names(&self) -> &[bool]
        ensures is { result.now ≡ self.now }
        ensures few { length result.now < 2 ^ 32 }
    {
        self.held.as_ref()
    }

    /// The name is held.
    pub fn holds(&self, name: usize) -> bool
        ensures { result ≡ holds self.now name }
    {
        match self.names().get(name) {
            Some(is_held) => *is_held,
            None => false,
        }
    }

    /// How many are held.
    pub fn count(&self) -> u32
        ensures { result ≡ count_held self.now }
    {
        self.count
    }

    /// The set in which the name is held, or isn't, where there is such a one.
    pub fn with(&self, alloc: Global, name: usize, is_held: bool) -> Result<NameSet, OutOfMemory>
        ensures { IfOk result (λ set. set ≡ slice_set self.now name is_held) }
    {
        let mut held = Vec::from_slice(alloc, self.names())?;
        if name < held.len() {
            held[name] = is_held;
        }
        NameSet::of(alloc, held)
    }

    /// The least name that is held.
    pub fn least(&self) -> Option<usize>
        ensures { result ≡ find (λ m. holds self.now m) (numbers_below (length self.now)) }
    {
        for (name, is_held) in self.names().iter().enumerate() {
            if *is_held {
                return Some(name);
            }
        }
        None
    }
}
