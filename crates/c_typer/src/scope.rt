//! The locals that are known at a place.
ghost use Rattle.std.specs.Prelude.{◌≡◌, ◌≤◌, ℕ, List, length};
ghost use Rattle.std.proofs.Props.{props};
ghost use Rattle.c_typer.specs.links.Places.{place_of, last_place, places_before};
ghost use Rattle.c_typer.specs.links.Locals.{names_in, hidden_in};

use crate::globals::Array;
use crate::names::Places;
use ido_ints::Kind;
use std::alloc::{AllocError, Global};

/// A local, and the place among those that are known of the one that it hides.
#[derive(Drop)]
pub struct Local {
    pub name: Vec<u8>,
    pub number: u32,
    pub kind: Kind,
    /// The array to whose elements it refers, where it is a reference.
    pub refers: Option<Array>,
    hidden: Option<usize>,
}

/// The locals that are known, the innermost last, and where those of the own scope begin; of all locals
/// of the function or thread so far the kinds, and the arrays to whose elements they refer; for each name the
/// place of its innermost local.
#[derive(Drop)]
pub struct Scope {
    pub known: Vec<Local>,
    pub mark: usize,
    pub kinds: Vec<Kind>,
    pub refers: Vec<Option<u32>>,
    places: Places,
    ghost within: { mark ≤ length known.items },
    ghost placed: { (name : List ℕ) → place_of places name ≡ last_place name (names_in known.items) } by { Prim.hlevel props },
    ghost hiding: { hidden_in known.items ≡ places_before (names_in known.items) } by { Prim.hlevel props },
}

/// Where a scope ends that another stands inside.
#[derive(Clone, Copy)]
pub struct Mark {
    pub mark: usize,
    pub known: usize,
}

impl Scope {
    ghost use Rattle.std.specs.Prelude.{◌-◌, ◌<◌, find, take, IfOk, OnOk};
    ghost use Rattle.std.specs.List.{list_any};
    ghost use Rattle.std.specs.Option.{option_map};
    ghost use Rattle.c_tree.specs.Names as n;
    ghost use Rattle.c_typer.specs.links.Scopes.{ScopeGrows, array_of, local_of, scope_of};

    /// No locals.
    pub fn new(alloc: Global) -> Scope
        ensures { scope_of result ≡ n.no_locals }
    {
        Scope {
            known: Vec::new(alloc),
            mark: 0,
            kinds: Vec::new(alloc),
            refers: Vec::new(alloc),
            places: Places::new(alloc),
        }
    }

    /// The innermost local of a name.
    pub fn find(&self, name: &[u8]) -> Option<&Local>
        ensures { option_map (λ l. local_of l.now) result ≡ find (λ (x : n.Local). n.same_name x.name name.now) (scope_of self.now).known }
    {
        let place = self.places.get(name)?;
        Some(&self.known[place])
    }

    /// Whether the own scope has a name.
    pub fn has_own(&self, name: &[u8]) -> bool
        ensures { result ≡ list_any (n.same_name name.now) (scope_of self.now).own }
    {
        match self.places.get(name) {
            Some(place) => self.mark <= place,
            None => false,
        }
    }

    /// The number of the next local. More than 2^32 have none.
    pub fn next_number(&self) -> Result<u32, AllocError>
        ensures { IfOk result (λ number. number ≡ length (scope_of self.now).kinds) }
    {
        u32::try_from(self.kinds.len()).map_err(|_| AllocError)
    }

    /// Declares a local.
    pub fn declare(
        &mut self,
        name: &Vec<u8>,
        kind: Kind,
        refers: Option<Array>,
    ) -> Result<(), AllocError>
        ensures declared { OnOk result (scope_of self.new ≡ n.declared_as (scope_of self.old) name.now.items kind (option_map array_of refers)) }
        ensures grows { OnOk result (ScopeGrows self.old self.new) }
    {
        let number = self.next_number()?;
        let text = name.clone()?;
        let key = name.clone()?;
        self.refers.push(Array::number_of(refers))?;
        self.known.reserve(1)?;
        let hidden = self.places.put(key, self.known.len())?;
        self.known.push_reserved(Local {
            name: text,
            number,
            kind,
            refers,
            hidden,
        });
        self.kinds.push(kind)?;
        Ok(())
    }

    /// Enters a scope inside.
    pub fn enter(&mut self) -> Mark
        ensures entered { scope_of self.new ≡ n.entered (scope_of self.old) }
        ensures known { self.new.known ≡ self.old.known }
        ensures outer { result ≡ record { mark = self.old.mark; known = length self.old.known.items } }
    {
        let outer = Mark {
            mark: self.mark,
            known: self.known.len(),
        };
        self.mark = outer.known;
        outer
    }

    /// Leaves the scope that was entered at the mark.
    pub fn leave(&mut self, outer: Mark)
        requires before { outer.mark ≤ outer.known }
        requires inside { outer.known ≤ length self.old.known.items }
        ensures known { self.new.known.items ≡ take outer.known self.old.known.items }
        ensures mark { self.new.mark ≡ outer.mark }
        ensures kinds { self.new.kinds ≡ self.old.kinds }
        ensures refers { self.new.refers ≡ self.old.refers }
    {
        self.mark = outer.mark;
        while self.known.len() > outer.known {
            self.forget();
        }
    }

    /// Forgets the innermost local. The one that it hid is known again.
    fn forget(&mut self)
        requires { self.old.mark < length self.old.known.items }
        ensures known { self.new.known.items ≡ take (length self.old.known.items - 1) self.old.known.items }
        ensures mark { self.new.mark ≡ self.old.mark }
        ensures kinds { self.new.kinds ≡ self.old.kinds }
        ensures refers { self.new.refers ≡ self.old.refers }
    {
        if let Some(local) = self.known.pop() {
            self.places.put_back(&local.name, local.hidden);
        }
    }
}
