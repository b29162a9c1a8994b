//! The numbers of the persistent variables.
ghost use Rattle.std.specs.Prelude.{◌≡◌, ◌<◌, [], length, map, slice_index_or, slice_set, IfOk, IfSome, flat_map};
ghost use Rattle.c_tree.specs.Programs.{variable_of};
ghost use Rattle.c_tree.specs.Values.{element_number};
ghost use Rattle.source_machine.specs.links.Spans.{AreConsecutive, place_in};

use c_tree::program::Variable;
use ido_base::memory::OutOfMemory;
use std::alloc::Global;
use std::marker::Model;

/// Where the elements of a variable stand among all.
#[derive(Clone, Copy)]
struct Span {
    start: usize,
    length: usize,
}

/// The elements of all variables, one variable after another.
#[derive(Drop)]
pub struct Variables {
    elements: Vec<i128>,
    spans: Vec<Span>,
}

impl Model for Variables {
    ghost use Rattle.std.specs.Prelude.{List, ℤ, length};

    ghost Value = { List (List ℤ) };

    ghost use Rattle.source_machine.specs.links.Spans.{parts, AreConsecutive};

    ghost view = { λ v. parts v.spans.items v.elements.items };

    ghost invariant = { λ v. AreConsecutive 0 v.spans.items (length v.elements.items) };
}

/// Where an element of a variable stands, if there is one.
fn place_in(spans: &[Span], end: usize, variable: u32, element: u128) -> Option<usize>
    requires { AreConsecutive 0 spans.now end }
    ensures value { result ≡ place_in spans.now variable element }
    ensures within { IfSome result (λ place. place < end) }
{
    let span = spans.get(variable as usize)?;
    if element < span.length as u128 {
        Some(span.start + element as usize)
    } else {
        None
    }
}

impl Variables {
    /// No variable.
    pub fn none(alloc: Global) -> Variables
        ensures { result ≡ [] }
    {
        Variables {
            elements: Vec::new(alloc),
            spans: Vec::new(alloc),
        }
    }

    /// The variables with their initial numbers.
    pub fn new(alloc: Global, variables: &[Variable]) -> Result<Variables, OutOfMemory>
        ensures { IfOk result (λ v. v ≡ map (λ x. (variable_of x).initial) variables.now) }
    {
        let mut elements = Vec::new(alloc);
        let mut spans = Vec::new(alloc);
        for variable in variables {
            spans.push(Span {
                start: elements.len(),
                length: variable.initial.len(),
            })?;
            elements.extend_from_slice(&variable.initial)?;
        }
        Ok(Variables { elements, spans })
    }

    /// All elements, in order.
    pub fn elements(&self) -> &[i128]
        ensures { result.now ≡ flat_map (λ xs. xs) self.now }
    {
        &self.elements
    }

    /// The number of an element of a variable, or 0 where there is no such element.
    pub fn get(&self, variable: u32, element: u128) -> i128
        ensures { result ≡ element_number self.now variable element }
    {
        match place_in(&self.spans, self.elements.len(), variable, element) {
            Some(place) => self.elements.get(place).copied().unwrap_or(0),
            None => 0,
        }
    }

    /// Stores a number in an element of a variable, where there is one.
    pub fn set(&mut self, variable: u32, element: u128, number: i128)
        ensures { self.new ≡ slice_set self.old variable (slice_set (slice_index_or self.old variable []) element number) }
    {
        if let Some(place) = place_in(&self.spans, self.elements.len(), variable, element) {
            self.elements[place] = number;
        }
    }
}
