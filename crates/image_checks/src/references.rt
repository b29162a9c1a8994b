//! Whether the references among variables are null or lead to elements.
ghost use Rattle.std.specs.Prelude.{◌≡◌, ◌↔◌, ◌+◌, ◌*◌, ◌<◌, ◌≤◌, map, slice_index, IfOk, IsTrue, MatchOption, MatchResult};
ghost use Rattle.ido_base.specs.Words.{durable_value, word_of};
ghost use Rattle.ido_base.specs.declared.limits.TheConstants.{MOST_VARIABLE_BYTES};
ghost use Rattle.ido_ints.specs.Kinds.{bytes_of};
ghost use Rattle.c_tree.specs.Flats.{flat_of};
ghost use Rattle.c_tree.specs.Programs.{variable_of};
ghost use Rattle.c_tree.specs.WellFormed.{elements_in, shape_of};
ghost use Rattle.c_ranges.specs.Laws.{IsNullOrReference};
ghost use Rattle.memory_layout.specs.Variables.{HaveRoom};
ghost use Rattle.variable_words.specs.Variables.{number_of_byte};
ghost use Rattle.image_checks.specs.VariableReferences.{AreReferences, IsReferenceFault};
ghost use Rattle.image_checks.specs.links.Errors.{IsFaultOrMemory};
ghost use Rattle.image_checks.specs.links.ElementNumbers.{AreRight, IsFirstOutside, IsFirstWrongIn, IsVariableRight};

use crate::error::ImageError;
use crate::slots::elements_of;
use c_tree::flat::Flat;
use c_tree::program::Variable;
use ido_base::memory::OutOfMemory;
use ido_ints::Kind;
use memory_layout::variables::VARIABLES_BASE;
use std::alloc::Global;
use variable_words::places::{addresses, number_in};

/// The word of that number; past the words it is 0.
fn word_in(words: &[u64], number: u32) -> u64
    ensures { result ≡ slice_index words.now number }
{
    words.get(number as usize).copied().unwrap_or(0)
}

/// The number of this kind that stands at this byte of the variables, by the words of all.
fn number_at(words: &[u64], kind: Kind, byte: u32) -> i128
    ensures { result ≡ number_of_byte durable_value (map word_of words.now) kind byte }
{
    number_in(word_in(words, byte / 8), kind, byte % 8)
}

/// Whether the number is that of null, or of a reference to one of so many elements.
fn is_right(number: i128, elements: u32) -> bool
    ensures { IsTrue result ↔ IsNullOrReference elements number }
{
    if number < 0 {
        return false;
    }
    number <= i128::from(elements)
}

/// The first of so many elements, of which the first stands at this byte of the variables, whose number isn't that of null or of a reference to one of
/// so many.
fn first_outside(words: &[u64], kind: Kind, first: u32, count: u32, elements: u32) -> Option<u32>
    requires { first + bytes_of kind * count ≤ MOST_VARIABLE_BYTES }
    ensures { MatchOption result (AreRight words.now kind first elements count) (IsFirstOutside words.now kind first elements count) }
{
    let size = kind.bytes();
    for element in 0..count {
        if !is_right(number_at(words, kind, first + size * element), elements) {
            return Some(element);
        }
    }
    None
}

/// The first element of a variable, of which the first stands at this byte of the variables, whose number isn't one of what refers so.
fn first_wrong(
    variables: &[Variable],
    words: &[u64],
    variable: &Variable,
    first: u32,
) -> Option<u32>
    requires { first + bytes_of variable.now.kind * elements_in variable.now.length ≤ MOST_VARIABLE_BYTES }
    ensures { MatchOption result (IsVariableRight (map variable_of variables.now) words.now (variable_of variable.now) first)
        (IsFirstWrongIn (map variable_of variables.now) words.now (variable_of variable.now) first) }
{
    match variable.refers {
        Some(array) => first_outside(
            words,
            variable.kind,
            first,
            variable.length.unwrap_or(1),
            elements_of(variables, array),
        ),
        None => None,
    }
}

/// The number, where it is one of a variable; past 2^32 - 1 there is no memory for so many.
fn variable_number(index: usize) -> Result<u32, OutOfMemory>
    ensures { IfOk result (λ number. number ≡ index) }
{
    u32::try_from(index).map_err(|_| OutOfMemory)
}

/// The first reference, by variable and element, whose number is neither that of null nor of a reference to an element of its array, by the words of
/// all variables.
pub fn check_references(alloc: Global, flat: &Flat, words: &[u64]) -> Result<(), ImageError>
    requires { HaveRoom (map shape_of (flat_of flat.now).variables) }
    ensures { MatchResult result (λ _. AreReferences (flat_of flat.now) words.now) (IsFaultOrMemory (IsReferenceFault (flat_of flat.now) words.now)) }
{
    let addresses = addresses(alloc, &flat.variables)?;
    for index in 0..flat.variables.len() {
        let first = addresses[index] - VARIABLES_BASE as u32;
        if let Some(element) = first_wrong(&flat.variables, words, &flat.variables[index], first) {
            let variable = variable_number(index)?;
            return Err(ImageError::Reference { variable, element });
        }
    }
    Ok(())
}
