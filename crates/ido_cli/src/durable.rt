//! The variables that a crash would leave.
ghost use Rattle.std.specs.Prelude.{◌≡◌, ◌+◌, ◌*◌, ◌<◌, ◌≤◌, IfOk, map};
ghost use Rattle.ido_base.specs.Words.{durable_value};
ghost use Rattle.ido_base.specs.declared.limits.TheConstants.{MOST_VARIABLE_BYTES};
ghost use Rattle.ido_ints.specs.Kinds.{bytes_of};
ghost use Rattle.c_tree.specs.Programs.{variable_of};
ghost use Rattle.c_tree.specs.WellFormed.{elements_in, shape_of};
ghost use Rattle.run_tracker.specs.ObjectLives.{world_of};
ghost use Rattle.memory_layout.specs.Variables.{HaveRoom};
ghost use Rattle.variable_words.specs.Variables.{durable_variables, number_of_byte};
ghost use Rattle.run_scripts.specs.links.ReportViews as views;
ghost use Rattle.ido_cli.specs.Runs.{named, variable_with};
ghost use Rattle.ido_cli.specs.Reports.{durable_elements};

use ido_base::memory::OutOfMemory;
use ido_ints::Kind;
use memory_layout::variables::VARIABLES_BASE;
use run_scripts::report::{Variable, reported_elements};
use run_tracker::life::Life;
use std::alloc::Global;
use variable_words::places::{addresses, number_in};

/// The number of an element of this kind that stands at this byte of the variables, as a crash would leave it.
#[tactic(auto, using(crate::proofs::DurableNumbers::word_of_byte))]
fn durable_number(life: &Life, kind: Kind, byte: u32) -> i128
    requires { byte < MOST_VARIABLE_BYTES }
    ensures { result ≡ number_of_byte durable_value (world_of life.now).words kind byte }
{
    let word = life.durable_word(byte / 64, byte % 64 / 8);
    number_in(word, kind, byte % 8)
}

/// The numbers of a variable's elements, of which the first stands at this byte of the variables.
fn durable_elements(
    alloc: Global,
    life: &Life,
    declared: &c_tree::program::Variable,
    first: u32,
) -> Result<Vec<i128>, OutOfMemory>
    requires { first + bytes_of declared.now.kind * elements_in declared.now.length ≤ MOST_VARIABLE_BYTES }
    ensures { IfOk result (λ numbers. numbers.items ≡ durable_elements (world_of life.now).words (variable_of declared.now) first) }
{
    let size = declared.kind.bytes();
    let mut numbers = Vec::new(alloc);
    for element in 0..declared.length.unwrap_or(1) {
        numbers.push(durable_number(life, declared.kind, first + size * element))?;
    }
    Ok(numbers)
}

/// The variable with the numbers that a crash would leave in its elements, of which the first stands at this byte of the variables.
fn durable_variable(
    alloc: Global,
    life: &Life,
    declared: &c_tree::program::Variable,
    first: u32,
) -> Result<Variable, OutOfMemory>
    requires { first + bytes_of declared.now.kind * elements_in declared.now.length ≤ MOST_VARIABLE_BYTES }
    ensures { IfOk result (λ x. views.variable_of x ≡
        variable_with (variable_of declared.now) (durable_elements (world_of life.now).words (variable_of declared.now) first)) }
{
    let numbers = durable_elements(alloc, life, declared, first)?;
    Ok(Variable {
        name: declared.name.text.clone()?,
        elements: reported_elements(alloc, declared.refers, &numbers)?,
    })
}

/// The variables with the numbers that a crash would leave in their elements.
pub fn durable(
    alloc: Global,
    life: &Life,
    declared: &[c_tree::program::Variable],
) -> Result<Vec<Variable>, OutOfMemory>
    requires { HaveRoom (map shape_of (map variable_of declared.now)) }
    ensures { IfOk result (λ found. map views.variable_of found.items ≡
        named (map variable_of declared.now) (durable_variables (world_of life.now).words (map variable_of declared.now))) }
{
    let addresses = addresses(alloc, declared)?;
    let mut found = Vec::new(alloc);
    for (variable, address) in declared.iter().zip(&addresses) {
        let first = *address - VARIABLES_BASE as u32;
        found.push(durable_variable(alloc, life, variable, first)?)?;
    }
    Ok(found)
}
