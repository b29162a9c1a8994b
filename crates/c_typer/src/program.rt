//! The whole program.
ghost use Rattle.std.specs.Prelude.{◌≡◌, ◌++◌, [], map, flat_map, IfOk, OnOk};
ghost use Rattle.std.specs.Option.{option_map};
ghost use Rattle.c_tree.specs.Programs as p;
ghost use Rattle.c_tree.specs.TypeRules as rules;
ghost use Rattle.c_tree.specs.Elaboration as typing;
ghost use Rattle.c_tree.specs.Views.{item_of, items_of, length_of, name_of};
ghost use Rattle.c_typer.specs.links.FirstFaults.{first_of, noted};
ghost use Rattle.c_typer.specs.links.Scopes.{globals_of};
ghost use Rattle.c_typer.specs.Answers.{Answers};
ghost use Rattle.c_typer.specs.links.JoinedPrograms.{and_item, nothing};

use crate::faults::Faults;
use crate::globals::{Globals, copied};
use crate::item::{checked_count, checked_length, function, note_length, thread, variable};
use crate::text::{note_bytes, note_mutexes, note_second_declarations, note_threads};
use c_tree::language::Language;
use c_tree::program::{Mutex, Program};
use c_tree::refusal::SourceError;
use c_tree::tree;
use c_tree::tree::{Item, Tree};
use std::alloc::{AllocError, Global};

fn empty(alloc: Global) -> Program
    ensures { p.program_of result ≡ nothing }
{
    Program {
        mutexes: Vec::new(alloc),
        variables: Vec::new(alloc),
        functions: Vec::new(alloc),
        threads: Vec::new(alloc),
    }
}

/// A mutex, or those of an array, after those that were made.
fn add_mutexes(read: &tree::Mutex, made: &mut Vec<Mutex>) -> Result<(), AllocError>
    ensures { OnOk result (rules.length_faults (option_map length_of read.now.length) ≡ []
        → map p.mutex_of made.new.items ≡ map p.mutex_of made.old.items ++ typing.mutexes [] (name_of read.now.name) (option_map length_of read.now.length)) }
{
    let length = checked_length(&read.length);
    for _ in 0..checked_count(&read.length) {
        made.push(Mutex {
            name: copied(&read.name)?,
            length,
        })?;
    }
    Ok(())
}

/// One more item after those that were made.
fn add(
    alloc: Global,
    globals: &Globals,
    faults: &mut Faults,
    item: &Item,
    made: &mut Program,
) -> Result<(), AllocError>
    ensures made { OnOk result (first_of faults.new ≡ None
        → p.program_of made.new ≡ and_item (globals_of globals.now) (p.program_of made.old) (item_of item.now)) }
    ensures noted { OnOk result (first_of faults.new
        ≡ noted (first_of faults.old) (rules.item_faults globals.now.language (globals_of globals.now) (item_of item.now))) }
{
    match item {
        Item::Mutex(read) => {
            note_length(faults, &read.length);
            if faults.first.is_none() {
                add_mutexes(read, &mut made.mutexes)?;
            }
        }
        Item::Persistent(read) => {
            made.variables
                .push(variable(alloc, globals, faults, read)?)?;
        }
        Item::Thread(read) => made.threads.push(thread(alloc, globals, faults, read)?)?,
        Item::Function(read) => made
            .functions
            .push(function(alloc, globals, faults, read)?)?,
    }
    Ok(())
}

/// One more item after those that were made; it is dropped.
fn add_last(
    alloc: Global,
    globals: &Globals,
    faults: &mut Faults,
    item: Item,
    made: &mut Program,
) -> Result<(), AllocError>
    ensures made { OnOk result (first_of faults.new ≡ None
        → p.program_of made.new ≡ and_item (globals_of globals.now) (p.program_of made.old) (item_of item)) }
    ensures noted { OnOk result (first_of faults.new
        ≡ noted (first_of faults.old) (rules.item_faults globals.now.language (globals_of globals.now) (item_of item))) }
{
    add(alloc, globals, faults, &item, made)
}

/// The items of a tree, each of which is dropped as soon as it is typed.
#[tactic(auto, using(crate::proofs::ItemRows::joins))]
fn items(
    alloc: Global,
    globals: &Globals,
    faults: &mut Faults,
    tree: Tree,
) -> Result<Program, AllocError>
    ensures made { IfOk result (λ x. first_of faults.new ≡ None → p.program_of x ≡ typing.program_from (globals_of globals.now) (items_of tree)) }
    ensures noted { OnOk result (first_of faults.new ≡ noted (first_of faults.old)
        (flat_map (rules.item_faults globals.now.language (globals_of globals.now)) (items_of tree))) }
{
    let mut made = empty(alloc);
    for item in tree.items {
        add_last(alloc, globals, faults, item, &mut made)?;
    }
    Ok(made)
}

/// The program that a tree of a language is: its names resolved, its kinds fixed, its initialisers converted; or
/// the first of its tokens where a rule of names and kinds is broken; at one place the order of rules (`order_of`) decides.
/// `Memory` is answered also where
/// the variables or functions of the text, the parameters of a function, the locals of a
/// function or thread, or a mutex that is named in one would be numbered past 2^32 - 1.
pub fn type_tree(alloc: Global, language: Language, tree: Tree) -> Result<Program, SourceError>
    ensures { Answers language (items_of tree) result }
{
    let globals = Globals::of(alloc, language, &tree)?;
    let mut faults = Faults::new();
    note_second_declarations(&globals, &mut faults);
    note_threads(&tree, &mut faults);
    note_mutexes(language, &tree, &mut faults);
    note_bytes(&tree, &mut faults);
    let program = items(alloc, &globals, &mut faults, tree)?;
    match faults.first {
        None => Ok(program),
        Some(refusal) => Err(SourceError::Refused(refusal)),
    }
}
