//! Rules of the whole text.
ghost use Rattle.std.specs.Prelude.{◌≡◌, ℕ, ◌+◌, ◌*◌, ◌≤◌, [], map};
ghost use Rattle.c_tree.specs.TypeRules as rules;
ghost use Rattle.c_tree.specs.Views.{items_of, persistent_of};
ghost use Rattle.c_tree.specs.declared.rule.Rule.TheVariants as rule;
ghost use Rattle.c_typer.specs.links.FirstFaults.{first_of, noted};
ghost use Rattle.c_typer.specs.links.Scopes.{globals_of};

use crate::faults::Faults;
use crate::globals::Globals;
use crate::length::element_count;
use c_tree::language::Language;
use c_tree::rule::Rule;
use c_tree::tree::{Item, Persistent, Tree};
use ido_base::limits::{MOST_LOCKS, MOST_MUTEXES, MOST_THREADS, MOST_VARIABLE_BYTES};

/// Notes each second declaration of a name.
pub fn note_second_declarations(globals: &Globals, faults: &mut Faults)
    ensures { first_of faults.new ≡ noted (first_of faults.old) (rules.twice_from [] (globals_of globals.now)) }
{
    for (i, global) in globals.declared.iter().enumerate() {
        if globals.is_declared_before(i, &global.name.text) {
            faults.note(Rule::Twice, global.name.place);
        }
    }
}

/// Notes the first thread past the eighth.
#[tactic(auto, using(crate::proofs::ItemRows::pasts))]
pub fn note_threads(tree: &Tree, faults: &mut Faults)
    ensures { first_of faults.new ≡ noted (first_of faults.old) (rules.past rule.Threads MOST_THREADS (rules.thread_names (items_of tree.now))) }
{
    let mut left = MOST_THREADS as usize;
    for item in &tree.items {
        if let Item::Thread(thread) = item {
            if left == 0 {
                faults.note(Rule::Threads, thread.name.place);
                return;
            }
            left -= 1;
        }
    }
}

/// How many mutexes there may be, with those of arrays.
fn most_mutexes(language: Language) -> u32
    ensures { result ≡ rules.most_mutexes language }
{
    match language {
        Language::Plain => MOST_MUTEXES,
        Language::Full => MOST_LOCKS,
    }
}

/// Notes the first name by which there are more mutexes than there may be.
pub fn note_mutexes(language: Language, tree: &Tree, faults: &mut Faults)
    ensures { first_of faults.new ≡ noted (first_of faults.old) (rules.too_many_mutexes (rules.most_mutexes language) 0 (items_of tree.now)) }
{
    let most = u128::from(most_mutexes(language));
    let mut count = 0;
    for item in &tree.items {
        if let Item::Mutex(mutex) = item {
            count += u128::from(element_count(&mutex.length));
            if count > most {
                faults.note(Rule::Mutexes, mutex.name.place);
                return;
            }
        }
    }
}

/// Where a variable ends, if the one before it ends at `end`.
fn end_after(end: u128, variable: &Persistent) -> u128
    requires { end ≤ MOST_VARIABLE_BYTES }
    ensures { result ≡ rules.end_after end (persistent_of variable.now) }
{
    let bytes = u128::from(variable.type_name.kind().bytes());
    let start = (end + bytes - 1) / bytes * bytes;
    start + bytes * u128::from(element_count(&variable.length))
}

/// Notes the first variable that ends past the bytes that variables may have.
pub fn note_bytes(tree: &Tree, faults: &mut Faults)
    ensures { first_of faults.new ≡ noted (first_of faults.old) (rules.too_many_bytes 0 (items_of tree.now)) }
{
    let mut end = 0;
    for item in &tree.items {
        if let Item::Persistent(variable) = item {
            end = end_after(end, variable);
            if end > MOST_VARIABLE_BYTES as u128 {
                faults.note(Rule::Bytes, variable.name.place);
                return;
            }
        }
    }
}
