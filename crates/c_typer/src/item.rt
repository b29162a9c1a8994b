//! Functions, threads and variables.
ghost use Rattle.std.specs.Prelude.{◌≡◌, [], map, Option, Some, IfOk, OnOk};
ghost use Rattle.std.specs.Option.{option_map};
ghost use Rattle.c_tree.specs.declared.language.Language.TheVariants.{Plain};
ghost use Rattle.c_tree.specs.Exprs.{placed_of};
ghost use Rattle.c_tree.specs.Names as n;
ghost use Rattle.c_tree.specs.Names.{element_count, length_number};
ghost use Rattle.c_tree.specs.Programs as p;
ghost use Rattle.c_tree.specs.Trees as t;
ghost use Rattle.c_tree.specs.TypeRules as rules;
ghost use Rattle.c_tree.specs.Elaboration as typing;
ghost use Rattle.c_tree.specs.Views as v;
ghost use Rattle.c_typer.specs.links.FirstFaults.{first_of, noted};
ghost use Rattle.c_typer.specs.links.Scopes.{globals_of, scope_of};
ghost use Rattle.ido_ints.specs.Reduction.{reduced};

use crate::assignment::{note_twice, note_type_name};
use crate::expression::{note_given, numeric, placed};
use crate::faults::Faults;
use crate::globals::{Array, Globals, copied, kind_of_result};
use crate::length::{element_count, length_number};
use crate::meaning::resolve;
use crate::scope::Scope;
use crate::statement::{mutex, statements};
use c_tree::expr::Placed;
use c_tree::program::{Function, Guard, Returned, Thread, Variable};
use c_tree::rule::Rule;
use c_tree::tree;
use c_tree::tree::{
    Expression, Initialiser, Length, Parameter, Persistent, Return, Signed, TypeName,
};
use ido_base::limits::MOST_ELEMENTS;
use ido_base::place::Place;
use ido_ints::{Kind, Unary, Value, unary};
use std::alloc::{AllocError, Global};

/// The scope that a function's body stands in.
#[tactic(auto, using(crate::proofs::FirstFaultLaws::noted_append))]
fn with_parameters(
    alloc: Global,
    globals: &Globals,
    faults: &mut Faults,
    parameters: &[Parameter],
) -> Result<Scope, AllocError>
    ensures made { IfOk result (λ scope. scope_of scope
        ≡ typing.with_parameters (globals_of globals.now) n.no_locals (map v.parameter_of parameters.now)) }
    ensures noted { OnOk result (first_of faults.new ≡ noted (first_of faults.old)
        (rules.parameters_faults globals.now.language (globals_of globals.now) n.no_locals (map v.parameter_of parameters.now))) }
{
    let mut scope = Scope::new(alloc);
    for parameter in parameters {
        note_twice(&scope, faults, &parameter.name);
        note_type_name(globals, &scope, faults, &parameter.type_name);
        let refers = globals.referred(&parameter.type_name);
        scope.declare(&parameter.name.text, parameter.type_name.kind(), refers)?;
    }
    Ok(scope)
}

/// The value that is returned by a function whose name stands at the place; notes one of another type.
#[tactic(auto, using(crate::proofs::FirstFaultLaws::noted_append))]
fn returned_value(
    alloc: Global,
    globals: &Globals,
    scope: &Scope,
    faults: &mut Faults,
    type_name: &Option<TypeName>,
    place: Place,
    value: &Expression,
) -> Result<Placed, AllocError>
    ensures made { IfOk result (λ x. placed_of x ≡ typing.placed (globals_of globals.now) (scope_of scope.now) (v.expression_of value.now)) }
    ensures noted { OnOk result (first_of faults.new ≡ noted (first_of faults.old)
        (rules.value_faults globals.now.language (globals_of globals.now) (scope_of scope.now) (option_map v.type_name_of type_name.now) place
        (Some (v.expression_of value.now)))) }
{
    match type_name {
        Some(type_name) => {
            let made = placed(alloc, globals, scope, faults, value)?;
            let to = globals.of_type(type_name);
            note_given(globals, scope, faults, to, place, value);
            Ok(made)
        }
        None => numeric(alloc, globals, scope, faults, value),
    }
}

/// What a function gives.
fn returned(
    alloc: Global,
    globals: &Globals,
    scope: &Scope,
    faults: &mut Faults,
    function: &tree::Function,
) -> Result<Option<Returned>, AllocError>
    ensures made { IfOk result (λ x. option_map p.returned_of x ≡ typing.returned (globals_of globals.now) (scope_of scope.now)
        (option_map n.kind_named (option_map v.type_name_of function.now.type_name)) (option_map v.return_of function.now.body.returned)) }
    ensures noted { OnOk result (first_of faults.new ≡ noted (first_of faults.old)
        (rules.returned_faults globals.now.language (globals_of globals.now) (scope_of scope.now) (v.function_of function.now)
        (option_map v.return_of function.now.body.returned))) }
{
    match &function.body.returned {
        Some(
            Return {
                value: Some(value),
                ..
            },
        ) => {
            let place = function.name.place;
            let value = returned_value(
                alloc,
                globals,
                scope,
                faults,
                &function.type_name,
                place,
                value,
            )?;
            match kind_of_result(&function.type_name) {
                Some(kind) => Ok(Some(Returned { kind, value })),
                None => Ok(None),
            }
        }
        _ => Ok(None),
    }
}

/// Notes a function with a result that returns none, or one without that returns one.
fn note_return(faults: &mut Faults, read: &tree::Function)
    ensures { first_of faults.new ≡ noted (first_of faults.old) (rules.return_faults Plain [] (v.function_of read.now)) }
{
    let returns_value = match &read.body.returned {
        Some(returned) => returned.value.is_some(),
        None => false,
    };
    if read.type_name.is_some() != returns_value {
        faults.note(Rule::Return, read.name.place);
    }
}

/// Notes the rule that the type of a result breaks.
fn note_result(
    globals: &Globals,
    outside: &Scope,
    faults: &mut Faults,
    type_name: &Option<TypeName>,
)
    requires { scope_of outside.now ≡ n.no_locals }
    ensures { first_of faults.new ≡ noted (first_of faults.old)
        (rules.result_faults globals.now.language (globals_of globals.now) (option_map v.type_name_of type_name.now)) }
{
    if let Some(type_name) = type_name {
        note_type_name(globals, outside, faults, type_name);
    }
}

/// A function.
#[tactic(auto, using(crate::proofs::FirstFaultLaws::noted_append))]
pub fn function(
    alloc: Global,
    globals: &Globals,
    faults: &mut Faults,
    read: &tree::Function,
) -> Result<Function, AllocError>
    ensures made { IfOk result (λ x. p.function_of x ≡ typing.function (globals_of globals.now) (v.function_of read.now)) }
    ensures noted { OnOk result (first_of faults.new ≡ noted (first_of faults.old)
        (rules.item_faults globals.now.language (globals_of globals.now) (t.FunctionItem (v.function_of read.now)))) }
{
    let parameters = u32::try_from(read.parameters.len()).map_err(|_| AllocError)?;
    let mut scope = with_parameters(alloc, globals, faults, &read.parameters)?;
    let mut body = Vec::new(alloc);
    statements(
        alloc,
        globals,
        &mut scope,
        faults,
        &read.body.statements,
        &mut body,
    )?;
    let result = returned(alloc, globals, &scope, faults, read)?;
    note_return(faults, read);
    note_result(globals, &Scope::new(alloc), faults, &read.type_name);
    Ok(Function {
        name: copied(&read.name)?,
        parameters,
        locals: scope.kinds,
        refers: scope.refers,
        body,
        result,
    })
}

/// A thread.
pub fn thread(
    alloc: Global,
    globals: &Globals,
    faults: &mut Faults,
    read: &tree::Thread,
) -> Result<Thread, AllocError>
    ensures made { IfOk result (λ x. p.thread_of x ≡ typing.thread (globals_of globals.now) (v.thread_of read.now)) }
    ensures noted { OnOk result (first_of faults.new ≡ noted (first_of faults.old)
        (rules.item_faults globals.now.language (globals_of globals.now) (t.ThreadItem (v.thread_of read.now)))) }
{
    let mut scope = Scope::new(alloc);
    let mut body = Vec::new(alloc);
    statements(
        alloc,
        globals,
        &mut scope,
        faults,
        &read.block.statements,
        &mut body,
    )?;
    Ok(Thread {
        name: copied(&read.name)?,
        locals: scope.kinds,
        refers: scope.refers,
        body,
        closing: read.block.closing,
    })
}

/// Notes a length that is 0 or past the most.
pub fn note_length(faults: &mut Faults, length: &Option<Length>)
    ensures { first_of faults.new ≡ noted (first_of faults.old) (rules.length_faults (option_map v.length_of length.now)) }
{
    if let Some(read) = length {
        let elements = element_count(length);
        if elements == 0 || elements > MOST_ELEMENTS {
            faults.note(Rule::Length, read.place);
        }
    }
}

/// Notes the first number after so many.
fn note_count(faults: &mut Faults, count: u64, numbers: &[Signed])
    ensures { first_of faults.new ≡ noted (first_of faults.old) (rules.numbers_past count (map v.signed_of numbers.now)) }
{
    if let Some(number) = numbers.get(count as usize) {
        faults.note(Rule::Count, number.place);
    }
}

/// Notes an initialiser of references: they begin as null.
fn note_no_initialiser(faults: &mut Faults, initialiser: &Option<Initialiser>)
    ensures { (array : t.Name) (size : Option t.Length) → first_of faults.new ≡ noted (first_of faults.old)
        (rules.initialiser_faults (t.RefTo array) size (option_map v.initialiser_of initialiser.now)) }
{
    match initialiser {
        None => (),
        Some(Initialiser::Single(number)) => faults.note(Rule::WrongSort, number.place),
        Some(Initialiser::Braced { place, .. }) => faults.note(Rule::WrongSort, *place),
    }
}

/// Notes what an initialiser of a variable of the type breaks.
fn note_initialiser(
    faults: &mut Faults,
    type_name: &TypeName,
    length: &Option<Length>,
    initialiser: &Option<Initialiser>,
)
    ensures { first_of faults.new ≡ noted (first_of faults.old)
        (rules.initialiser_faults (v.type_name_of type_name.now) (option_map v.length_of length.now) (option_map v.initialiser_of initialiser.now)) }
{
    match type_name {
        TypeName::Kind(_) => note_numbers(faults, length, initialiser),
        TypeName::Reference { .. } => note_no_initialiser(faults, initialiser),
    }
}

fn note_numbers(faults: &mut Faults, length: &Option<Length>, initialiser: &Option<Initialiser>)
    ensures { first_of faults.new ≡ noted (first_of faults.old)
        (rules.numbers_faults (option_map v.length_of length.now) (option_map v.initialiser_of initialiser.now)) }
{
    match initialiser {
        None => (),
        Some(Initialiser::Single(number)) => {
            if length.is_some() {
                faults.note(Rule::WrongSort, number.place);
            }
        }
        Some(Initialiser::Braced { numbers, .. }) => {
            note_count(faults, element_count(length), numbers);
        }
    }
}

/// The number, in the kind of the variable.
fn signed_number(kind: Kind, read: &Signed) -> i128
    ensures { result ≡ reduced kind (typing.signed_number (v.signed_of read.now)) }
{
    let value = if read.negative {
        unary(Unary::Minus, read.value)
    } else {
        read.value
    };
    Value::reduce(kind, value.number()).number()
}

/// Numbers, in the kind of the variable.
fn converted(alloc: Global, kind: Kind, given: &[Signed]) -> Result<Vec<i128>, AllocError>
    ensures { IfOk result (λ xs. xs.items ≡ map (reduced kind) (map typing.signed_number (map v.signed_of given.now))) }
{
    let mut numbers = Vec::new(alloc);
    for number in given {
        numbers.push(signed_number(kind, number))?;
    }
    Ok(numbers)
}

/// The numbers that are given, in the kind of the variable.
fn given_numbers(
    alloc: Global,
    kind: Kind,
    initialiser: &Option<Initialiser>,
) -> Result<Vec<i128>, AllocError>
    ensures { IfOk result (λ xs. xs.items ≡ map (reduced kind) (typing.numbers_of (option_map v.initialiser_of initialiser.now))) }
{
    match initialiser {
        None => Ok(Vec::new(alloc)),
        Some(Initialiser::Single(number)) => {
            let mut numbers = Vec::new(alloc);
            numbers.push(signed_number(kind, number))?;
            Ok(numbers)
        }
        Some(Initialiser::Braced { numbers, .. }) => converted(alloc, kind, numbers),
    }
}

/// Takes the first `count` numbers, with zeros after the last one given.
fn fill(numbers: &mut Vec<i128>, count: usize) -> Result<(), AllocError>
    ensures { OnOk result (numbers.new.items ≡ typing.filled count numbers.old.items) }
{
    numbers.truncate(count);
    let missing = count - numbers.len();
    for _ in 0..missing {
        numbers.push(0)?;
    }
    Ok(())
}

/// How many elements a variable has, or any number where its length breaks its rule.
#[tactic(auto, using(crate::proofs::Counts::within))]
pub fn checked_count(length: &Option<Length>) -> u32
    ensures { rules.length_faults (option_map v.length_of length.now) ≡ [] → result ≡ element_count (option_map v.length_of length.now) }
{
    let count = element_count(length);
    if count <= MOST_ELEMENTS {
        count as u32
    } else {
        0
    }
}

/// The length of an array, or any where it breaks its rule.
pub fn checked_length(length: &Option<Length>) -> Option<u32>
    ensures { rules.length_faults (option_map v.length_of length.now) ≡ [] → result ≡ option_map length_number (option_map v.length_of length.now) }
{
    match length {
        None => None,
        Some(_) => Some(checked_count(length)),
    }
}

/// Notes a length that isn't that of the array of mutexes.
fn note_same_count(faults: &mut Faults, mutexes: Option<u64>, length: &Length)
    ensures { first_of faults.new ≡ noted (first_of faults.old) (rules.count_faults Plain [] mutexes (v.length_of length.now)) }
{
    if let Some(count) = mutexes {
        if length_number(length) != count {
            faults.note(Rule::Count, length.place);
        }
    }
}

/// Notes a variable, each element of which has a mutex of its own, that is no array or has another length than their array.
fn note_each(globals: &Globals, scope: &Scope, faults: &mut Faults, read: &Persistent)
    requires { scope_of scope.now ≡ n.no_locals }
    ensures { first_of faults.new ≡ noted (first_of faults.old) (rules.each_faults globals.now.language (globals_of globals.now) (v.persistent_of read.now)) }
{
    if read.guard.each {
        match &read.length {
            None => faults.note(Rule::WrongSort, read.name.place),
            Some(length) => {
                let mutexes = resolve(globals, scope, &read.guard.mutex.text).mutexes();
                note_same_count(faults, mutexes, length);
            }
        }
    }
}

/// What guards a variable; notes the rule that the use of its name breaks.
fn guard(
    globals: &Globals,
    scope: &Scope,
    faults: &mut Faults,
    read: &tree::Guard,
) -> Result<Guard, AllocError>
    requires { scope_of scope.now ≡ n.no_locals }
    ensures made { IfOk result (λ x. p.guard_of x ≡ typing.guard (globals_of globals.now) (v.guard_of read.now)) }
    ensures noted { OnOk result (first_of faults.new ≡ noted (first_of faults.old)
        (rules.mutex_faults globals.now.language (globals_of globals.now) n.no_locals (v.name_of read.now.mutex) read.now.each)) }
{
    let number = mutex(globals, scope, faults, &read.mutex, read.each)?;
    if read.each {
        Ok(Guard::Each { first: number })
    } else {
        Ok(Guard::By { mutex: number })
    }
}

/// A persistent variable. One whose length breaks its rule has no elements.
pub fn variable(
    alloc: Global,
    globals: &Globals,
    faults: &mut Faults,
    read: &Persistent,
) -> Result<Variable, AllocError>
    ensures made { IfOk result (λ x. first_of faults.new ≡ None → p.variable_of x ≡ typing.variable (globals_of globals.now) (v.persistent_of read.now)) }
    ensures noted { OnOk result (first_of faults.new ≡ noted (first_of faults.old)
        (rules.item_faults globals.now.language (globals_of globals.now) (t.PersistentItem (v.persistent_of read.now)))) }
{
    let outside = Scope::new(alloc);
    let guard = guard(globals, &outside, faults, &read.guard)?;
    note_each(globals, &outside, faults, read);
    note_length(faults, &read.length);
    note_initialiser(faults, &read.type_name, &read.length, &read.initialiser);
    note_type_name(globals, &outside, faults, &read.type_name);
    let number_kind = read.type_name.kind();
    let mut initial = given_numbers(alloc, number_kind, &read.initialiser)?;
    fill(&mut initial, checked_count(&read.length) as usize)?;
    Ok(Variable {
        name: copied(&read.name)?,
        guard,
        kind: number_kind,
        refers: Array::number_of(globals.referred(&read.type_name)),
        length: checked_length(&read.length),
        initial,
    })
}
