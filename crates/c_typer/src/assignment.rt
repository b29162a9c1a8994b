//! Targets, assignments and calls.
ghost use Rattle.std.specs.Prelude.{◌≡◌, [], map, flat_map, Some, IfOk, OnOk, is_some};
ghost use Rattle.std.specs.Option.{option_map};
ghost use Rattle.c_tree.specs.Exprs.{expr_of, placed_of, lvalue_of};
ghost use Rattle.c_tree.specs.declared.language.Language.TheVariants.{Plain};
ghost use Rattle.c_tree.specs.Names as n;
ghost use Rattle.c_tree.specs.Programs as p;
ghost use Rattle.c_tree.specs.TypeRules as rules;
ghost use Rattle.c_tree.specs.Elaboration as typing;
ghost use Rattle.c_tree.specs.Views as v;
ghost use Rattle.c_typer.specs.links.FirstFaults.{first_of, noted};
ghost use Rattle.c_typer.specs.links.Meanings.{updated_as};
ghost use Rattle.c_typer.specs.links.Scopes.{globals_of, referring_of, scope_of};

use crate::expression::{
    are_comparable, binary_of, element, followed, may_be_number, name_referring, named, note_array,
    note_given, note_only_full, note_reference, note_use, numeric, placed, referent,
    referent_referring,
};
use crate::faults::Faults;
use crate::globals::{Globals, Referring};
use crate::meaning::{int, resolve};
use crate::scope::Scope;
use c_tree::expr::{Expr, Lvalue, Placed};
use c_tree::program::Statement;
use c_tree::rule::Rule;
use c_tree::tree;
use c_tree::tree::{Assignment, Call, Change, Declaration, Expression, Initial, TypeName};
use ido_base::place::Place;
use ido_ints::{Binary, Kind};
use std::alloc::{AllocError, Global};

/// What is assigned.
#[tactic(auto, using(crate::proofs::FirstFaultLaws::noted_append))]
pub fn target(
    alloc: Global,
    globals: &Globals,
    scope: &Scope,
    faults: &mut Faults,
    assigned: &tree::Lvalue,
) -> Result<Lvalue, AllocError>
    ensures made { IfOk result (λ x. lvalue_of x ≡ typing.target (globals_of globals.now) (scope_of scope.now) (v.lvalue_of assigned.now)) }
    ensures noted { OnOk result (first_of faults.new ≡ noted (first_of faults.old)
        (rules.target_faults globals.now.language (globals_of globals.now) (scope_of scope.now) (v.lvalue_of assigned.now))) }
{
    match assigned {
        tree::Lvalue::Named { name, index } => match index {
            Some(index) => {
                note_use(globals, scope, faults, name, true);
                let index = numeric(alloc, globals, scope, faults, index)?;
                Ok(resolve(globals, scope, &name.text).target_element(name.place, index))
            }
            None => {
                note_use(globals, scope, faults, name, false);
                Ok(resolve(globals, scope, &name.text).target(name.place))
            }
        },
        tree::Lvalue::Followed { place, reference } => {
            note_only_full(globals, faults, *place);
            note_reference(globals, scope, faults, reference);
            Ok(target_followed(globals, scope, *place, reference))
        }
    }
}

/// The element to which a local refers, as a target; any where it is no reference.
fn target_followed(globals: &Globals, scope: &Scope, place: Place, name: &tree::Name) -> Lvalue
    ensures { lvalue_of result ≡ typing.target_followed (globals_of globals.now) (scope_of scope.now) place (v.name_of name.now) }
{
    match resolve(globals, scope, &name.text).reference() {
        Some(reference) => Lvalue::Element {
            place,
            variable: reference.array.number,
            kind: reference.array.kind,
            index: Placed {
                place,
                expr: referent(place, reference),
            },
        },
        None => Lvalue::Local {
            place: name.place,
            local: 0,
            kind: Kind::Int,
        },
    }
}

/// What the target is.
pub fn target_referring(globals: &Globals, scope: &Scope, assigned: &tree::Lvalue) -> Referring
    ensures { referring_of result
        ≡ rules.target_referring globals.now.language (globals_of globals.now) (scope_of scope.now) (v.lvalue_of assigned.now) }
{
    match assigned {
        tree::Lvalue::Named { name, .. } => name_referring(globals, scope, name),
        tree::Lvalue::Followed { reference, .. } => referent_referring(globals, scope, reference),
    }
}

/// The place of the target's name.
pub fn name_place(assigned: &tree::Lvalue) -> Place
    ensures { result ≡ (rules.target_name (v.lvalue_of assigned.now)).place }
{
    match assigned {
        tree::Lvalue::Named { name, .. } => name.place,
        tree::Lvalue::Followed { reference, .. } => reference.place,
    }
}

/// Notes a target that is a reference where a number is wanted.
fn note_numeric_target(
    globals: &Globals,
    scope: &Scope,
    faults: &mut Faults,
    assigned: &tree::Lvalue,
)
    ensures { first_of faults.new ≡ noted (first_of faults.old)
        (rules.numeric_target_faults globals.now.language (globals_of globals.now) (scope_of scope.now) (v.lvalue_of assigned.now)) }
{
    if !may_be_number(target_referring(globals, scope, assigned)) {
        faults.note(Rule::WrongSort, name_place(assigned));
    }
}

/// What the target has before. Its faults are noted where it is a target.
fn before(
    alloc: Global,
    globals: &Globals,
    scope: &Scope,
    assigned: &tree::Lvalue,
) -> Result<Expr, AllocError>
    ensures { IfOk result (λ x. expr_of x ≡ typing.before (globals_of globals.now) (scope_of scope.now) (v.lvalue_of assigned.now)) }
{
    match assigned {
        tree::Lvalue::Named { name, index } => match index {
            Some(index) => {
                let index = placed(alloc, globals, scope, &mut Faults::new(), index)?;
                element(alloc, globals, scope, name, index)
            }
            None => Ok(named(globals, scope, name)),
        },
        tree::Lvalue::Followed { place, reference } => {
            followed(alloc, globals, scope, *place, reference)
        }
    }
}

/// The value of `target operator value`.
fn updated(
    alloc: Global,
    globals: &Globals,
    scope: &Scope,
    assigned: &tree::Lvalue,
    operator: Binary,
    value: Expr,
) -> Result<Placed, AllocError>
    ensures { IfOk result (λ x. placed_of x ≡ updated_as (globals_of globals.now) (scope_of scope.now) (v.lvalue_of assigned.now) operator (expr_of value)) }
{
    let before = before(alloc, globals, scope, assigned)?;
    Ok(Placed {
        place: assigned.place(),
        expr: binary_of(alloc, operator, before, value)?,
    })
}

/// The new value of the target.
fn changed(
    alloc: Global,
    globals: &Globals,
    scope: &Scope,
    faults: &mut Faults,
    assigned: &tree::Lvalue,
    change: &Change,
) -> Result<Placed, AllocError>
    ensures made { IfOk result (λ x. placed_of x ≡ typing.changed (globals_of globals.now) (scope_of scope.now) (v.lvalue_of assigned.now)
        (v.change_of change.now)) }
    ensures noted { OnOk result (first_of faults.new ≡ noted (first_of faults.old)
        (rules.change_faults globals.now.language (globals_of globals.now) (scope_of scope.now) (v.lvalue_of assigned.now) (v.change_of change.now))) }
{
    match change {
        Change::Set { value } => {
            let made = placed(alloc, globals, scope, faults, value)?;
            let to = target_referring(globals, scope, assigned);
            note_given(globals, scope, faults, to, name_place(assigned), value);
            Ok(made)
        }
        Change::Update {
            operator,
            value: other,
        } => {
            note_numeric_target(globals, scope, faults, assigned);
            let other = numeric(alloc, globals, scope, faults, other)?;
            updated(alloc, globals, scope, assigned, *operator, other.expr)
        }
        Change::Increment => {
            note_numeric_target(globals, scope, faults, assigned);
            updated(alloc, globals, scope, assigned, Binary::Add, int(1))
        }
        Change::Decrement => {
            note_numeric_target(globals, scope, faults, assigned);
            updated(alloc, globals, scope, assigned, Binary::Sub, int(1))
        }
    }
}

/// An assignment, as a statement at a place.
#[tactic(auto, using(crate::proofs::FirstFaultLaws::noted_append))]
pub fn assignment(
    alloc: Global,
    globals: &Globals,
    scope: &Scope,
    faults: &mut Faults,
    place: Place,
    read: &Assignment,
) -> Result<Statement, AllocError>
    ensures made { IfOk result (λ x. p.statement_of x ≡ typing.assignment_at (globals_of globals.now) place (scope_of scope.now) (v.assignment_of read.now)) }
    ensures noted { OnOk result (first_of faults.new ≡ noted (first_of faults.old)
        (rules.assignment_faults globals.now.language (globals_of globals.now) (scope_of scope.now) (v.assignment_of read.now))) }
{
    let target = target(alloc, globals, scope, faults, &read.target)?;
    let value = changed(alloc, globals, scope, faults, &read.target, &read.change)?;
    Ok(Statement::Assign {
        place,
        target,
        value,
    })
}

/// The arguments of a call.
#[tactic(auto, using(crate::proofs::FirstFaultLaws::noted_append))]
fn arguments(
    alloc: Global,
    globals: &Globals,
    scope: &Scope,
    faults: &mut Faults,
    read: &[Expression],
) -> Result<Vec<Placed>, AllocError>
    ensures made { IfOk result (λ xs. map placed_of xs.items
        ≡ map (typing.placed (globals_of globals.now) (scope_of scope.now)) (map v.expression_of read.now)) }
    ensures noted { OnOk result (first_of faults.new ≡ noted (first_of faults.old)
        (flat_map (rules.expression_faults globals.now.language (globals_of globals.now) (scope_of scope.now)) (map v.expression_of read.now))) }
{
    let mut made = Vec::new(alloc);
    for argument in read {
        made.push(placed(alloc, globals, scope, faults, argument)?)?;
    }
    Ok(made)
}

/// Notes the rules that the use of a name as a function breaks.
#[tactic(auto, using(crate::proofs::FirstFaultLaws::noted_append))]
fn note_call(
    globals: &Globals,
    scope: &Scope,
    faults: &mut Faults,
    name: &tree::Name,
    assigned: bool,
    arguments: usize,
)
    ensures { first_of faults.new ≡ noted (first_of faults.old)
        (rules.function_faults globals.now.language (globals_of globals.now) (scope_of scope.now) (v.name_of name.now) assigned arguments) }
{
    let meaning = resolve(globals, scope, &name.text);
    faults.note_some(meaning.function_rule(assigned), name.place);
    faults.note_some(meaning.count_rule(arguments), name.place);
}

/// Notes arguments that aren't values for the parameters of a function whose name stands at the place.
#[tactic(auto, using(crate::proofs::FirstFaultLaws::noted_append))]
fn note_arguments(
    globals: &Globals,
    scope: &Scope,
    faults: &mut Faults,
    place: Place,
    parameters: &[TypeName],
    read: &[Expression],
)
    ensures { first_of faults.new ≡ noted (first_of faults.old)
        (rules.arguments_faults globals.now.language (globals_of globals.now) (scope_of scope.now) place (map v.type_name_of parameters.now)
        (map v.expression_of read.now)) }
{
    for (i, argument) in read.iter().enumerate() {
        if i < parameters.len() {
            let to = globals.of_type(&parameters[i]);
            note_given(globals, scope, faults, to, place, argument);
        }
    }
}

/// A call, as a statement at a place, and the assignment of its result.
#[tactic(auto, using(crate::proofs::FirstFaultLaws::noted_append))]
pub fn call(
    alloc: Global,
    globals: &Globals,
    scope: &Scope,
    faults: &mut Faults,
    place: Place,
    read: &Call,
    result_target: Option<Lvalue>,
) -> Result<Statement, AllocError>
    ensures made { IfOk result (λ x. p.statement_of x ≡ typing.call (globals_of globals.now) place (scope_of scope.now) (v.call_of read.now)
        (option_map lvalue_of result_target)) }
    ensures noted { OnOk result (first_of faults.new ≡ noted (first_of faults.old)
        (rules.call_faults globals.now.language (globals_of globals.now) (scope_of scope.now) (v.call_of read.now) (is_some result_target))) }
{
    let name = &read.function;
    note_call(
        globals,
        scope,
        faults,
        name,
        result_target.is_some(),
        read.arguments.len(),
    );
    let arguments = arguments(alloc, globals, scope, faults, &read.arguments)?;
    let parameters = resolve(globals, scope, &name.text).parameters();
    note_arguments(
        globals,
        scope,
        faults,
        name.place,
        parameters,
        &read.arguments,
    );
    Ok(Statement::Call {
        place,
        name: name.place,
        function: resolve(globals, scope, &name.text).function(),
        arguments,
        result: result_target,
    })
}

/// A call whose result is assigned to what refers so, and whose name stands there.
#[tactic(auto, using(crate::proofs::FirstFaultLaws::noted_append))]
pub fn assigned_call(
    alloc: Global,
    globals: &Globals,
    scope: &Scope,
    faults: &mut Faults,
    place: Place,
    read: &Call,
    result_target: Lvalue,
    to: Referring,
    target_place: Place,
) -> Result<Statement, AllocError>
    ensures made { IfOk result (λ x. p.statement_of x ≡ typing.call (globals_of globals.now) place (scope_of scope.now) (v.call_of read.now)
        (Some (lvalue_of result_target))) }
    ensures noted { OnOk result (first_of faults.new ≡ noted (first_of faults.old)
        (rules.assigned_faults globals.now.language (globals_of globals.now) (scope_of scope.now) (referring_of to) target_place (v.call_of read.now))) }
{
    let made = call(
        alloc,
        globals,
        scope,
        faults,
        place,
        read,
        Some(result_target),
    )?;
    let given = resolve(globals, scope, &read.function.text).result(globals);
    if !gives_so(to, given) {
        faults.note(Rule::WrongSort, target_place);
    }
    Ok(made)
}

/// Whether both are numbers, or both refer to one array.
fn gives_so(to: Referring, given: Referring) -> bool
    ensures { result ≡ rules.gives_so Plain [] (referring_of to) (referring_of given) }
{
    match to {
        Referring::Number => may_be_number(given),
        Referring::Null | Referring::To { .. } | Referring::Anything => are_comparable(to, given),
    }
}

/// The value that a new local takes, as a statement at a place. The scope is the one before it.
fn initial_value(
    alloc: Global,
    globals: &Globals,
    scope: &Scope,
    faults: &mut Faults,
    place: Place,
    read: &Declaration,
) -> Result<Statement, AllocError>
    ensures made { IfOk result (λ x. p.statement_of x ≡ typing.declaration_at (globals_of globals.now) place (scope_of scope.now) (v.declaration_of read.now)) }
    ensures noted { OnOk result (first_of faults.new ≡ noted (first_of faults.old)
        (rules.initial_faults globals.now.language (globals_of globals.now) (scope_of scope.now)
        (n.of_type (globals_of globals.now) (v.type_name_of read.now.type_name)) read.now.name.place (v.initial_of read.now.initial))) }
{
    let target = Lvalue::Local {
        place: read.place,
        local: scope.next_number()?,
        kind: read.type_name.kind(),
    };
    let to = globals.of_type(&read.type_name);
    match &read.initial {
        Initial::Absent => Ok(Statement::Assign {
            place,
            target,
            value: Placed {
                place: read.place,
                expr: int(0),
            },
        }),
        Initial::Expression(value) => {
            let made = placed(alloc, globals, scope, faults, value)?;
            note_given(globals, scope, faults, to, read.name.place, value);
            Ok(Statement::Assign {
                place,
                target,
                value: made,
            })
        }
        Initial::Call(call) => assigned_call(
            alloc,
            globals,
            scope,
            faults,
            place,
            call,
            target,
            to,
            read.name.place,
        ),
    }
}

/// A declaration, as a statement at a place: the new local takes its value. The scope is the one before it.
#[tactic(auto, using(crate::proofs::FirstFaultLaws::noted_append))]
pub fn declaration(
    alloc: Global,
    globals: &Globals,
    scope: &Scope,
    faults: &mut Faults,
    place: Place,
    read: &Declaration,
) -> Result<Statement, AllocError>
    ensures made { IfOk result (λ x. p.statement_of x ≡ typing.declaration_at (globals_of globals.now) place (scope_of scope.now) (v.declaration_of read.now)) }
    ensures noted { OnOk result (first_of faults.new ≡ noted (first_of faults.old)
        (rules.declaration_faults globals.now.language (globals_of globals.now) (scope_of scope.now) (v.declaration_of read.now))) }
{
    note_twice(scope, faults, &read.name);
    let made = initial_value(alloc, globals, scope, faults, place, read)?;
    note_type_name(globals, scope, faults, &read.type_name);
    Ok(made)
}

/// Notes the rule that a type breaks.
#[tactic(auto, using(crate::proofs::FirstFaultLaws::noted_append))]
pub fn note_type_name(globals: &Globals, scope: &Scope, faults: &mut Faults, type_name: &TypeName)
    ensures { first_of faults.new ≡ noted (first_of faults.old)
        (rules.type_name_faults globals.now.language (globals_of globals.now) (scope_of scope.now) (v.type_name_of type_name.now)) }
{
    match type_name {
        TypeName::Kind(_) => (),
        TypeName::Reference { array } => {
            note_only_full(globals, faults, array.place);
            note_array(globals, scope, faults, array);
        }
    }
}

/// Notes a second declaration of a name in its scope.
pub fn note_twice(scope: &Scope, faults: &mut Faults, name: &tree::Name)
    ensures { first_of faults.new ≡ noted (first_of faults.old) (rules.twice (scope_of scope.now).own (v.name_of name.now)) }
{
    if scope.has_own(&name.text) {
        faults.note(Rule::Twice, name.place);
    }
}
