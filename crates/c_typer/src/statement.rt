//! Statements. Each is made after those that were made before, in the order of the text.
ghost use Rattle.std.specs.Prelude.{◌≡◌, ◌++◌, Some, OnOk, IfOk};
ghost use Rattle.std.specs.Box.{box_value};
ghost use Rattle.std.specs.Option.{option_map};
ghost use Rattle.c_tree.specs.Exprs.{placed_of, lock_name_of};
ghost use Rattle.c_tree.specs.Names as n;
ghost use Rattle.c_tree.specs.Programs as p;
ghost use Rattle.c_tree.specs.Trees as t;
ghost use Rattle.c_tree.specs.TypeRules as rules;
ghost use Rattle.c_tree.specs.Elaboration as typing;
ghost use Rattle.c_tree.specs.Elaboration.{one, statements_and};
ghost use Rattle.c_tree.specs.Views as v;
ghost use Rattle.c_typer.specs.links.FirstFaults.{first_of, noted};
ghost use Rattle.c_typer.specs.links.Rows.{loop_as, loop_faults, maybe_one};
ghost use Rattle.c_typer.specs.links.Scopes.{globals_of, scope_of, ScopeGrows, Stays};

use crate::assignment::{
    assigned_call, assignment, call, declaration, name_place, target, target_referring,
};
use crate::expression::{note_shared, numeric};
use crate::faults::Faults;
use crate::globals::Globals;
use crate::meaning::{int, resolve};
use crate::scope::Scope;
use c_tree::expr::{LockName, Placed};
use c_tree::program::Arm;
use c_tree::tree::{Assignment, Block, Expression, First, Head, Name, Statement};
use c_tree::{program, tree};
use ido_base::place::Place;
use std::alloc::{AllocError, Global};

/// Adds a statement after those that were made.
#[tactic(auto, using(crate::proofs::Rows::push))]
fn add(made: &mut Vec<program::Statement>, next: program::Statement) -> Result<(), AllocError>
    ensures { OnOk result (p.statements_of made.new.items ≡ statements_and (p.statements_of made.old.items) (one (p.statement_of next))) }
{
    made.push(next)?;
    Ok(())
}

/// Adds a statement, where there is one.
fn add_some(
    made: &mut Vec<program::Statement>,
    next: Option<program::Statement>,
) -> Result<(), AllocError>
    ensures { OnOk result (p.statements_of made.new.items ≡ statements_and (p.statements_of made.old.items) (maybe_one (option_map p.statement_of next))) }
{
    match next {
        None => Ok(()),
        Some(next) => add(made, next),
    }
}

fn if_of(place: Place, arms: Vec<Arm>, otherwise: Vec<program::Statement>) -> program::Statement
    ensures { p.statement_of result ≡ p.If place (p.arms_list_of arms.items) (p.statements_of otherwise.items) }
{
    program::Statement::If {
        place,
        arms,
        otherwise,
    }
}

fn while_of(place: Place, condition: Placed, body: Vec<program::Statement>) -> program::Statement
    ensures { p.statement_of result ≡ p.While place (placed_of condition) (p.statements_of body.items) }
{
    program::Statement::While {
        place,
        condition,
        body,
    }
}

fn do_of(place: Place, body: Vec<program::Statement>, condition: Placed) -> program::Statement
    ensures { p.statement_of result ≡ p.Do place (p.statements_of body.items) (placed_of condition) }
{
    program::Statement::Do {
        place,
        body,
        condition,
    }
}

/// The number of a mutex, of an array that of its first one; notes the rule that the use of its name breaks, with a key or brackets or
/// without.
pub fn mutex(
    globals: &Globals,
    scope: &Scope,
    faults: &mut Faults,
    name: &Name,
    keyed: bool,
) -> Result<u32, AllocError>
    ensures made { IfOk result (λ x. x ≡ typing.mutex_number (globals_of globals.now) (scope_of scope.now) (v.name_of name.now)) }
    ensures noted { OnOk result (first_of faults.new ≡ noted (first_of faults.old)
        (rules.mutex_faults globals.now.language (globals_of globals.now) (scope_of scope.now) (v.name_of name.now) keyed)) }
{
    let meaning = resolve(globals, scope, &name.text);
    faults.note_some(meaning.mutex_rule(keyed), name.place);
    meaning.mutex()
}

/// A key, and the persistent variables in it.
#[tactic(auto, using(crate::proofs::FirstFaultLaws::noted_append))]
fn key(
    alloc: Global,
    globals: &Globals,
    scope: &Scope,
    faults: &mut Faults,
    read: &Expression,
) -> Result<Placed, AllocError>
    ensures made { IfOk result (λ x. placed_of x ≡ typing.placed (globals_of globals.now) (scope_of scope.now) (v.expression_of read.now)) }
    ensures noted { OnOk result (first_of faults.new ≡ noted (first_of faults.old)
        (rules.key_faults globals.now.language (globals_of globals.now) (scope_of scope.now) (Some (v.expression_of read.now)))) }
{
    let key = numeric(alloc, globals, scope, faults, read)?;
    note_shared(globals, scope, faults, read);
    Ok(key)
}

/// The name of a lock.
#[tactic(auto, using(crate::proofs::FirstFaultLaws::noted_append))]
fn lock_name(
    alloc: Global,
    globals: &Globals,
    scope: &Scope,
    faults: &mut Faults,
    name: &Name,
    read: &Option<Box<Expression>>,
) -> Result<LockName, AllocError>
    ensures made { IfOk result (λ x. lock_name_of x
        ≡ typing.lock_name (globals_of globals.now) (scope_of scope.now) (v.name_of name.now) (option_map (λ x. v.expression_of (box_value x)) read.now)) }
    ensures noted { OnOk result (first_of faults.new ≡ noted (first_of faults.old)
        (rules.lock_faults globals.now.language (globals_of globals.now) (scope_of scope.now) (v.name_of name.now)
        (option_map (λ x. v.expression_of (box_value x)) read.now))) }
{
    let mutex = mutex(globals, scope, faults, name, read.is_some())?;
    match read {
        None => Ok(LockName { mutex, key: None }),
        Some(read) => {
            let key = key(alloc, globals, scope, faults, read)?;
            Ok(LockName {
                mutex,
                key: Some(key),
            })
        }
    }
}

/// A declaration, as a statement at a place after those that were made, and its local in the scope.
fn declare(
    alloc: Global,
    globals: &Globals,
    scope: &mut Scope,
    faults: &mut Faults,
    place: Place,
    read: &tree::Declaration,
    made: &mut Vec<program::Statement>,
) -> Result<(), AllocError>
    ensures made { OnOk result (p.statements_of made.new.items ≡ statements_and (p.statements_of made.old.items)
        (one (typing.declaration_at (globals_of globals.now) place (scope_of scope.old) (v.declaration_of read.now)))) }
    ensures noted { OnOk result (first_of faults.new ≡ noted (first_of faults.old)
        (rules.declaration_faults globals.now.language (globals_of globals.now) (scope_of scope.old) (v.declaration_of read.now))) }
    ensures scope { OnOk result (scope_of scope.new
        ≡ n.declared (globals_of globals.now) (scope_of scope.old) read.now.name.text.items (v.type_name_of read.now.type_name)) }
    ensures grows { OnOk result (ScopeGrows scope.old scope.new) }
{
    let next = declaration(alloc, globals, scope, faults, place, read)?;
    add(made, next)?;
    let refers = globals.referred(&read.type_name);
    scope.declare(&read.name.text, read.type_name.kind(), refers)
}

/// The first part of a `for` at a place.
fn start_of_for(
    alloc: Global,
    globals: &Globals,
    scope: &mut Scope,
    faults: &mut Faults,
    place: Place,
    read: &First,
    made: &mut Vec<program::Statement>,
) -> Result<(), AllocError>
    ensures made { OnOk result (p.statements_of made.new.items
        ≡ statements_and (p.statements_of made.old.items) (typing.first_at (globals_of globals.now) place (scope_of scope.old) (v.first_of read.now)).made) }
    ensures noted { OnOk result (first_of faults.new ≡ noted (first_of faults.old)
        (rules.first_faults globals.now.language (globals_of globals.now) (scope_of scope.old) (v.first_of read.now))) }
    ensures scope { OnOk result (scope_of scope.new ≡ (typing.first_at (globals_of globals.now) place (scope_of scope.old) (v.first_of read.now)).scope) }
    ensures grows { OnOk result (ScopeGrows scope.old scope.new) }
{
    match read {
        First::Absent => Ok(()),
        First::Declaration(read) => declare(alloc, globals, scope, faults, place, read, made),
        First::Assignment(read) => {
            let next = assignment(alloc, globals, scope, faults, place, read)?;
            add(made, next)
        }
    }
}

/// The last part of a `for` at a place.
fn last(
    alloc: Global,
    globals: &Globals,
    scope: &Scope,
    faults: &mut Faults,
    place: Place,
    read: &Option<Assignment>,
) -> Result<Option<program::Statement>, AllocError>
    ensures made { IfOk result (λ x. maybe_one (option_map p.statement_of x)
        ≡ typing.last_at (globals_of globals.now) place (scope_of scope.now) (option_map v.assignment_of read.now)) }
    ensures noted { OnOk result (first_of faults.new ≡ noted (first_of faults.old)
        (rules.last_faults globals.now.language (globals_of globals.now) (scope_of scope.now) (option_map v.assignment_of read.now))) }
{
    match read {
        None => Ok(None),
        Some(read) => Ok(Some(assignment(alloc, globals, scope, faults, place, read)?)),
    }
}

/// The condition of a `for` at a place: 1 where none is written.
fn condition_of_for(
    alloc: Global,
    globals: &Globals,
    scope: &Scope,
    faults: &mut Faults,
    place: Place,
    read: &Option<Expression>,
) -> Result<Placed, AllocError>
    ensures made { IfOk result (λ x. placed_of x ≡ typing.condition_at (globals_of globals.now) place (scope_of scope.now)
        (option_map v.expression_of read.now)) }
    ensures noted { OnOk result (first_of faults.new ≡ noted (first_of faults.old)
        (rules.maybe_faults globals.now.language (globals_of globals.now) (scope_of scope.now) (option_map v.expression_of read.now))) }
{
    match read {
        None => Ok(Placed {
            place,
            expr: int(1),
        }),
        Some(read) => numeric(alloc, globals, scope, faults, read),
    }
}

/// A statement.
#[cycle(statements)]
fn statement(
    alloc: Global,
    globals: &Globals,
    scope: &mut Scope,
    faults: &mut Faults,
    read: &Statement,
    made: &mut Vec<program::Statement>,
) -> Result<(), AllocError>
    ensures made { OnOk result (p.statements_of made.new.items
        ≡ statements_and (p.statements_of made.old.items) (typing.statement (globals_of globals.now) (scope_of scope.old) (v.statement_of read.now)).made) }
    ensures noted { OnOk result (first_of faults.new ≡ noted (first_of faults.old)
        (rules.statement_faults globals.now.language (globals_of globals.now) (scope_of scope.old) (v.statement_of read.now))) }
    ensures scope { OnOk result (scope_of scope.new ≡ (typing.statement (globals_of globals.now) (scope_of scope.old) (v.statement_of read.now)).scope) }
    ensures grows { OnOk result (ScopeGrows scope.old scope.new) }
{
    match read {
        Statement::Block(read) => block(alloc, globals, scope, faults, read, made),
        Statement::Empty { .. } => Ok(()),
        Statement::Declaration(read) => {
            declare(alloc, globals, scope, faults, read.place, read, made)
        }
        Statement::Assignment(read) => {
            let next = assignment(alloc, globals, scope, faults, read.place, read)?;
            add(made, next)
        }
        Statement::CallAssignment {
            target: assigned,
            call: read,
        } => {
            let made_target = target(alloc, globals, scope, faults, assigned)?;
            let next = assigned_call(
                alloc,
                globals,
                scope,
                faults,
                assigned.place(),
                read,
                made_target,
                target_referring(globals, scope, assigned),
                name_place(assigned),
            )?;
            add(made, next)
        }
        Statement::Call(read) => {
            let place = read.function.place;
            let next = call(alloc, globals, scope, faults, place, read, None)?;
            add(made, next)
        }
        Statement::If {
            place,
            arms,
            otherwise,
        } => {
            let arms = arms_of(alloc, globals, scope, faults, arms)?;
            let last = last_block(alloc, globals, scope, faults, otherwise)?;
            add(made, if_of(*place, arms, last))
        }
        Statement::While {
            place,
            condition,
            block,
        } => {
            let next = while_statement(alloc, globals, scope, faults, *place, block, condition)?;
            add(made, next)
        }
        Statement::Do {
            place,
            block,
            condition,
        } => {
            let next = do_statement(alloc, globals, scope, faults, *place, block, condition)?;
            add(made, next)
        }
        Statement::For { place, head, block } => {
            let outer = scope.enter();
            start_of_for(alloc, globals, scope, faults, *place, &head.first, made)?;
            let next = loop_of_for(alloc, globals, scope, faults, *place, head, block)?;
            scope.leave(outer);
            add(made, next)
        }
        Statement::Lock { place, mutex, key } => {
            let lock = lock_name(alloc, globals, scope, faults, mutex, key)?;
            add(
                made,
                program::Statement::Lock {
                    place: *place,
                    lock,
                },
            )
        }
        Statement::Unlock { place, mutex, key } => {
            let lock = lock_name(alloc, globals, scope, faults, mutex, key)?;
            add(
                made,
                program::Statement::Unlock {
                    place: *place,
                    lock,
                },
            )
        }
    }
}

/// What stands after the last `else`.
#[cycle(statements)]
fn last_block(
    alloc: Global,
    globals: &Globals,
    scope: &mut Scope,
    faults: &mut Faults,
    read: &Option<Block>,
) -> Result<Vec<program::Statement>, AllocError>
    ensures made { IfOk result (λ xs. p.statements_of xs.items
        ≡ (typing.otherwise_of (globals_of globals.now) (scope_of scope.old) (v.otherwise_of read.now)).made) }
    ensures noted { OnOk result (first_of faults.new ≡ noted (first_of faults.old)
        (rules.otherwise_faults globals.now.language (globals_of globals.now) (scope_of scope.old) (v.otherwise_of read.now))) }
    ensures scope { OnOk result (scope_of scope.new ≡ (typing.otherwise_of (globals_of globals.now) (scope_of scope.old) (v.otherwise_of read.now)).scope) }
    ensures stays { OnOk result (Stays scope.old scope.new) }
{
    match read {
        None => Ok(Vec::new(alloc)),
        Some(read) => body_of(alloc, globals, scope, faults, read),
    }
}

/// A `while`.
#[cycle(statements)]
#[tactic(auto, using(crate::proofs::FirstFaultLaws::noted_append))]
fn while_statement(
    alloc: Global,
    globals: &Globals,
    scope: &mut Scope,
    faults: &mut Faults,
    place: Place,
    read: &Block,
    condition: &Expression,
) -> Result<program::Statement, AllocError>
    ensures made { IfOk result (λ x. one (p.statement_of x)
        ≡ (typing.statement (globals_of globals.now) (scope_of scope.old) (t.While place (v.expression_of condition.now) (v.block_of read.now))).made) }
    ensures noted { OnOk result (first_of faults.new ≡ noted (first_of faults.old)
        (rules.statement_faults globals.now.language (globals_of globals.now) (scope_of scope.old)
        (t.While place (v.expression_of condition.now) (v.block_of read.now)))) }
    ensures scope { OnOk result (scope_of scope.new ≡ (typing.statement (globals_of globals.now) (scope_of scope.old)
        (t.While place (v.expression_of condition.now) (v.block_of read.now))).scope) }
    ensures stays { OnOk result (Stays scope.old scope.new) }
{
    let condition = numeric(alloc, globals, scope, faults, condition)?;
    let body = body_of(alloc, globals, scope, faults, read)?;
    Ok(while_of(place, condition, body))
}

/// A `do`.
#[cycle(statements)]
#[tactic(auto, using(crate::proofs::FirstFaultLaws::noted_append))]
fn do_statement(
    alloc: Global,
    globals: &Globals,
    scope: &mut Scope,
    faults: &mut Faults,
    place: Place,
    read: &Block,
    condition: &Expression,
) -> Result<program::Statement, AllocError>
    ensures made { IfOk result (λ x. one (p.statement_of x)
        ≡ (typing.statement (globals_of globals.now) (scope_of scope.old) (t.Do place (v.block_of read.now) (v.expression_of condition.now))).made) }
    ensures noted { OnOk result (first_of faults.new ≡ noted (first_of faults.old)
        (rules.statement_faults globals.now.language (globals_of globals.now) (scope_of scope.old)
        (t.Do place (v.block_of read.now) (v.expression_of condition.now)))) }
    ensures scope { OnOk result (scope_of scope.new ≡ (typing.statement (globals_of globals.now) (scope_of scope.old)
        (t.Do place (v.block_of read.now) (v.expression_of condition.now))).scope) }
    ensures stays { OnOk result (Stays scope.old scope.new) }
{
    let body = body_of(alloc, globals, scope, faults, read)?;
    let condition = numeric(alloc, globals, scope, faults, condition)?;
    Ok(do_of(place, body, condition))
}

/// The loop that a `for` is, in the scope of its own local.
#[cycle(statements)]
#[tactic(auto, using(crate::proofs::FirstFaultLaws::noted_append))]
fn loop_of_for(
    alloc: Global,
    globals: &Globals,
    scope: &mut Scope,
    faults: &mut Faults,
    place: Place,
    head: &Head,
    read: &Block,
) -> Result<program::Statement, AllocError>
    ensures made { IfOk result (λ x. p.statement_of x ≡ loop_as (globals_of globals.now) place (scope_of scope.old)
        (option_map v.expression_of head.now.condition) (option_map v.assignment_of head.now.last) (v.block_of read.now)) }
    ensures noted { OnOk result (first_of faults.new ≡ noted (first_of faults.old)
        (loop_faults globals.now.language (globals_of globals.now) (scope_of scope.old) (option_map v.expression_of head.now.condition)
        (option_map v.assignment_of head.now.last) (v.block_of read.now))) }
    ensures scope { OnOk result (scope_of scope.new ≡ (typing.inside (globals_of globals.now) (scope_of scope.old) (v.block_of read.now)).scope) }
    ensures stays { OnOk result (Stays scope.old scope.new) }
{
    let condition = condition_of_for(alloc, globals, scope, faults, place, &head.condition)?;
    let body = body_of_for(alloc, globals, scope, faults, place, &head.last, read)?;
    Ok(while_of(place, condition, body))
}

/// The body of the loop that a `for` is, with its last part at the end.
#[cycle(statements)]
#[tactic(auto, using(crate::proofs::FirstFaultLaws::noted_append))]
fn body_of_for(
    alloc: Global,
    globals: &Globals,
    scope: &mut Scope,
    faults: &mut Faults,
    place: Place,
    end: &Option<Assignment>,
    read: &Block,
) -> Result<Vec<program::Statement>, AllocError>
    ensures made { IfOk result (λ xs. p.statements_of xs.items
        ≡ statements_and (typing.inside (globals_of globals.now) (scope_of scope.old) (v.block_of read.now)).made
        (typing.last_at (globals_of globals.now) place (scope_of scope.old) (option_map v.assignment_of end.now))) }
    ensures noted { OnOk result (first_of faults.new ≡ noted (first_of faults.old)
        (rules.last_faults globals.now.language (globals_of globals.now) (scope_of scope.old) (option_map v.assignment_of end.now)
        ++ rules.block_faults globals.now.language (globals_of globals.now) (scope_of scope.old) (v.block_of read.now))) }
    ensures scope { OnOk result (scope_of scope.new ≡ (typing.inside (globals_of globals.now) (scope_of scope.old) (v.block_of read.now)).scope) }
    ensures stays { OnOk result (Stays scope.old scope.new) }
{
    let end = last(alloc, globals, scope, faults, place, end)?;
    let mut body = body_of(alloc, globals, scope, faults, read)?;
    add_some(&mut body, end)?;
    body.shrink_to_fit();
    Ok(body)
}

/// A block by itself.
#[cycle(statements)]
fn body_of(
    alloc: Global,
    globals: &Globals,
    scope: &mut Scope,
    faults: &mut Faults,
    read: &Block,
) -> Result<Vec<program::Statement>, AllocError>
    ensures made { IfOk result (λ xs. p.statements_of xs.items ≡ (typing.inside (globals_of globals.now) (scope_of scope.old) (v.block_of read.now)).made) }
    ensures noted { OnOk result (first_of faults.new ≡ noted (first_of faults.old)
        (rules.block_faults globals.now.language (globals_of globals.now) (scope_of scope.old) (v.block_of read.now))) }
    ensures scope { OnOk result (scope_of scope.new ≡ (typing.inside (globals_of globals.now) (scope_of scope.old) (v.block_of read.now)).scope) }
    ensures stays { OnOk result (Stays scope.old scope.new) }
{
    let mut made = Vec::new(alloc);
    block(alloc, globals, scope, faults, read, &mut made)?;
    made.shrink_to_fit();
    Ok(made)
}

/// Statements in braces, which have a scope of their own.
#[cycle(statements)]
fn block(
    alloc: Global,
    globals: &Globals,
    scope: &mut Scope,
    faults: &mut Faults,
    read: &Block,
    made: &mut Vec<program::Statement>,
) -> Result<(), AllocError>
    ensures made { OnOk result (p.statements_of made.new.items
        ≡ statements_and (p.statements_of made.old.items) (typing.inside (globals_of globals.now) (scope_of scope.old) (v.block_of read.now)).made) }
    ensures noted { OnOk result (first_of faults.new ≡ noted (first_of faults.old)
        (rules.block_faults globals.now.language (globals_of globals.now) (scope_of scope.old) (v.block_of read.now))) }
    ensures scope { OnOk result (scope_of scope.new ≡ (typing.inside (globals_of globals.now) (scope_of scope.old) (v.block_of read.now)).scope) }
    ensures stays { OnOk result (Stays scope.old scope.new) }
{
    let outer = scope.enter();
    statements(alloc, globals, scope, faults, &read.statements, made)?;
    scope.leave(outer);
    Ok(())
}

/// Statements.
#[cycle(statements)]
pub fn statements(
    alloc: Global,
    globals: &Globals,
    scope: &mut Scope,
    faults: &mut Faults,
    read: &[Statement],
    made: &mut Vec<program::Statement>,
) -> Result<(), AllocError>
    ensures made { OnOk result (p.statements_of made.new.items
        ≡ statements_and (p.statements_of made.old.items) (typing.statements (globals_of globals.now) (scope_of scope.old) (v.statements_of read.now)).made) }
    ensures noted { OnOk result (first_of faults.new ≡ noted (first_of faults.old)
        (rules.statements_faults globals.now.language (globals_of globals.now) (scope_of scope.old) (v.statements_of read.now))) }
    ensures scope { OnOk result (scope_of scope.new ≡ (typing.statements (globals_of globals.now) (scope_of scope.old) (v.statements_of read.now)).scope) }
    ensures grows { OnOk result (ScopeGrows scope.old scope.new) }
{
    for next in read {
        statement(alloc, globals, scope, faults, next, made)?;
    }
    Ok(())
}

/// Conditions, each with its block.
#[cycle(statements)]
fn arms_of(
    alloc: Global,
    globals: &Globals,
    scope: &mut Scope,
    faults: &mut Faults,
    read: &[tree::Arm],
) -> Result<Vec<Arm>, AllocError>
    ensures made { IfOk result (λ xs. p.arms_list_of xs.items ≡ (typing.arms_of (globals_of globals.now) (scope_of scope.old) (v.arms_list_of read.now)).made) }
    ensures noted { OnOk result (first_of faults.new ≡ noted (first_of faults.old)
        (rules.arms_faults globals.now.language (globals_of globals.now) (scope_of scope.old) (v.arms_list_of read.now))) }
    ensures scope { OnOk result (scope_of scope.new ≡ (typing.arms_of (globals_of globals.now) (scope_of scope.old) (v.arms_list_of read.now)).scope) }
    ensures stays { OnOk result (Stays scope.old scope.new) }
{
    let mut made = Vec::new(alloc);
    for arm in read {
        let condition = numeric(alloc, globals, scope, faults, &arm.condition)?;
        let body = body_of(alloc, globals, scope, faults, &arm.block)?;
        made.push(Arm { condition, body })?;
    }
    made.shrink_to_fit();
    Ok(made)
}
