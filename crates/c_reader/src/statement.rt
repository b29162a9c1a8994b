//! Statements without blocks.
ghost use Rattle.std.specs.Prelude.{◌≡◌, IfOk};
ghost use Rattle.std.specs.Option.{option_map};
ghost use Rattle.c_tree.specs.Trees as t;
ghost use Rattle.c_tree.specs.Views.{assignment_of, call_of, declaration_of, expression_of, first_of, initial_of, name_of, statement_of, lvalue_of};
ghost use Rattle.c_reader.specs.links.ParserFunctions as spec;
ghost use Rattle.c_reader.specs.links.ParserContracts.{Reads};
ghost use Rattle.c_reader.specs.links.ParserSteps.{maybe_initial, parse_assignment_statement, parse_declaration_statement, parse_lock};
ghost use Rattle.c_reader.specs.links.ParserSteps.{parse_end_of_for, parse_head_of_for, parse_middle_of_for, parse_start_of_for};
ghost use Rattle.c_reader.specs.links.ParserSteps.{parse_followed_statement, parse_named_statement, parse_unlock, statement_past_name, statement_past_target};
ghost use Rattle.c_reader.specs.links.Rows.{for_head_of, key_of, lock_name_of};

use crate::assignment::{RightSide, assignment, call_after, change, followed, right};
use crate::cursor::Cursor;
use crate::expression::{expression, index};
use crate::halt::Halt;
use crate::kind::type_name;
use c_tree::language::Language;
use c_tree::token::{Keyword, Punctuator};
use c_tree::tree::{
    Assignment, Call, Change, Declaration, Expression, First, Head, Initial, Lvalue, Name,
    Statement,
};
use std::alloc::{AllocError, Global};

/// What a local begins with, where it is written.
#[tactic(auto, using(crate::proofs::ParserStepEquations::maybe_initial_is))]
fn initial(alloc: Global, tokens: &mut Cursor<'_>, fuel: usize) -> Result<Initial, Halt>
    ensures { Reads initial_of (maybe_initial fuel tokens.old) result tokens.new }
{
    if !tokens.sees(Punctuator::Assign) {
        return Ok(Initial::Absent);
    }
    tokens.mark(Punctuator::Assign)?;
    match right(alloc, tokens, fuel)? {
        RightSide::Expression(value) => Ok(Initial::Expression(value)),
        RightSide::Call(call) => Ok(Initial::Call(call)),
    }
}

/// What a local begins with, where it is written: an expression, and not a call.
fn initial_of_first(alloc: Global, tokens: &mut Cursor<'_>, fuel: usize) -> Result<Initial, Halt>
    ensures { Reads initial_of (spec.parse_initial_of_first fuel tokens.old) result tokens.new }
{
    if !tokens.sees(Punctuator::Assign) {
        return Ok(Initial::Absent);
    }
    tokens.mark(Punctuator::Assign)?;
    Ok(Initial::Expression(expression(alloc, tokens, fuel)?))
}

/// A declaration.
pub fn declaration(alloc: Global, tokens: &mut Cursor<'_>, fuel: usize) -> Result<Declaration, Halt>
    ensures { Reads declaration_of (spec.declaration_over (maybe_initial fuel) tokens.old) result tokens.new }
{
    let place = tokens.place()?;
    let type_name = type_name(alloc, tokens)?;
    let name = tokens.name(alloc)?;
    let initial = initial(alloc, tokens, fuel)?;
    Ok(Declaration {
        place,
        type_name,
        name,
        initial,
    })
}

/// A declaration that makes no call.
fn declaration_of_first(
    alloc: Global,
    tokens: &mut Cursor<'_>,
    fuel: usize,
) -> Result<Declaration, Halt>
    ensures { Reads declaration_of (spec.declaration_over (spec.parse_initial_of_first fuel) tokens.old) result tokens.new }
{
    let place = tokens.place()?;
    let type_name = type_name(alloc, tokens)?;
    let name = tokens.name(alloc)?;
    let initial = initial_of_first(alloc, tokens, fuel)?;
    Ok(Declaration {
        place,
        type_name,
        name,
        initial,
    })
}

/// The first part of a `for`, before its semicolon.
fn first(alloc: Global, tokens: &mut Cursor<'_>, fuel: usize) -> Result<First, Halt>
    ensures { Reads first_of (spec.parse_first fuel tokens.old) result tokens.new }
{
    if tokens.sees(Punctuator::Semicolon) {
        Ok(First::Absent)
    } else if tokens.sees_type() {
        Ok(First::Declaration(declaration_of_first(alloc, tokens, fuel)?))
    } else {
        Ok(First::Assignment(assignment(alloc, tokens, fuel)?))
    }
}

/// The condition of a `for`, before its semicolon.
fn condition_of_for(
    alloc: Global,
    tokens: &mut Cursor<'_>,
    fuel: usize,
) -> Result<Option<Expression>, Halt>
    ensures { Reads (option_map expression_of) (spec.parse_unless (spec.is_mark Punctuator.Semicolon) (spec.parse_expression fuel) tokens.old) result
        tokens.new }
{
    if tokens.sees(Punctuator::Semicolon) {
        Ok(None)
    } else {
        Ok(Some(expression(alloc, tokens, fuel)?))
    }
}

/// The last part of a `for`, before its closing parenthesis.
fn last(alloc: Global, tokens: &mut Cursor<'_>, fuel: usize) -> Result<Option<Assignment>, Halt>
    ensures { Reads (option_map assignment_of) (spec.parse_unless (spec.is_mark Punctuator.CloseParenthesis) (spec.parse_assignment fuel) tokens.old) result
        tokens.new }
{
    if tokens.sees(Punctuator::CloseParenthesis) {
        Ok(None)
    } else {
        Ok(Some(assignment(alloc, tokens, fuel)?))
    }
}

/// The parenthesis before the first part of a `for`, and that part.
#[tactic(auto, unfolding(crate::specs::links::ParserSteps::parse_start_of_for))]
fn start_of_for(alloc: Global, tokens: &mut Cursor<'_>, fuel: usize) -> Result<First, Halt>
    ensures { Reads first_of (parse_start_of_for fuel tokens.old) result tokens.new }
{
    tokens.mark(Punctuator::OpenParenthesis)?;
    first(alloc, tokens, fuel)
}

/// The semicolon before the condition of a `for`, and the condition.
#[tactic(auto, unfolding(crate::specs::links::ParserSteps::parse_middle_of_for))]
fn middle_of_for(
    alloc: Global,
    tokens: &mut Cursor<'_>,
    fuel: usize,
) -> Result<Option<Expression>, Halt>
    ensures { Reads (option_map expression_of) (parse_middle_of_for fuel tokens.old) result tokens.new }
{
    tokens.mark(Punctuator::Semicolon)?;
    condition_of_for(alloc, tokens, fuel)
}

/// The semicolon before the last part of a `for`, and that part.
#[tactic(auto, unfolding(crate::specs::links::ParserSteps::parse_end_of_for))]
fn end_of_for(
    alloc: Global,
    tokens: &mut Cursor<'_>,
    fuel: usize,
) -> Result<Option<Assignment>, Halt>
    ensures { Reads (option_map assignment_of) (parse_end_of_for fuel tokens.old) result tokens.new }
{
    tokens.mark(Punctuator::Semicolon)?;
    last(alloc, tokens, fuel)
}

/// The head of a `for`, boxed, without the parenthesis after it.
#[tactic(auto, unfolding(crate::specs::links::ParserSteps::parse_head_of_for))]
pub fn head_of_for(alloc: Global, tokens: &mut Cursor<'_>, fuel: usize) -> Result<Box<Head>, Halt>
    ensures { Reads for_head_of (parse_head_of_for fuel tokens.old) result tokens.new }
{
    let first = start_of_for(alloc, tokens, fuel)?;
    let mut head = Box::new(
        alloc,
        Head {
            first,
            condition: None,
            last: None,
        },
    )?;
    head.condition = middle_of_for(alloc, tokens, fuel)?;
    head.last = end_of_for(alloc, tokens, fuel)?;
    Ok(head)
}

/// `(condition)`
pub fn condition(alloc: Global, tokens: &mut Cursor<'_>, fuel: usize) -> Result<Expression, Halt>
    ensures { Reads expression_of (spec.parse_condition fuel tokens.old) result tokens.new }
{
    tokens.mark(Punctuator::OpenParenthesis)?;
    let inside = expression(alloc, tokens, fuel)?;
    tokens.mark(Punctuator::CloseParenthesis)?;
    Ok(inside)
}

/// The key of a lock's name, where it has one.
fn key(
    alloc: Global,
    language: Language,
    tokens: &mut Cursor<'_>,
    fuel: usize,
) -> Result<Option<Box<Expression>>, Halt>
    ensures { Reads key_of (spec.parse_key language fuel tokens.old) result tokens.new }
{
    match language {
        Language::Plain => Ok(None),
        Language::Full => match index(alloc, tokens, fuel)? {
            None => Ok(None),
            Some(key) => Ok(Some(Box::new(alloc, key)?)),
        },
    }
}

/// The name of a lock, in parentheses.
fn lock_name(
    alloc: Global,
    language: Language,
    tokens: &mut Cursor<'_>,
    fuel: usize,
) -> Result<(Name, Option<Box<Expression>>), Halt>
    ensures { Reads lock_name_of (spec.parse_lock_name language fuel tokens.old) result tokens.new }
{
    tokens.mark(Punctuator::OpenParenthesis)?;
    let mutex = tokens.name(alloc)?;
    let key = key(alloc, language, tokens, fuel)?;
    tokens.mark(Punctuator::CloseParenthesis)?;
    Ok((mutex, key))
}

/// A declaration as a statement.
fn declared_of(alloc: Global, declared: Declaration) -> Result<Statement, AllocError>
    ensures { IfOk result (λ x. statement_of x ≡ t.Declare (declaration_of declared)) }
{
    let declared = Box::new(alloc, declared)?;
    Ok(Statement::Declaration(declared))
}

/// An assignment as a statement.
fn assigned_of(alloc: Global, assigned: Assignment) -> Result<Statement, AllocError>
    ensures { IfOk result (λ x. statement_of x ≡ t.Assign (assignment_of assigned)) }
{
    let assigned = Box::new(alloc, assigned)?;
    Ok(Statement::Assignment(assigned))
}

/// The result of a call, assigned.
fn result_of(alloc: Global, target: Lvalue, call: Call) -> Result<Statement, AllocError>
    ensures { IfOk result (λ x. statement_of x ≡ t.AssignResult (lvalue_of target) (call_of call)) }
{
    let target = Box::new(alloc, target)?;
    let call = Box::new(alloc, call)?;
    Ok(Statement::CallAssignment { target, call })
}

/// A call as a statement.
fn called_of(alloc: Global, call: Call) -> Result<Statement, AllocError>
    ensures { IfOk result (λ x. statement_of x ≡ t.CallOnly (call_of call)) }
{
    let call = Box::new(alloc, call)?;
    Ok(Statement::Call(call))
}

/// What stands after the target of a statement, before its semicolon.
#[tactic(auto, using(crate::proofs::ParserStepEquations::statement_after_target_is))]
fn statement_after_target(
    alloc: Global,
    tokens: &mut Cursor<'_>,
    fuel: usize,
    target: Lvalue,
) -> Result<Statement, Halt>
    ensures { Reads statement_of (statement_past_target fuel (lvalue_of target) tokens.old) result tokens.new }
{
    let place = target.place();
    if !tokens.sees(Punctuator::Assign) {
        let change = change(alloc, tokens, fuel)?;
        let assigned = Assignment {
            place,
            target,
            change,
        };
        return Ok(assigned_of(alloc, assigned)?);
    }
    tokens.mark(Punctuator::Assign)?;
    match right(alloc, tokens, fuel)? {
        RightSide::Expression(value) => {
            let assigned = Assignment {
                place,
                target,
                change: Change::Set { value },
            };
            Ok(assigned_of(alloc, assigned)?)
        }
        RightSide::Call(call) => Ok(result_of(alloc, target, call)?),
    }
}

/// What stands after the name that a statement begins with, before its semicolon.
#[tactic(auto, using(crate::proofs::ParserStepEquations::statement_after_name_is))]
fn statement_after_name(
    alloc: Global,
    tokens: &mut Cursor<'_>,
    fuel: usize,
    name: Name,
) -> Result<Statement, Halt>
    ensures { Reads statement_of (statement_past_name fuel (name_of name) tokens.old) result tokens.new }
{
    if tokens.sees(Punctuator::OpenParenthesis) {
        let call = call_after(alloc, tokens, fuel, name)?;
        return Ok(called_of(alloc, call)?);
    }
    let index = index(alloc, tokens, fuel)?;
    statement_after_target(alloc, tokens, fuel, Lvalue::Named { name, index })
}

/// A statement that begins with a name.
#[tactic(auto, using(crate::proofs::ParserStepEquations::named_statement_is))]
pub fn named_statement(
    alloc: Global,
    tokens: &mut Cursor<'_>,
    fuel: usize,
) -> Result<Statement, Halt>
    ensures { Reads statement_of (parse_named_statement fuel tokens.old) result tokens.new }
{
    let name = tokens.name(alloc)?;
    let statement = statement_after_name(alloc, tokens, fuel, name)?;
    tokens.mark(Punctuator::Semicolon)?;
    Ok(statement)
}

/// A statement that assigns the element of a reference.
#[tactic(auto, using(crate::proofs::ParserStepEquations::followed_statement_is))]
pub fn followed_statement(
    alloc: Global,
    tokens: &mut Cursor<'_>,
    fuel: usize,
) -> Result<Statement, Halt>
    ensures { Reads statement_of (parse_followed_statement fuel tokens.old) result tokens.new }
{
    let target = followed(alloc, tokens)?;
    let statement = statement_after_target(alloc, tokens, fuel, target)?;
    tokens.mark(Punctuator::Semicolon)?;
    Ok(statement)
}

/// A statement that is a declaration.
#[tactic(auto, using(crate::proofs::ParserStepEquations::declaration_statement_is))]
pub fn declaration_statement(
    alloc: Global,
    tokens: &mut Cursor<'_>,
    fuel: usize,
) -> Result<Statement, Halt>
    ensures { Reads statement_of (parse_declaration_statement fuel tokens.old) result tokens.new }
{
    let declared = declaration(alloc, tokens, fuel)?;
    tokens.mark(Punctuator::Semicolon)?;
    Ok(declared_of(alloc, declared)?)
}

/// A statement that is an assignment without a call.
#[tactic(auto, unfolding(crate::specs::links::ParserSteps::parse_assignment_statement))]
pub fn assignment_statement(
    alloc: Global,
    tokens: &mut Cursor<'_>,
    fuel: usize,
) -> Result<Statement, Halt>
    ensures { Reads statement_of (parse_assignment_statement fuel tokens.old) result tokens.new }
{
    let assigned = assignment(alloc, tokens, fuel)?;
    tokens.mark(Punctuator::Semicolon)?;
    Ok(assigned_of(alloc, assigned)?)
}

/// `lock(mutex);`, and `lock(mutex[key]);` in the full language.
#[tactic(auto, unfolding(crate::specs::links::ParserSteps::parse_lock))]
pub fn lock(
    alloc: Global,
    language: Language,
    tokens: &mut Cursor<'_>,
    fuel: usize,
) -> Result<Statement, Halt>
    ensures { Reads statement_of (parse_lock language fuel tokens.old) result tokens.new }
{
    let place = tokens.word(Keyword::Lock)?;
    let (mutex, key) = lock_name(alloc, language, tokens, fuel)?;
    tokens.mark(Punctuator::Semicolon)?;
    Ok(Statement::Lock { place, mutex, key })
}

/// `unlock(mutex);`, and `unlock(mutex[key]);` in the full language.
#[tactic(auto, unfolding(crate::specs::links::ParserSteps::parse_unlock))]
pub fn unlock(
    alloc: Global,
    language: Language,
    tokens: &mut Cursor<'_>,
    fuel: usize,
) -> Result<Statement, Halt>
    ensures { Reads statement_of (parse_unlock language fuel tokens.old) result tokens.new }
{
    let place = tokens.word(Keyword::Unlock)?;
    let (mutex, key) = lock_name(alloc, language, tokens, fuel)?;
    tokens.mark(Punctuator::Semicolon)?;
    Ok(Statement::Unlock { place, mutex, key })
}
