//! Assignments and calls.
ghost use Rattle.std.specs.Prelude.{map};
ghost use Rattle.c_tree.specs.Views.{assignment_of, call_of, change_of, expression_of, name_of, lvalue_of};
ghost use Rattle.c_reader.specs.links.ParserFunctions as spec;
ghost use Rattle.c_reader.specs.links.ParserContracts.{Reads};
ghost use Rattle.c_reader.specs.links.Rows.{right_of};
ghost use Rattle.c_reader.specs.links.ParserSteps.{right_past_name, right_side};

use crate::cursor::Cursor;
use crate::expression::{expression, expression_after_name, index};
use crate::halt::Halt;
use crate::token::Lexeme;
use c_tree::token::Punctuator;
use c_tree::tree::{Assignment, Call, Change, Expression, Lvalue, Name};
use std::alloc::Global;

/// The right side of an assignment.
#[derive(Drop)]
pub enum RightSide {
    Expression(Expression),
    Call(Call),
}

/// A name, perhaps with an index.
fn accessed(alloc: Global, tokens: &mut Cursor<'_>, fuel: usize, name: Name) -> Result<Lvalue, Halt>
    ensures { Reads lvalue_of (spec.target_after_name fuel (name_of name) tokens.old) result tokens.new }
{
    let index = index(alloc, tokens, fuel)?;
    Ok(Lvalue::Named { name, index })
}

/// The element of a reference.
pub fn followed(alloc: Global, tokens: &mut Cursor<'_>) -> Result<Lvalue, Halt>
    ensures { Reads lvalue_of (spec.parse_followed tokens.old) result tokens.new }
{
    let place = tokens.mark(Punctuator::Star)?;
    let reference = tokens.name(alloc)?;
    Ok(Lvalue::Followed { place, reference })
}

/// What is assigned.
pub fn target(alloc: Global, tokens: &mut Cursor<'_>, fuel: usize) -> Result<Lvalue, Halt>
    ensures { Reads lvalue_of (spec.parse_target fuel tokens.old) result tokens.new }
{
    if tokens.sees(Punctuator::Star) {
        return followed(alloc, tokens);
    }
    let name = tokens.name(alloc)?;
    accessed(alloc, tokens, fuel, name)
}

/// What stands after a target.
pub fn change(alloc: Global, tokens: &mut Cursor<'_>, fuel: usize) -> Result<Change, Halt>
    ensures { Reads change_of (spec.parse_change fuel tokens.old) result tokens.new }
{
    match tokens.peek() {
        Some(Lexeme::Punctuator(Punctuator::Assign)) => {
            tokens.mark(Punctuator::Assign)?;
            let value = expression(alloc, tokens, fuel)?;
            Ok(Change::Set { value })
        }
        Some(Lexeme::Punctuator(Punctuator::Increment)) => {
            tokens.mark(Punctuator::Increment)?;
            Ok(Change::Increment)
        }
        Some(Lexeme::Punctuator(Punctuator::Decrement)) => {
            tokens.mark(Punctuator::Decrement)?;
            Ok(Change::Decrement)
        }
        _ => {
            let operator = tokens.update()?;
            let value = expression(alloc, tokens, fuel)?;
            Ok(Change::Update { operator, value })
        }
    }
}

/// An assignment that makes no call.
pub fn assignment(alloc: Global, tokens: &mut Cursor<'_>, fuel: usize) -> Result<Assignment, Halt>
    ensures { Reads assignment_of (spec.parse_assignment fuel tokens.old) result tokens.new }
{
    match tokens.peek() {
        Some(Lexeme::Punctuator(Punctuator::Increment)) => {
            let place = tokens.mark(Punctuator::Increment)?;
            let target = target(alloc, tokens, fuel)?;
            Ok(Assignment {
                place,
                target,
                change: Change::Increment,
            })
        }
        Some(Lexeme::Punctuator(Punctuator::Decrement)) => {
            let place = tokens.mark(Punctuator::Decrement)?;
            let target = target(alloc, tokens, fuel)?;
            Ok(Assignment {
                place,
                target,
                change: Change::Decrement,
            })
        }
        _ => {
            let target = target(alloc, tokens, fuel)?;
            let change = change(alloc, tokens, fuel)?;
            Ok(Assignment {
                place: target.place(),
                target,
                change,
            })
        }
    }
}

/// Expressions with commas between them, one at least.
fn expressions(alloc: Global, tokens: &mut Cursor<'_>, fuel: usize) -> Result<Vec<Expression>, Halt>
    ensures { Reads (λ xs. map expression_of xs.items) (spec.parse_some_of fuel (spec.parse_expression fuel) tokens.old) result tokens.new }
{
    let mut found = Vec::new(alloc);
    found.push(expression(alloc, tokens, fuel)?)?;
    for _turn in 0..fuel {
        if !tokens.sees(Punctuator::Comma) {
            return Ok(found);
        }
        tokens.mark(Punctuator::Comma)?;
        found.push(expression(alloc, tokens, fuel)?)?;
    }
    Err(Halt::Wrong)
}

/// The arguments of a call and their closing parenthesis, after the opening one.
fn arguments(alloc: Global, tokens: &mut Cursor<'_>, fuel: usize) -> Result<Vec<Expression>, Halt>
    ensures { Reads (λ xs. map expression_of xs.items) (spec.parse_arguments fuel tokens.old) result tokens.new }
{
    let found = if tokens.sees(Punctuator::CloseParenthesis) {
        Vec::new(alloc)
    } else {
        expressions(alloc, tokens, fuel)?
    };
    tokens.mark(Punctuator::CloseParenthesis)?;
    Ok(found)
}

/// The call of this name, read from after the name.
pub fn call_after(
    alloc: Global,
    tokens: &mut Cursor<'_>,
    fuel: usize,
    function: Name,
) -> Result<Call, Halt>
    ensures { Reads call_of (spec.call_after fuel (name_of function) tokens.old) result tokens.new }
{
    tokens.mark(Punctuator::OpenParenthesis)?;
    let arguments = arguments(alloc, tokens, fuel)?;
    Ok(Call {
        function,
        arguments,
    })
}

/// A call of this name, or the expression that begins with it, read from after the name.
#[tactic(auto, using(crate::proofs::ParserStepEquations::right_after_name_is))]
fn right_after_name(
    alloc: Global,
    tokens: &mut Cursor<'_>,
    fuel: usize,
    name: Name,
) -> Result<RightSide, Halt>
    ensures { Reads right_of (right_past_name fuel (name_of name) tokens.old) result tokens.new }
{
    if tokens.sees(Punctuator::OpenParenthesis) {
        Ok(RightSide::Call(call_after(alloc, tokens, fuel, name)?))
    } else {
        Ok(RightSide::Expression(expression_after_name(alloc, tokens, fuel, name)?))
    }
}

/// An expression or a call.
#[tactic(auto, using(crate::proofs::ParserStepEquations::right_side_is))]
pub fn right(alloc: Global, tokens: &mut Cursor<'_>, fuel: usize) -> Result<RightSide, Halt>
    ensures { Reads right_of (right_side fuel tokens.old) result tokens.new }
{
    match tokens.peek() {
        Some(Lexeme::Name(_)) => {
            let name = tokens.name(alloc)?;
            right_after_name(alloc, tokens, fuel, name)
        }
        _ => Ok(RightSide::Expression(expression(alloc, tokens, fuel)?)),
    }
}
