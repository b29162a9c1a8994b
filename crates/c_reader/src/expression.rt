//! Expressions. The number `fuel` bounds how deep they nest.
ghost use Rattle.std.specs.Prelude.{◌≡◌, ◌≤◌, IfOk};
ghost use Rattle.std.specs.Option.{option_map};
ghost use Rattle.c_tree.specs.Trees as t;
ghost use Rattle.c_tree.specs.Views.{expression_of, name_of};
ghost use Rattle.c_reader.specs.links.ParserFunctions as spec;
ghost use Rattle.c_reader.specs.links.ParserContracts.{Reads};
ghost use Rattle.c_reader.specs.links.ParserSteps.{expression_past_name, operators_past};

use crate::cursor::Cursor;
use crate::halt::Halt;
use crate::kind::kind;
use crate::token::Lexeme;
use c_tree::token::{Keyword, Punctuator};
use c_tree::tree::{Expression, Name};
use ido_base::place::Place;
use ido_ints::{Binary, Kind, Unary};
use std::alloc::{AllocError, Global};

/// How many precedences the operators with two operands have: the greatest is that of `*`.
const PRECEDENCES: u8 = 10;

/// An expression.
#[cycle(expression)]
pub fn expression(alloc: Global, tokens: &mut Cursor<'_>, fuel: usize) -> Result<Expression, Halt>
    ensures { Reads expression_of (spec.parse_expression fuel tokens.old) result tokens.new }
{
    if fuel == 0 {
        return Err(Halt::Wrong);
    }
    let first = operand(alloc, tokens, fuel)?;
    let condition = operators(alloc, tokens, fuel, PRECEDENCES, first)?;
    conditional(alloc, tokens, fuel - 1, condition)
}

/// `?` and what follows, where it stands after a condition.
#[cycle(expression)]
pub fn conditional(
    alloc: Global,
    tokens: &mut Cursor<'_>,
    fuel: usize,
    condition: Expression,
) -> Result<Expression, Halt>
    ensures { Reads expression_of (spec.conditional_after (spec.parse_expression fuel) (expression_of condition) tokens.old) result tokens.new }
{
    if !tokens.sees(Punctuator::Question) {
        return Ok(condition);
    }
    tokens.mark(Punctuator::Question)?;
    let then = expression(alloc, tokens, fuel)?;
    tokens.mark(Punctuator::Colon)?;
    let otherwise = expression(alloc, tokens, fuel)?;
    Ok(conditional_of(alloc, condition, then, otherwise)?)
}

/// The operators of so many precedences, from the greatest on, that follow on an operand.
#[cycle(expression)]
pub fn operators(
    alloc: Global,
    tokens: &mut Cursor<'_>,
    fuel: usize,
    precedences: u8,
    first: Expression,
) -> Result<Expression, Halt>
    requires { precedences ≤ 10 }
    ensures { Reads expression_of (operators_past fuel precedences (expression_of first) tokens.old) result tokens.new }
{
    if precedences == 0 {
        return Ok(first);
    }
    let precedence = PRECEDENCES - (precedences - 1);
    let mut left = operators(alloc, tokens, fuel, precedences - 1, first)?;
    for _turn in 0..fuel {
        if !tokens.sees_operator(precedence) {
            return Ok(left);
        }
        let operator = tokens.operator(precedence)?;
        let right = operand(alloc, tokens, fuel)?;
        let right = operators(alloc, tokens, fuel, precedences - 1, right)?;
        left = binary_of(alloc, operator, left, right)?;
    }
    Err(Halt::Wrong)
}

/// A number, a name, an element, a reference, the element of one, an expression in parentheses, or an operator or a cast before an operand.
#[cycle(expression)]
pub fn operand(alloc: Global, tokens: &mut Cursor<'_>, fuel: usize) -> Result<Expression, Halt>
    ensures { Reads expression_of (spec.parse_operand fuel tokens.old) result tokens.new }
{
    if fuel == 0 {
        return Err(Halt::Wrong);
    }
    match tokens.peek() {
        Some(Lexeme::Number(_)) => {
            let (place, value) = tokens.number()?;
            Ok(Expression::Number { place, value })
        }
        Some(Lexeme::Name(_)) => {
            let name = tokens.name(alloc)?;
            operand_after_name(alloc, tokens, fuel - 1, name)
        }
        Some(Lexeme::Punctuator(Punctuator::OpenParenthesis)) => {
            let opening = tokens.mark(Punctuator::OpenParenthesis)?;
            operand_after_opening(alloc, tokens, fuel - 1, opening)
        }
        Some(Lexeme::Keyword(Keyword::Null)) => {
            let place = tokens.word(Keyword::Null)?;
            Ok(Expression::Null { place })
        }
        Some(Lexeme::Punctuator(Punctuator::Star)) => {
            let place = tokens.mark(Punctuator::Star)?;
            let reference = tokens.name(alloc)?;
            Ok(Expression::Referent { place, reference })
        }
        Some(Lexeme::Punctuator(Punctuator::Ampersand)) => {
            let place = tokens.mark(Punctuator::Ampersand)?;
            let array = tokens.name(alloc)?;
            address(alloc, tokens, fuel - 1, place, array)
        }
        _ => {
            let (place, operator) = tokens.unary()?;
            let inner = operand(alloc, tokens, fuel - 1)?;
            Ok(unary_of(alloc, place, operator, inner)?)
        }
    }
}

/// The address of an element, after the name of its array.
#[cycle(expression)]
fn address(
    alloc: Global,
    tokens: &mut Cursor<'_>,
    fuel: usize,
    place: Place,
    array: Name,
) -> Result<Expression, Halt>
    ensures { Reads expression_of (spec.address_after_name (spec.parse_expression fuel) place (name_of array) tokens.old) result tokens.new }
{
    tokens.mark(Punctuator::OpenBracket)?;
    let inside = expression(alloc, tokens, fuel)?;
    tokens.mark(Punctuator::CloseBracket)?;
    Ok(address_of(alloc, place, array, inside)?)
}

/// A cast, or an expression in parentheses, after the opening one.
#[cycle(expression)]
fn operand_after_opening(
    alloc: Global,
    tokens: &mut Cursor<'_>,
    fuel: usize,
    opening: Place,
) -> Result<Expression, Halt>
    ensures { Reads expression_of (spec.operand_after_opening (spec.parse_operand fuel) (spec.parse_expression fuel) opening tokens.old) result tokens.new }
{
    if tokens.sees_kind() {
        let kind = kind(tokens)?;
        tokens.mark(Punctuator::CloseParenthesis)?;
        let inner = operand(alloc, tokens, fuel)?;
        Ok(cast_of(alloc, opening, kind, inner)?)
    } else {
        let inner = expression(alloc, tokens, fuel)?;
        tokens.mark(Punctuator::CloseParenthesis)?;
        Ok(parenthesised_of(alloc, opening, inner)?)
    }
}

/// The operand that begins with this name, read from after the name.
#[cycle(expression)]
pub fn operand_after_name(
    alloc: Global,
    tokens: &mut Cursor<'_>,
    fuel: usize,
    name: Name,
) -> Result<Expression, Halt>
    ensures { Reads expression_of (spec.operand_after_name (spec.parse_expression fuel) (name_of name) tokens.old) result tokens.new }
{
    match index(alloc, tokens, fuel)? {
        Some(inside) => Ok(element_of(alloc, name, inside)?),
        None => Ok(Expression::Named { name }),
    }
}

/// The index after a name, where there is one.
#[cycle(expression)]
pub fn index(
    alloc: Global,
    tokens: &mut Cursor<'_>,
    fuel: usize,
) -> Result<Option<Expression>, Halt>
    ensures { Reads (option_map expression_of) (spec.parse_index (spec.parse_expression fuel) tokens.old) result tokens.new }
{
    if !tokens.sees(Punctuator::OpenBracket) {
        return Ok(None);
    }
    tokens.mark(Punctuator::OpenBracket)?;
    let inside = expression(alloc, tokens, fuel)?;
    tokens.mark(Punctuator::CloseBracket)?;
    Ok(Some(inside))
}

/// The expression that begins with this name, read from after the name.
#[tactic(auto, using(crate::proofs::ParserStepEquations::after_name_is))]
pub fn expression_after_name(
    alloc: Global,
    tokens: &mut Cursor<'_>,
    fuel: usize,
    name: Name,
) -> Result<Expression, Halt>
    ensures { Reads expression_of (expression_past_name fuel (name_of name) tokens.old) result tokens.new }
{
    let first = operand_after_name(alloc, tokens, fuel, name)?;
    let condition = operators(alloc, tokens, fuel, PRECEDENCES, first)?;
    conditional(alloc, tokens, fuel, condition)
}

fn element_of(alloc: Global, array: Name, index: Expression) -> Result<Expression, AllocError>
    ensures { IfOk result (λ x. expression_of x ≡ t.Element (name_of array) (expression_of index)) }
{
    let index = Box::new(alloc, index)?;
    Ok(Expression::Element { array, index })
}

fn address_of(
    alloc: Global,
    place: Place,
    array: Name,
    index: Expression,
) -> Result<Expression, AllocError>
    ensures { IfOk result (λ x. expression_of x ≡ t.Address place (name_of array) (expression_of index)) }
{
    let index = Box::new(alloc, index)?;
    Ok(Expression::Address {
        place,
        array,
        index,
    })
}

fn parenthesised_of(
    alloc: Global,
    place: Place,
    inner: Expression,
) -> Result<Expression, AllocError>
    ensures { IfOk result (λ x. expression_of x ≡ t.Parenthesised place (expression_of inner)) }
{
    let inner = Box::new(alloc, inner)?;
    Ok(Expression::Parenthesised { place, inner })
}

fn unary_of(
    alloc: Global,
    place: Place,
    operator: Unary,
    operand: Expression,
) -> Result<Expression, AllocError>
    ensures { IfOk result (λ x. expression_of x ≡ t.Unary place operator (expression_of operand)) }
{
    let operand = Box::new(alloc, operand)?;
    Ok(Expression::Unary {
        place,
        operator,
        operand,
    })
}

fn cast_of(
    alloc: Global,
    place: Place,
    kind: Kind,
    operand: Expression,
) -> Result<Expression, AllocError>
    ensures { IfOk result (λ x. expression_of x ≡ t.Cast place kind (expression_of operand)) }
{
    let operand = Box::new(alloc, operand)?;
    Ok(Expression::Cast {
        place,
        kind,
        operand,
    })
}

fn binary_of(
    alloc: Global,
    operator: Binary,
    left: Expression,
    right: Expression,
) -> Result<Expression, AllocError>
    ensures { IfOk result (λ x. expression_of x ≡ t.Binary operator (expression_of left) (expression_of right)) }
{
    let left = Box::new(alloc, left)?;
    let right = Box::new(alloc, right)?;
    Ok(Expression::Binary {
        operator,
        left,
        right,
    })
}

fn conditional_of(
    alloc: Global,
    condition: Expression,
    then: Expression,
    otherwise: Expression,
) -> Result<Expression, AllocError>
    ensures { IfOk result (λ x. expression_of x ≡ t.Conditional (expression_of condition) (expression_of then) (expression_of otherwise)) }
{
    let condition = Box::new(alloc, condition)?;
    let then = Box::new(alloc, then)?;
    let otherwise = Box::new(alloc, otherwise)?;
    Ok(Expression::Conditional {
        condition,
        then,
        otherwise,
    })
}
