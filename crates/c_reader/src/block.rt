//! Blocks, and the statements that have them.
ghost use Rattle.std.specs.Prelude.{◌≡◌, ◌<◌, ◌≤◌, IfOk};
ghost use Rattle.c_tree.specs.Trees as t;
ghost use Rattle.c_tree.specs.Views.{arms_list_of, block_of, expression_of, otherwise_of, statement_of, statements_of};
ghost use Rattle.c_reader.specs.links.ParserFunctions as spec;
ghost use Rattle.c_reader.specs.links.ParserContracts.{Reads};
ghost use Rattle.c_reader.specs.links.Rows.{arm_of, for_head_of};
ghost use Rattle.c_reader.specs.links.ParserSteps.{parse_arm, parse_do, parse_for, parse_if, parse_while, statement_by_mark, statement_by_word};

use crate::cursor::Cursor;
use crate::halt::Halt;
use crate::statement::{
    assignment_statement, condition, declaration_statement, followed_statement, head_of_for, lock,
    named_statement, unlock,
};
use crate::token::Lexeme;
use c_tree::language::Language;
use c_tree::token::{Keyword, Punctuator};
use c_tree::tree::{Arm, Block, Expression, Head, Statement};
use ido_base::place::Place;
use std::alloc::{AllocError, Global};

/// An `if`, whose arms keep no room to spare.
fn if_of(place: Place, mut arms: Vec<Arm>, otherwise: Option<Block>) -> Statement
    ensures { statement_of result ≡ t.If place (arms_list_of arms.items) (otherwise_of otherwise) }
{
    arms.shrink_to_fit();
    Statement::If {
        place,
        arms,
        otherwise,
    }
}

/// A `while`, its condition boxed.
fn while_of(
    alloc: Global,
    place: Place,
    condition: Expression,
    block: Block,
) -> Result<Statement, AllocError>
    ensures { IfOk result (λ x. statement_of x ≡ t.While place (expression_of condition) (block_of block)) }
{
    let condition = Box::new(alloc, condition)?;
    Ok(Statement::While {
        place,
        condition,
        block,
    })
}

/// A `do`, its condition boxed.
fn do_of(
    alloc: Global,
    place: Place,
    block: Block,
    condition: Expression,
) -> Result<Statement, AllocError>
    ensures { IfOk result (λ x. statement_of x ≡ t.Do place (block_of block) (expression_of condition)) }
{
    let condition = Box::new(alloc, condition)?;
    Ok(Statement::Do {
        place,
        block,
        condition,
    })
}

/// A `for`.
fn for_of(place: Place, head: Box<Head>, block: Block) -> Statement
    ensures { statement_of result ≡ t.For place (for_head_of head).start (for_head_of head).condition (for_head_of head).last (block_of block) }
{
    Statement::For { place, head, block }
}

/// A statement.
#[cycle(statement)]
pub fn statement(
    alloc: Global,
    language: Language,
    tokens: &mut Cursor<'_>,
    fuel: usize,
) -> Result<Statement, Halt>
    ensures { Reads statement_of (spec.parse_statement language fuel tokens.old) result tokens.new }
{
    if fuel == 0 {
        return Err(Halt::Wrong);
    }
    match tokens.peek() {
        Some(Lexeme::Name(_)) => named_statement(alloc, tokens, fuel),
        Some(Lexeme::Punctuator(first)) => marked_statement(alloc, language, tokens, fuel, first),
        Some(Lexeme::Keyword(first)) => worded_statement(alloc, language, tokens, fuel, first),
        _ => declaration_statement(alloc, tokens, fuel),
    }
}

/// A statement that begins with this punctuator.
#[cycle(statement)]
fn marked_statement(
    alloc: Global,
    language: Language,
    tokens: &mut Cursor<'_>,
    fuel: usize,
    first: Punctuator,
) -> Result<Statement, Halt>
    requires { 0 < fuel }
    ensures { Reads statement_of (statement_by_mark language fuel first tokens.old) result tokens.new }
{
    match first {
        Punctuator::OpenBrace => {
            let inside = block(alloc, language, tokens, fuel - 1)?;
            Ok(Statement::Block(inside))
        }
        Punctuator::Semicolon => {
            let place = tokens.mark(Punctuator::Semicolon)?;
            Ok(Statement::Empty { place })
        }
        Punctuator::Star => followed_statement(alloc, tokens, fuel),
        Punctuator::Increment | Punctuator::Decrement => assignment_statement(alloc, tokens, fuel),
        _ => declaration_statement(alloc, tokens, fuel),
    }
}

/// A statement that begins with this reserved word.
#[cycle(statement)]
fn worded_statement(
    alloc: Global,
    language: Language,
    tokens: &mut Cursor<'_>,
    fuel: usize,
    first: Keyword,
) -> Result<Statement, Halt>
    requires { 0 < fuel }
    ensures { Reads statement_of (statement_by_word language fuel first tokens.old) result tokens.new }
{
    match first {
        Keyword::If => if_statement(alloc, language, tokens, fuel),
        Keyword::While => while_statement(alloc, language, tokens, fuel),
        Keyword::Do => do_statement(alloc, language, tokens, fuel),
        Keyword::For => for_statement(alloc, language, tokens, fuel),
        Keyword::Lock => lock(alloc, language, tokens, fuel),
        Keyword::Unlock => unlock(alloc, language, tokens, fuel),
        _ => declaration_statement(alloc, tokens, fuel),
    }
}

/// `if`, with each `else if` and the last `else`.
#[cycle(statement)]
fn if_statement(
    alloc: Global,
    language: Language,
    tokens: &mut Cursor<'_>,
    fuel: usize,
) -> Result<Statement, Halt>
    requires { 0 < fuel }
    ensures { Reads statement_of (parse_if language fuel tokens.old) result tokens.new }
{
    let place = tokens.word(Keyword::If)?;
    let mut arms = Vec::new(alloc);
    let first_arm = arm(alloc, language, tokens, fuel, fuel - 1)?;
    arms.push(first_arm)?;
    for turn in 0..fuel {
        if !tokens.sees_word(Keyword::Else) {
            return Ok(if_of(place, arms, None));
        }
        tokens.word(Keyword::Else)?;
        if !tokens.sees_word(Keyword::If) {
            let inside = block(alloc, language, tokens, fuel - 1)?;
            return Ok(if_of(place, arms, Some(inside)));
        }
        tokens.word(Keyword::If)?;
        let next = arm(alloc, language, tokens, fuel - turn, fuel - 1)?;
        arms.push(next)?;
    }
    Err(Halt::Wrong)
}

/// A condition and its block, each with its own fuel.
#[cycle(statement)]
fn arm(
    alloc: Global,
    language: Language,
    tokens: &mut Cursor<'_>,
    fuel_of_condition: usize,
    fuel: usize,
) -> Result<Arm, Halt>
    ensures { Reads arm_of (parse_arm language fuel_of_condition fuel tokens.old) result tokens.new }
{
    let condition = condition(alloc, tokens, fuel_of_condition)?;
    let block = block(alloc, language, tokens, fuel)?;
    Ok(Arm { condition, block })
}

/// `while`
#[cycle(statement)]
fn while_statement(
    alloc: Global,
    language: Language,
    tokens: &mut Cursor<'_>,
    fuel: usize,
) -> Result<Statement, Halt>
    requires { 0 < fuel }
    ensures { Reads statement_of (parse_while language fuel tokens.old) result tokens.new }
{
    let place = tokens.word(Keyword::While)?;
    let condition = condition(alloc, tokens, fuel)?;
    let block = block(alloc, language, tokens, fuel - 1)?;
    Ok(while_of(alloc, place, condition, block)?)
}

/// `do`
#[cycle(statement)]
fn do_statement(
    alloc: Global,
    language: Language,
    tokens: &mut Cursor<'_>,
    fuel: usize,
) -> Result<Statement, Halt>
    requires { 0 < fuel }
    ensures { Reads statement_of (parse_do language fuel tokens.old) result tokens.new }
{
    let place = tokens.word(Keyword::Do)?;
    let block = block(alloc, language, tokens, fuel - 1)?;
    tokens.word(Keyword::While)?;
    let condition = condition(alloc, tokens, fuel)?;
    tokens.mark(Punctuator::Semicolon)?;
    Ok(do_of(alloc, place, block, condition)?)
}

/// `for`
#[cycle(statement)]
fn for_statement(
    alloc: Global,
    language: Language,
    tokens: &mut Cursor<'_>,
    fuel: usize,
) -> Result<Statement, Halt>
    requires { 0 < fuel }
    ensures { Reads statement_of (parse_for language fuel tokens.old) result tokens.new }
{
    let place = tokens.word(Keyword::For)?;
    let head = head_of_for(alloc, tokens, fuel)?;
    tokens.mark(Punctuator::CloseParenthesis)?;
    let block = block(alloc, language, tokens, fuel - 1)?;
    Ok(for_of(place, head, block))
}

/// Statements in braces.
#[cycle(statement)]
pub fn block(
    alloc: Global,
    language: Language,
    tokens: &mut Cursor<'_>,
    fuel: usize,
) -> Result<Block, Halt>
    ensures { Reads block_of (spec.parse_block language fuel tokens.old) result tokens.new }
{
    let opening = tokens.mark(Punctuator::OpenBrace)?;
    let statements = statements(alloc, language, tokens, fuel)?;
    let closing = tokens.mark(Punctuator::CloseBrace)?;
    Ok(Block {
        opening,
        statements,
        closing,
    })
}

/// Statements, up to a token that begins none.
#[cycle(statement)]
pub fn statements(
    alloc: Global,
    language: Language,
    tokens: &mut Cursor<'_>,
    fuel: usize,
) -> Result<Vec<Statement>, Halt>
    ensures { Reads (λ xs. statements_of xs.items) (spec.parse_statements language fuel tokens.old) result tokens.new }
{
    let mut found = Vec::new(alloc);
    for _turn in 0..fuel {
        if !tokens.sees_statement() {
            found.shrink_to_fit();
            return Ok(found);
        }
        let next = statement(alloc, language, tokens, fuel)?;
        found.push(next)?;
    }
    Err(Halt::Wrong)
}
