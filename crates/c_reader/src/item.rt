//! Items of a program.
ghost use Rattle.std.specs.Prelude.{map};
ghost use Rattle.std.specs.Option.{option_map};
ghost use Rattle.c_tree.specs.Views.{body_of, function_of, guard_of, initialiser_of, item_of, length_of};
ghost use Rattle.c_tree.specs.Views.{parameter_of, persistent_of, return_of, signed_of, type_name_of};
ghost use Rattle.c_reader.specs.links.ParserFunctions as spec;
ghost use Rattle.c_reader.specs.links.ParserContracts.{Gives, Reads};
ghost use Rattle.c_reader.specs.links.ParserSteps.{all_items, one_item, parse_assigned, parse_function_item, parse_mutex_item};
ghost use Rattle.c_reader.specs.links.ParserSteps.{parse_numbers, parse_persistent_item, parse_thread_item};

use crate::block::{block, statements};
use crate::cursor::Cursor;
use crate::expression::expression;
use crate::halt::Halt;
use crate::kind::type_name;
use crate::token::Lexeme;
use c_tree::language::Language;
use c_tree::token::{Keyword, Punctuator};
use c_tree::tree::{
    Body, Function, Guard, Initialiser, Item, Length, Mutex, Parameter, Persistent, Return, Signed,
    Thread, TypeName,
};
use ido_ints::Binary;
use std::alloc::Global;

/// `return` with or without a value.
fn returned(alloc: Global, tokens: &mut Cursor<'_>, fuel: usize) -> Result<Return, Halt>
    ensures { Reads return_of (spec.parse_return fuel tokens.old) result tokens.new }
{
    let place = tokens.word(Keyword::Return)?;
    let value = if tokens.sees(Punctuator::Semicolon) {
        None
    } else {
        Some(expression(alloc, tokens, fuel)?)
    };
    tokens.mark(Punctuator::Semicolon)?;
    Ok(Return { place, value })
}

/// The `return` at the end of a body, where there is one.
fn maybe_returned(
    alloc: Global,
    tokens: &mut Cursor<'_>,
    fuel: usize,
) -> Result<Option<Return>, Halt>
    ensures { Reads (option_map return_of) (spec.parse_maybe (spec.is_word Keyword.Return) (spec.parse_return fuel) tokens.old) result tokens.new }
{
    if tokens.sees_word(Keyword::Return) {
        Ok(Some(returned(alloc, tokens, fuel)?))
    } else {
        Ok(None)
    }
}

/// The body of a function.
fn body(
    alloc: Global,
    language: Language,
    tokens: &mut Cursor<'_>,
    fuel: usize,
) -> Result<Body, Halt>
    ensures { Reads body_of (spec.parse_body language fuel tokens.old) result tokens.new }
{
    let opening = tokens.mark(Punctuator::OpenBrace)?;
    let statements = statements(alloc, language, tokens, fuel)?;
    let returned = maybe_returned(alloc, tokens, fuel)?;
    let closing = tokens.mark(Punctuator::CloseBrace)?;
    Ok(Body {
        opening,
        statements,
        returned,
        closing,
    })
}

/// A parameter.
fn parameter(alloc: Global, tokens: &mut Cursor<'_>) -> Result<Parameter, Halt>
    ensures { Reads parameter_of (spec.parse_parameter tokens.old) result tokens.new }
{
    let type_name = type_name(alloc, tokens)?;
    let name = tokens.name(alloc)?;
    Ok(Parameter { type_name, name })
}

/// Parameters with commas between them, one at least.
fn some_parameters(
    alloc: Global,
    tokens: &mut Cursor<'_>,
    fuel: usize,
) -> Result<Vec<Parameter>, Halt>
    ensures { Reads (λ xs. map parameter_of xs.items) (spec.parse_some_of fuel spec.parse_parameter tokens.old) result tokens.new }
{
    let mut found = Vec::new(alloc);
    let first = parameter(alloc, tokens)?;
    found.push(first)?;
    for _turn in 0..fuel {
        if !tokens.sees(Punctuator::Comma) {
            return Ok(found);
        }
        tokens.mark(Punctuator::Comma)?;
        let next = parameter(alloc, tokens)?;
        found.push(next)?;
    }
    Err(Halt::Wrong)
}

/// The parameters of a function, between its parentheses.
fn parameters(alloc: Global, tokens: &mut Cursor<'_>, fuel: usize) -> Result<Vec<Parameter>, Halt>
    ensures { Reads (λ xs. map parameter_of xs.items) (spec.parse_parameters fuel tokens.old) result tokens.new }
{
    if tokens.sees(Punctuator::CloseParenthesis) {
        return Ok(Vec::new(alloc));
    }
    if tokens.sees_word(Keyword::Void) {
        tokens.word(Keyword::Void)?;
        return Ok(Vec::new(alloc));
    }
    some_parameters(alloc, tokens, fuel)
}

/// The type of a function's result, or `void`.
fn type_or_void(alloc: Global, tokens: &mut Cursor<'_>) -> Result<Option<TypeName>, Halt>
    ensures { Reads (option_map type_name_of) (spec.parse_result tokens.old) result tokens.new }
{
    if tokens.sees_word(Keyword::Void) {
        tokens.word(Keyword::Void)?;
        Ok(None)
    } else {
        Ok(Some(type_name(alloc, tokens)?))
    }
}

/// A function.
fn function(
    alloc: Global,
    language: Language,
    tokens: &mut Cursor<'_>,
    fuel: usize,
) -> Result<Function, Halt>
    ensures { Reads function_of (spec.parse_function language fuel tokens.old) result tokens.new }
{
    let type_name = type_or_void(alloc, tokens)?;
    let name = tokens.name(alloc)?;
    tokens.mark(Punctuator::OpenParenthesis)?;
    let parameters = parameters(alloc, tokens, fuel)?;
    tokens.mark(Punctuator::CloseParenthesis)?;
    let body = body(alloc, language, tokens, fuel)?;
    Ok(Function {
        type_name,
        name,
        parameters,
        body,
    })
}

/// A `-` that may stand there.
fn sign(tokens: &mut Cursor<'_>) -> Result<bool, Halt>
    ensures { Gives (spec.parse_sign tokens.old) result tokens.new }
{
    if tokens.sees(Punctuator::Binary(Binary::Sub)) {
        tokens.mark(Punctuator::Binary(Binary::Sub))?;
        Ok(true)
    } else {
        Ok(false)
    }
}

/// A number of an initialiser.
fn signed(tokens: &mut Cursor<'_>) -> Result<Signed, Halt>
    ensures { Reads signed_of (spec.parse_signed tokens.old) result tokens.new }
{
    let place = tokens.place()?;
    let negative = sign(tokens)?;
    let (_, value) = tokens.number()?;
    Ok(Signed {
        place,
        negative,
        value,
    })
}

/// Numbers with commas between them, one at least and perhaps a comma after the last, and the closing brace.
fn numbers(alloc: Global, tokens: &mut Cursor<'_>, fuel: usize) -> Result<Vec<Signed>, Halt>
    ensures { Reads (λ xs. map signed_of xs.items) (parse_numbers fuel tokens.old) result tokens.new }
{
    let mut found = Vec::new(alloc);
    let first = signed(tokens)?;
    found.push(first)?;
    for _turn in 0..fuel {
        if !tokens.sees(Punctuator::Comma) {
            tokens.mark(Punctuator::CloseBrace)?;
            return Ok(found);
        }
        tokens.mark(Punctuator::Comma)?;
        if tokens.sees(Punctuator::CloseBrace) {
            tokens.mark(Punctuator::CloseBrace)?;
            return Ok(found);
        }
        let next = signed(tokens)?;
        found.push(next)?;
    }
    Err(Halt::Wrong)
}

/// What a persistent variable begins with.
#[tactic(auto, using(crate::proofs::ItemSteps::initialiser_is))]
fn initialiser(alloc: Global, tokens: &mut Cursor<'_>, fuel: usize) -> Result<Initialiser, Halt>
    ensures { Reads initialiser_of (spec.parse_initialiser fuel tokens.old) result tokens.new }
{
    if !tokens.sees(Punctuator::OpenBrace) {
        return Ok(Initialiser::Single(signed(tokens)?));
    }
    let place = tokens.mark(Punctuator::OpenBrace)?;
    let numbers = numbers(alloc, tokens, fuel)?;
    Ok(Initialiser::Braced { place, numbers })
}

/// The length of an array, in its brackets.
fn length(tokens: &mut Cursor<'_>) -> Result<Length, Halt>
    ensures { Reads length_of (spec.parse_length tokens.old) result tokens.new }
{
    tokens.mark(Punctuator::OpenBracket)?;
    let (place, value) = tokens.number()?;
    tokens.mark(Punctuator::CloseBracket)?;
    Ok(Length { place, value })
}

/// The length of an array, where there is one.
fn maybe_length(tokens: &mut Cursor<'_>) -> Result<Option<Length>, Halt>
    ensures { Reads (option_map length_of) (spec.parse_maybe (spec.is_mark Punctuator.OpenBracket) spec.parse_length tokens.old) result tokens.new }
{
    if tokens.sees(Punctuator::OpenBracket) {
        Ok(Some(length(tokens)?))
    } else {
        Ok(None)
    }
}

/// The length of an array of mutexes, where there is one.
fn mutex_length(language: Language, tokens: &mut Cursor<'_>) -> Result<Option<Length>, Halt>
    ensures { Reads (option_map length_of) (spec.parse_mutex_length language tokens.old) result tokens.new }
{
    match language {
        Language::Plain => Ok(None),
        Language::Full => maybe_length(tokens),
    }
}

/// Whether brackets are there, with nothing in them.
fn bracket_pair(tokens: &mut Cursor<'_>) -> Result<bool, Halt>
    ensures { Gives (spec.parse_bracket_pair tokens.old) result tokens.new }
{
    if !tokens.sees(Punctuator::OpenBracket) {
        return Ok(false);
    }
    tokens.mark(Punctuator::OpenBracket)?;
    tokens.mark(Punctuator::CloseBracket)?;
    Ok(true)
}

/// Whether a guard has brackets.
fn brackets(language: Language, tokens: &mut Cursor<'_>) -> Result<bool, Halt>
    ensures { Gives (spec.parse_brackets language tokens.old) result tokens.new }
{
    match language {
        Language::Plain => Ok(false),
        Language::Full => bracket_pair(tokens),
    }
}

/// What guards a variable, in parentheses.
fn guard(alloc: Global, language: Language, tokens: &mut Cursor<'_>) -> Result<Guard, Halt>
    ensures { Reads guard_of (spec.parse_guard language tokens.old) result tokens.new }
{
    tokens.mark(Punctuator::OpenParenthesis)?;
    let mutex = tokens.name(alloc)?;
    let each = brackets(language, tokens)?;
    tokens.mark(Punctuator::CloseParenthesis)?;
    Ok(Guard { mutex, each })
}

/// `=` and what a persistent variable begins with, where it is written.
#[tactic(auto, unfolding(crate::specs::links::ParserSteps::parse_assigned))]
fn maybe_initialiser(
    alloc: Global,
    tokens: &mut Cursor<'_>,
    fuel: usize,
) -> Result<Option<Initialiser>, Halt>
    ensures { Reads (option_map initialiser_of) (spec.parse_maybe (spec.is_mark Punctuator.Assign) (parse_assigned fuel) tokens.old) result tokens.new }
{
    if !tokens.sees(Punctuator::Assign) {
        return Ok(None);
    }
    tokens.mark(Punctuator::Assign)?;
    Ok(Some(initialiser(alloc, tokens, fuel)?))
}

/// A persistent variable.
#[tactic(auto, unfolding(crate::specs::links::ParserSteps::parse_assigned))]
fn persistent(
    alloc: Global,
    language: Language,
    tokens: &mut Cursor<'_>,
    fuel: usize,
) -> Result<Persistent, Halt>
    ensures { Reads persistent_of (spec.parse_persistent language fuel tokens.old) result tokens.new }
{
    tokens.word(Keyword::Persistent)?;
    let guard = guard(alloc, language, tokens)?;
    let type_name = type_name(alloc, tokens)?;
    let name = tokens.name(alloc)?;
    let length = maybe_length(tokens)?;
    let initialiser = maybe_initialiser(alloc, tokens, fuel)?;
    tokens.mark(Punctuator::Semicolon)?;
    Ok(Persistent {
        guard,
        type_name,
        name,
        length,
        initialiser,
    })
}

/// An item that is a persistent variable.
#[tactic(auto, unfolding(crate::specs::links::ParserSteps::parse_persistent_item))]
fn persistent_item(
    alloc: Global,
    language: Language,
    tokens: &mut Cursor<'_>,
    fuel: usize,
) -> Result<Item, Halt>
    ensures { Reads item_of (parse_persistent_item language fuel tokens.old) result tokens.new }
{
    Ok(Item::Persistent(persistent(alloc, language, tokens, fuel)?))
}

/// An item that is a function.
#[tactic(auto, unfolding(crate::specs::links::ParserSteps::parse_function_item))]
fn function_item(
    alloc: Global,
    language: Language,
    tokens: &mut Cursor<'_>,
    fuel: usize,
) -> Result<Item, Halt>
    ensures { Reads item_of (parse_function_item language fuel tokens.old) result tokens.new }
{
    Ok(Item::Function(function(alloc, language, tokens, fuel)?))
}

/// A mutex, or an array of them.
#[tactic(auto, unfolding(crate::specs::links::ParserSteps::parse_mutex_item))]
fn mutex(alloc: Global, language: Language, tokens: &mut Cursor<'_>) -> Result<Item, Halt>
    ensures { Reads item_of (parse_mutex_item language tokens.old) result tokens.new }
{
    tokens.word(Keyword::Mutex)?;
    let name = tokens.name(alloc)?;
    let length = mutex_length(language, tokens)?;
    tokens.mark(Punctuator::Semicolon)?;
    Ok(Item::Mutex(Mutex { name, length }))
}

/// A thread.
#[tactic(auto, unfolding(crate::specs::links::ParserSteps::parse_thread_item))]
fn thread(
    alloc: Global,
    language: Language,
    tokens: &mut Cursor<'_>,
    fuel: usize,
) -> Result<Item, Halt>
    ensures { Reads item_of (parse_thread_item language fuel tokens.old) result tokens.new }
{
    tokens.word(Keyword::Thread)?;
    let name = tokens.name(alloc)?;
    let block = block(alloc, language, tokens, fuel)?;
    Ok(Item::Thread(Thread { name, block }))
}

/// An item.
#[tactic(auto, using(crate::proofs::ItemSteps::item_is))]
fn item(
    alloc: Global,
    language: Language,
    tokens: &mut Cursor<'_>,
    fuel: usize,
) -> Result<Item, Halt>
    ensures { Reads item_of (one_item language fuel tokens.old) result tokens.new }
{
    match tokens.peek() {
        Some(Lexeme::Keyword(Keyword::Mutex)) => mutex(alloc, language, tokens),
        Some(Lexeme::Keyword(Keyword::Persistent)) => persistent_item(
            alloc, language, tokens, fuel,
        ),
        Some(Lexeme::Keyword(Keyword::Thread)) => thread(alloc, language, tokens, fuel),
        _ => function_item(alloc, language, tokens, fuel),
    }
}

/// One item and more, up to the end.
pub fn items(
    alloc: Global,
    language: Language,
    tokens: &mut Cursor<'_>,
    fuel: usize,
) -> Result<Vec<Item>, Halt>
    ensures { Reads (λ xs. map item_of xs.items) (all_items language fuel tokens.old) result tokens.new }
{
    let mut found = Vec::new(alloc);
    let first = item(alloc, language, tokens, fuel)?;
    found.push(first)?;
    for _turn in 0..fuel {
        if tokens.is_empty() {
            return Ok(found);
        }
        let next = item(alloc, language, tokens, fuel)?;
        found.push(next)?;
    }
    Err(Halt::Wrong)
}
