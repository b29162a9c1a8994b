//! Kinds and types.
ghost use Rattle.c_tree.specs.Views.{type_name_of};
ghost use Rattle.c_reader.specs.links.ParserFunctions as spec;
ghost use Rattle.c_reader.specs.links.ParserContracts.{Gives, Reads};

use crate::cursor::Cursor;
use crate::halt::Halt;
use crate::token::Lexeme;
use c_tree::token::{Keyword, Punctuator};
use c_tree::tree::TypeName;
use ido_base::place::Place;
use ido_ints::Kind;
use std::alloc::Global;

/// A kind.
pub fn kind(tokens: &mut Cursor<'_>) -> Result<Kind, Halt>
    ensures { Gives (spec.parse_type tokens.old) result tokens.new }
{
    let Some(Lexeme::Keyword(first)) = tokens.peek() else {
        return Err(Halt::Wrong);
    };
    match first {
        Keyword::Char => {
            tokens.word(Keyword::Char)?;
            Ok(Kind::Char)
        }
        Keyword::Short => {
            tokens.word(Keyword::Short)?;
            maybe_int(tokens)?;
            Ok(Kind::Short)
        }
        Keyword::Int => {
            tokens.word(Keyword::Int)?;
            Ok(Kind::Int)
        }
        Keyword::Long => {
            tokens.word(Keyword::Long)?;
            maybe_int(tokens)?;
            Ok(Kind::Long)
        }
        Keyword::Signed => {
            tokens.word(Keyword::Signed)?;
            signed(tokens)
        }
        Keyword::Unsigned => {
            tokens.word(Keyword::Unsigned)?;
            unsigned(tokens)
        }
        _ => Err(Halt::Wrong),
    }
}

/// A word `int` that may stand there.
fn maybe_int(tokens: &mut Cursor<'_>) -> Result<Option<Place>, Halt>
    ensures { Gives (spec.parse_int tokens.old) result tokens.new }
{
    if tokens.sees_word(Keyword::Int) {
        Ok(Some(tokens.word(Keyword::Int)?))
    } else {
        Ok(None)
    }
}

/// What stands after `signed`.
fn signed(tokens: &mut Cursor<'_>) -> Result<Kind, Halt>
    ensures { Gives (spec.by_head spec.signed_by tokens.old) result tokens.new }
{
    let Some(Lexeme::Keyword(next)) = tokens.peek() else {
        return Ok(Kind::Int);
    };
    match next {
        Keyword::Char => {
            tokens.word(Keyword::Char)?;
            Ok(Kind::SignedChar)
        }
        Keyword::Short => {
            tokens.word(Keyword::Short)?;
            maybe_int(tokens)?;
            Ok(Kind::Short)
        }
        Keyword::Int => {
            tokens.word(Keyword::Int)?;
            Ok(Kind::Int)
        }
        Keyword::Long => {
            tokens.word(Keyword::Long)?;
            maybe_int(tokens)?;
            Ok(Kind::Long)
        }
        _ => Ok(Kind::Int),
    }
}

/// What stands after `unsigned`.
fn unsigned(tokens: &mut Cursor<'_>) -> Result<Kind, Halt>
    ensures { Gives (spec.by_head spec.unsigned_by tokens.old) result tokens.new }
{
    let Some(Lexeme::Keyword(next)) = tokens.peek() else {
        return Ok(Kind::UnsignedInt);
    };
    match next {
        Keyword::Char => {
            tokens.word(Keyword::Char)?;
            Ok(Kind::UnsignedChar)
        }
        Keyword::Short => {
            tokens.word(Keyword::Short)?;
            maybe_int(tokens)?;
            Ok(Kind::UnsignedShort)
        }
        Keyword::Int => {
            tokens.word(Keyword::Int)?;
            Ok(Kind::UnsignedInt)
        }
        Keyword::Long => {
            tokens.word(Keyword::Long)?;
            maybe_int(tokens)?;
            Ok(Kind::UnsignedLong)
        }
        _ => Ok(Kind::UnsignedInt),
    }
}

/// A type: a kind, or `ref(array)`.
pub fn type_name(alloc: Global, tokens: &mut Cursor<'_>) -> Result<TypeName, Halt>
    ensures { Reads type_name_of (spec.parse_type_name tokens.old) result tokens.new }
{
    match tokens.peek() {
        Some(Lexeme::Keyword(Keyword::Ref)) => {
            tokens.word(Keyword::Ref)?;
            tokens.mark(Punctuator::OpenParenthesis)?;
            let array = tokens.name(alloc)?;
            tokens.mark(Punctuator::CloseParenthesis)?;
            Ok(TypeName::Reference { array })
        }
        _ => Ok(TypeName::Kind(kind(tokens)?)),
    }
}
