//! What the tokens of the plain language are in the full one.
ghost use Rattle.std.specs.Prelude.{◌≡◌, map, IfOk};
ghost use Rattle.c_tree.specs.LexicalScan.{full_lexeme, full_mark, full_name, full_token, more_reserved};
ghost use Rattle.c_reader.specs.links.Prefixes.{keyword_in};
ghost use Rattle.c_reader.specs.links.Tokens.{lexeme_of, tokens_of};

use crate::prefix::keyword_among;
use crate::token::{Lexeme, Token};
use c_tree::token::{Keyword, Punctuator};
use ido_ints::Binary;
use std::alloc::{AllocError, Global};

/// The words that the full language reserves, too.
static MORE_RESERVED: [(&[u8], Keyword); 2] = [(b"ref", Keyword::Ref), (b"null", Keyword::Null)];

/// The word that these bytes are, of those that the full language reserves, too.
fn more_keyword(word: &[u8]) -> Option<Keyword>
    ensures { result ≡ keyword_in more_reserved word.now }
{
    keyword_among(&MORE_RESERVED, word)
}

/// What a word is that the plain language doesn't reserve.
fn full_name<'a>(word: &'a [u8]) -> Lexeme<'a>
    ensures { lexeme_of result ≡ full_name word.entry.now }
{
    match more_keyword(word) {
        Some(keyword) => Lexeme::Keyword(keyword),
        None => Lexeme::Name(word),
    }
}

/// What a punctuator is: `*` and `&` may begin operands.
fn full_mark(mark: Punctuator) -> Punctuator
    ensures { result ≡ full_mark mark }
{
    match mark {
        Punctuator::Binary(operator) => match operator {
            Binary::Mul => Punctuator::Star,
            Binary::And => Punctuator::Ampersand,
            _ => mark,
        },
        _ => mark,
    }
}

/// What a token of the plain language is.
fn full_lexeme<'a>(lexeme: Lexeme<'a>) -> Lexeme<'a>
    ensures { lexeme_of result ≡ full_lexeme (lexeme_of lexeme.entry) }
{
    match lexeme {
        Lexeme::Name(word) => full_name(word),
        Lexeme::Punctuator(mark) => Lexeme::Punctuator(full_mark(mark)),
        Lexeme::Keyword(_) | Lexeme::Number(_) => lexeme,
    }
}

/// What tokens of the plain language are.
pub fn full_tokens<'a>(alloc: Global, tokens: &[Token<'a>]) -> Result<Vec<Token<'a>>, AllocError>
    ensures { IfOk result (λ all. tokens_of all.items ≡ map full_token (tokens_of tokens.now)) }
{
    let mut all = Vec::new(alloc);
    for token in tokens {
        all.push(Token {
            place: token.place,
            lexeme: full_lexeme(token.lexeme),
        })?;
    }
    Ok(all)
}
