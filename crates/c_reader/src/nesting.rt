//! How high the tokens of a text nest.
ghost use Rattle.std.specs.Prelude.{◌≡◌, ◌<◌, ◌+◌, length, take, true, false, IfNone, IfSome};
ghost use Rattle.c_tree.specs.TextReadings.{is_high, nests_high, outside, within_lexeme, within_mark};
ghost use Rattle.c_reader.specs.links.Nestings.{nesting_of};
ghost use Rattle.c_reader.specs.links.Tokens.{lexeme_of, tokens_of};

use crate::token::{Lexeme, Token};
use c_tree::token::Punctuator;
use ido_base::limits::MOST_NESTING;

/// The greatest nesting.
/// Braces that are open, and brackets and operators since the last `;`, `,`, `{` or `}`.
#[derive(Clone, Copy)]
struct Nesting {
    braces: u32,
    others: u32,
}

impl Nesting {
    /// Nesting before the first token.
    fn outside() -> Nesting
        ensures { nesting_of result ≡ outside }
    {
        Nesting {
            braces: 0,
            others: 0,
        }
    }

    /// Whether the nesting is past the greatest that is allowed.
    fn is_high(self) -> bool
        ensures { result ≡ is_high (nesting_of self) }
    {
        self.braces > MOST_NESTING || self.others > MOST_NESTING
    }

    /// Nesting after a punctuator.
    fn within_mark(self, mark: Punctuator) -> Nesting
        requires low { is_high (nesting_of self) ≡ false }
        ensures { nesting_of result ≡ within_mark mark (nesting_of self) }
    {
        match mark {
            Punctuator::OpenBrace => Nesting {
                braces: self.braces + 1,
                others: 0,
            },
            Punctuator::CloseBrace => Nesting {
                braces: self.braces.saturating_sub(1),
                others: 0,
            },
            Punctuator::Semicolon | Punctuator::Comma => Nesting {
                braces: self.braces,
                others: 0,
            },
            Punctuator::OpenParenthesis
            | Punctuator::OpenBracket
            | Punctuator::Question
            | Punctuator::Binary(_)
            | Punctuator::Star
            | Punctuator::Ampersand
            | Punctuator::Complement
            | Punctuator::Not => Nesting {
                braces: self.braces,
                others: self.others + 1,
            },
            Punctuator::CloseParenthesis
            | Punctuator::CloseBracket
            | Punctuator::Colon
            | Punctuator::Assign
            | Punctuator::Update(_)
            | Punctuator::Increment
            | Punctuator::Decrement => self,
        }
    }

    /// Nesting after a token.
    fn within_lexeme(self, lexeme: Lexeme<'_>) -> Nesting
        requires low { is_high (nesting_of self) ≡ false }
        ensures { nesting_of result ≡ within_lexeme (lexeme_of lexeme.entry) (nesting_of self) }
    {
        match lexeme {
            Lexeme::Punctuator(mark) => self.within_mark(mark),
            Lexeme::Name(_) | Lexeme::Keyword(_) | Lexeme::Number(_) => self,
        }
    }
}

/// The index of the first token that nests too high.
pub fn first_high(tokens: &[Token<'_>]) -> Option<usize>
    ensures none { IfNone result (nests_high (tokens_of tokens.now) ≡ false) }
    ensures within { IfSome result (λ i. i < length tokens.now) }
    ensures before { IfSome result (λ i. nests_high (tokens_of (take i tokens.now)) ≡ false) }
    ensures high { IfSome result (λ i. nests_high (tokens_of (take (i + 1) tokens.now)) ≡ true) }
{
    let mut nesting = Nesting::outside();
    for (i, token) in tokens.iter().enumerate() {
        nesting = nesting.within_lexeme(token.lexeme);
        if nesting.is_high() {
            return Some(i);
        }
    }
    None
}
