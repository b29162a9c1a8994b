//! Tokens of a text.
ghost use Rattle.std.specs.Prelude.{◌≡◌};
ghost use Rattle.c_reader.specs.links.Tokens.{value_of, lexeme_of};
ghost use Rattle.c_reader.specs.links.ParserFunctions as spec;

use c_tree::token::{Keyword, Punctuator};
use ido_base::place::Place;
use ido_ints::{Binary, Kind, Unary, Value};

/// A number, with the kind of its literal. The kind holds each number that a text spells.
#[derive(Clone, Copy, Drop)]
pub struct Literal {
    pub kind: Kind,
    pub number: u64,
}

impl Literal {
    /// The literal's value: a number that the kind holds is kept.
    pub fn value(self) -> Value
        ensures { result ≡ value_of self }
    {
        Value::reduce(self.kind, i128::from(self.number))
    }
}

/// What a token is.
#[derive(Clone, Copy, Drop)]
pub enum Lexeme<'a> {
    /// A word that isn't reserved, with its bytes.
    Name(&'a [u8]),
    /// A reserved word.
    Keyword(Keyword),
    /// A number.
    Number(Literal),
    /// A punctuator.
    Punctuator(Punctuator),
}

impl Lexeme<'_> {
    /// Is it this punctuator?
    pub fn is_mark(&self, mark: Punctuator) -> bool
        ensures { result ≡ spec.is_mark mark (lexeme_of self.now) }
    {
        matches!(self, Lexeme::Punctuator(own) if *own == mark)
    }

    /// Is it this reserved word?
    pub fn is_word(&self, word: Keyword) -> bool
        ensures { result ≡ spec.is_word word (lexeme_of self.now) }
    {
        matches!(self, Lexeme::Keyword(own) if *own == word)
    }

    /// Does it begin a kind?
    pub fn begins_kind(&self) -> bool
        ensures { result ≡ spec.begins_kind (lexeme_of self.now) }
    {
        matches!(
            self,
            Lexeme::Keyword(
                Keyword::Char
                    | Keyword::Short
                    | Keyword::Int
                    | Keyword::Long
                    | Keyword::Signed
                    | Keyword::Unsigned
            )
        )
    }

    /// Does it begin a type?
    pub fn begins_type(&self) -> bool
        ensures { result ≡ spec.begins_type (lexeme_of self.now) }
    {
        self.begins_kind() || self.is_word(Keyword::Ref)
    }

    /// Does it begin a statement?
    pub fn begins_statement(&self) -> bool
        ensures { result ≡ spec.begins_statement (lexeme_of self.now) }
    {
        match self {
            Lexeme::Name(_) => true,
            Lexeme::Number(_) => false,
            Lexeme::Keyword(
                Keyword::If
                | Keyword::While
                | Keyword::Do
                | Keyword::For
                | Keyword::Lock
                | Keyword::Unlock,
            ) => true,
            Lexeme::Keyword(_) => self.begins_type(),
            Lexeme::Punctuator(mark) => matches!(
                mark,
                Punctuator::OpenBrace
                    | Punctuator::Semicolon
                    | Punctuator::Increment
                    | Punctuator::Decrement
                    | Punctuator::Star
            ),
        }
    }

    /// The operator with two operands that it is.
    pub fn operator(&self) -> Option<Binary>
        ensures { result ≡ spec.operator_of (lexeme_of self.now) }
    {
        match self {
            Lexeme::Punctuator(Punctuator::Binary(operator)) => Some(*operator),
            Lexeme::Punctuator(Punctuator::Star) => Some(Binary::Mul),
            Lexeme::Punctuator(Punctuator::Ampersand) => Some(Binary::And),
            _ => None,
        }
    }

    /// The operator with one operand that it is.
    pub fn unary(&self) -> Option<Unary>
        ensures { result ≡ spec.unary_of (lexeme_of self.now) }
    {
        match self {
            Lexeme::Punctuator(Punctuator::Binary(Binary::Add)) => Some(Unary::Plus),
            Lexeme::Punctuator(Punctuator::Binary(Binary::Sub)) => Some(Unary::Minus),
            Lexeme::Punctuator(Punctuator::Complement) => Some(Unary::Complement),
            Lexeme::Punctuator(Punctuator::Not) => Some(Unary::Not),
            _ => None,
        }
    }
}

/// A token and the place of its first byte.
#[derive(Clone, Copy, Drop)]
pub struct Token<'a> {
    pub place: Place,
    pub lexeme: Lexeme<'a>,
}
