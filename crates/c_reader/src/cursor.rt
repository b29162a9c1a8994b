//! A cursor over tokens.
ghost use Rattle.std.specs.Prelude.{◌≡◌, length};
ghost use Rattle.std.specs.Option.{option_map};
ghost use Rattle.c_tree.specs.Views.{name_of};
ghost use Rattle.c_reader.specs.links.Tokens.{lexeme_of, tokens_of};
ghost use Rattle.c_reader.specs.links.ParserFunctions as spec;
ghost use Rattle.c_reader.specs.links.ParserContracts.{Reads, Gives};
ghost use Rattle.c_reader.specs.links.ParserSteps.{at_end, parse_unary, parse_update};
ghost use Rattle.c_tree.specs.Grammar.{precedence};

use crate::halt::Halt;
use crate::token::{Lexeme, Token};
use c_tree::token::{Keyword, Punctuator};
use c_tree::tree::Name;
use ido_base::place::Place;
use ido_ints::{Binary, Unary, Value};
use std::alloc::Global;
use std::marker::Model;

/// The tokens that are left.
#[derive(Drop)]
pub struct Cursor<'a> {
    left: &'a [Token<'a>],
}

impl<'a> Model for Cursor<'a> {
    ghost use Rattle.std.specs.Prelude.{List};
    ghost use Rattle.c_tree.specs.Tokens.{Token};

    ghost Value = { List Token };

    ghost use Rattle.c_reader.specs.links.Tokens.{tokens_of};

    ghost view = { λ c. tokens_of c.left.now };
}

impl<'a> Cursor<'a> {
    pub fn new(tokens: &'a [Token<'a>]) -> Cursor<'a>
        ensures { result ≡ tokens_of tokens.now }
    {
        Cursor { left: tokens }
    }

    /// How many tokens are left.
    pub fn left(&self) -> usize
        ensures { result ≡ length self.now }
    {
        self.left.len()
    }

    /// No token is left.
    pub fn is_empty(&self) -> bool
        ensures { result ≡ at_end self.now }
    {
        self.left.is_empty()
    }

    /// The next token.
    pub fn peek(&self) -> Option<Lexeme<'a>>
        ensures { option_map lexeme_of result ≡ spec.head_of self.now }
    {
        match self.left {
            [] => None,
            [next, ..] => Some(next.lexeme),
        }
    }

    /// The place of the next token.
    pub fn place(&self) -> Result<Place, Halt>
        ensures { Gives (spec.here self.now) result self.now }
    {
        match self.left {
            [] => Err(Halt::Wrong),
            [next, ..] => Ok(next.place),
        }
    }

    /// Reads a name.
    pub fn name(&mut self, alloc: Global) -> Result<Name, Halt>
        ensures { Reads name_of (spec.parse_name self.old) result self.new }
    {
        let [next, left @ ..] = self.left else {
            return Err(Halt::Wrong);
        };
        let Lexeme::Name(bytes) = next.lexeme else {
            return Err(Halt::Wrong);
        };
        let text = bytes.to_vec(alloc)?;
        self.left = left;
        Ok(Name {
            text,
            place: next.place,
        })
    }

    /// Reads a number.
    pub fn number(&mut self) -> Result<(Place, Value), Halt>
        ensures { Gives (spec.parse_number self.old) result self.new }
    {
        let [next, left @ ..] = self.left else {
            return Err(Halt::Wrong);
        };
        let Lexeme::Number(literal) = next.lexeme else {
            return Err(Halt::Wrong);
        };
        self.left = left;
        Ok((next.place, literal.value()))
    }

    /// Is the next token this punctuator?
    pub fn sees(&self, mark: Punctuator) -> bool
        ensures { result ≡ spec.head_is (spec.is_mark mark) (spec.head_of self.now) }
    {
        match self.left {
            [] => false,
            [next, ..] => next.lexeme.is_mark(mark),
        }
    }

    /// Is the next token this reserved word?
    pub fn sees_word(&self, word: Keyword) -> bool
        ensures { result ≡ spec.head_is (spec.is_word word) (spec.head_of self.now) }
    {
        match self.left {
            [] => false,
            [next, ..] => next.lexeme.is_word(word),
        }
    }

    /// Does the next token begin a kind?
    pub fn sees_kind(&self) -> bool
        ensures { result ≡ spec.head_is spec.begins_kind (spec.head_of self.now) }
    {
        match self.left {
            [] => false,
            [next, ..] => next.lexeme.begins_kind(),
        }
    }

    /// Does the next token begin a type?
    pub fn sees_type(&self) -> bool
        ensures { result ≡ spec.head_is spec.begins_type (spec.head_of self.now) }
    {
        match self.left {
            [] => false,
            [next, ..] => next.lexeme.begins_type(),
        }
    }

    /// Does the next token begin a statement?
    pub fn sees_statement(&self) -> bool
        ensures { result ≡ spec.head_is spec.begins_statement (spec.head_of self.now) }
    {
        match self.left {
            [] => false,
            [next, ..] => next.lexeme.begins_statement(),
        }
    }

    /// Reads this punctuator.
    pub fn mark(&mut self, mark: Punctuator) -> Result<Place, Halt>
        ensures { Gives (spec.parse_mark mark self.old) result self.new }
    {
        let [next, left @ ..] = self.left else {
            return Err(Halt::Wrong);
        };
        if !next.lexeme.is_mark(mark) {
            return Err(Halt::Wrong);
        }
        self.left = left;
        Ok(next.place)
    }

    /// Reads this reserved word.
    pub fn word(&mut self, word: Keyword) -> Result<Place, Halt>
        ensures { Gives (spec.parse_word word self.old) result self.new }
    {
        let [next, left @ ..] = self.left else {
            return Err(Halt::Wrong);
        };
        if !next.lexeme.is_word(word) {
            return Err(Halt::Wrong);
        }
        self.left = left;
        Ok(next.place)
    }

    /// Reads an operator with one operand.
    pub fn unary(&mut self) -> Result<(Place, Unary), Halt>
        ensures { Gives (parse_unary self.old) result self.new }
    {
        let [next, left @ ..] = self.left else {
            return Err(Halt::Wrong);
        };
        let Some(operator) = next.lexeme.unary() else {
            return Err(Halt::Wrong);
        };
        self.left = left;
        Ok((next.place, operator))
    }

    /// Reads the operator of an update.
    pub fn update(&mut self) -> Result<Binary, Halt>
        ensures { Gives (parse_update self.old) result self.new }
    {
        let [next, left @ ..] = self.left else {
            return Err(Halt::Wrong);
        };
        let Lexeme::Punctuator(Punctuator::Update(operator)) = next.lexeme else {
            return Err(Halt::Wrong);
        };
        self.left = left;
        Ok(operator)
    }

    /// Is the next token an operator with two operands, of this precedence?
    pub fn sees_operator(&self, precedence: u8) -> bool
        ensures { result ≡ spec.head_is (spec.is_operator_at precedence) (spec.head_of self.now) }
    {
        match self.left {
            [] => false,
            [next, ..] => operator_at(precedence, next.lexeme).is_some(),
        }
    }

    /// Reads an operator with two operands, of this precedence.
    pub fn operator(&mut self, precedence: u8) -> Result<Binary, Halt>
        ensures { Gives (spec.taking (spec.operator_in precedence) self.old) result self.new }
    {
        let [next, left @ ..] = self.left else {
            return Err(Halt::Wrong);
        };
        let Some(operator) = operator_at(precedence, next.lexeme) else {
            return Err(Halt::Wrong);
        };
        self.left = left;
        Ok(operator)
    }
}

/// The operator with two operands that a token is, where it has this precedence.
fn operator_at(precedence: u8, lexeme: Lexeme<'_>) -> Option<Binary>
    ensures { result ≡ spec.operator_at precedence (lexeme_of lexeme.entry) }
{
    match lexeme.operator() {
        Some(operator) if precedence_of(operator) == precedence => Some(operator),
        _ => None,
    }
}

/// How tightly an operator binds: from `||` to `*`.
fn precedence_of(operator: Binary) -> u8
    ensures { result ≡ precedence operator }
{
    match operator {
        Binary::LogicalOr => 1,
        Binary::LogicalAnd => 2,
        Binary::Or => 3,
        Binary::Xor => 4,
        Binary::And => 5,
        Binary::Equal | Binary::NotEqual => 6,
        Binary::Less | Binary::Greater | Binary::LessEqual | Binary::GreaterEqual => 7,
        Binary::ShiftLeft | Binary::ShiftRight => 8,
        Binary::Add | Binary::Sub => 9,
        Binary::Mul | Binary::Div | Binary::Rem => 10,
    }
}
