//! The parser: tokens become a tree.
ghost use Rattle.std.specs.Prelude.{IfOk};
ghost use Rattle.c_reader.specs.links.ParserOutcomes.{Parses};
ghost use Rattle.c_reader.specs.links.Tokens.{tokens_of};

use crate::cursor::Cursor;
use crate::halt::Halt;
use crate::item::items;
use crate::token::Token;
use c_tree::language::Language;
use c_tree::tree::Tree;
use ido_base::memory::OutOfMemory;
use std::alloc::Global;

/// What tokens are parsed as.
#[derive(Drop)]
pub enum Outcome {
    /// A whole program.
    Whole(Tree),
    /// The token at this index is wrong.
    WrongAt(usize),
    /// The tokens end too early.
    TooShort,
}

/// Parses the tokens of a program.
#[tactic(auto, using(crate::proofs::Answers::whole_program, crate::proofs::Answers::wrong_program, crate::proofs::Answers::short_program))]
pub fn parse(
    alloc: Global,
    language: Language,
    tokens: &[Token<'_>],
) -> Result<Outcome, OutOfMemory>
    ensures { IfOk result (λ outcome. Parses language (tokens_of tokens.now) outcome) }
{
    let mut cursor = Cursor::new(tokens);
    match items(alloc, language, &mut cursor, tokens.len() + 1) {
        Ok(items) => Ok(Outcome::Whole(Tree { items })),
        Err(Halt::Wrong) => match cursor.left() {
            0 => Ok(Outcome::TooShort),
            left => Ok(Outcome::WrongAt(tokens.len() - left)),
        },
        Err(Halt::Memory) => Err(OutOfMemory),
    }
}
