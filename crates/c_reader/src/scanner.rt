//! The tokens of a text.
ghost use Rattle.std.specs.Prelude.{◌≡◌, ◌<◌, ◌≤◌, ◌^◌, length, drop, IfOk};
ghost use Rattle.c_tree.specs.LexicalScan.{in_language, plain_scanned, scanned};
ghost use Rattle.c_reader.specs.links.Prefixes.{scanned_of};

use crate::full::full_tokens;
use crate::prefix::{Prefix, read_prefix};
use crate::token::Token;
use c_tree::language::Language;
use c_tree::refusal::Refusal;
use ido_base::place::Place;
use std::alloc::{AllocError, Global};

/// The tokens of a text up to its end, or up to the first place where none begins.
#[derive(Drop)]
pub struct Scanned<'a> {
    pub tokens: Vec<Token<'a>>,
    /// What is broken where no token begins.
    pub fault: Option<Refusal>,
}

/// What stands after so many bytes.
fn after<'a>(text: &'a [u8], bytes: usize) -> &'a [u8]
    requires { bytes ≤ length text.now }
    ensures { result.now ≡ drop bytes text.entry.now }
{
    let (_, rest) = text.split_at(bytes);
    rest
}

/// The tokens of a text, as the plain language has them.
fn scan_plain<'a>(alloc: Global, text: &'a [u8]) -> Result<Scanned<'a>, AllocError>
    requires { length text.now < 2 ^ 32 }
    ensures { IfOk result (λ s. scanned_of s ≡ plain_scanned text.entry.now) }
{
    let mut tokens = Vec::new(alloc);
    let mut rest = text;
    loop {
        let place = Place((text.len() - rest.len()) as u32);
        match read_prefix(rest) {
            Prefix::Blank(bytes) => rest = after(rest, bytes),
            Prefix::Lexed(lexeme, bytes) => {
                tokens.push(Token { place, lexeme })?;
                rest = after(rest, bytes);
            }
            Prefix::Broken(rule) => {
                let fault = Some(Refusal { rule, place });
                return Ok(Scanned { tokens, fault });
            }
            Prefix::End => {
                let fault = None;
                return Ok(Scanned { tokens, fault });
            }
        }
    }
}

/// The tokens of the plain language, as this one has them.
fn in_language<'a>(
    alloc: Global,
    language: Language,
    found: Scanned<'a>,
) -> Result<Scanned<'a>, AllocError>
    ensures { IfOk result (λ s. scanned_of s ≡ in_language language (scanned_of found.entry)) }
{
    match language {
        Language::Plain => Ok(found),
        Language::Full => {
            let tokens = full_tokens(alloc, &found.tokens)?;
            Ok(Scanned {
                tokens,
                fault: found.fault,
            })
        }
    }
}

/// The tokens of a text in this language.
#[tactic(auto, unfolding(c_tree::specs::LexicalScan::scanned))]
pub fn scan<'a>(
    alloc: Global,
    language: Language,
    text: &'a [u8],
) -> Result<Scanned<'a>, AllocError>
    requires { length text.now < 2 ^ 32 }
    ensures { IfOk result (λ s. scanned_of s ≡ scanned language text.entry.now) }
{
    let found = scan_plain(alloc, text)?;
    let made = in_language(alloc, language, found)?;
    Ok(made)
}
