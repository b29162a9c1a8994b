//! The reader.
ghost use Rattle.std.specs.Prelude.{◌≡◌, ◌+◌, ◌<◌, ◌≤◌, length, take, IfOk, IfErr, List, ℕ, IfSome, option_map};
ghost use Rattle.ido_base.specs.declared.limits.TheConstants.{MOST_SOURCE_BYTES, MOST_NESTING};
ghost use Rattle.c_tree.specs.TextReadings.{IsRead, IsRefused};
ghost use Rattle.c_tree.specs.Refusals.{fault_of, fault_in};
ghost use Rattle.c_tree.specs.LexicalScan.{scanned};
ghost use Rattle.c_tree.specs.Views.{items_of};
ghost use Rattle.c_reader.specs.Depths.{IsShallow};
ghost use Rattle.c_reader.specs.links.Prefixes.{scanned_of};
ghost use Rattle.c_reader.specs.links.ParserOutcomes.{after_of, reach, IsFirstHigh, IsParsed};

use crate::nesting::first_high;
use crate::parser::{Outcome, parse};
use crate::scanner::{Scanned, scan};
use crate::token::Token;
use c_tree::language::Language;
use c_tree::refusal::{Refusal, SourceError};
use c_tree::rule::Rule;
use c_tree::tree::Tree;
use ido_base::place::Place;
use std::alloc::Global;

/// The tokens up to the first that nests too high, and with it.
fn looked_at<'a, 'b>(tokens: &'b [Token<'a>], high: Option<usize>) -> &'b [Token<'a>]
    requires { IfSome high (λ i. i < length tokens.now) }
    ensures { result.now ≡ take (reach high (length tokens.now)) tokens.entry.now }
{
    match high {
        Some(index) => &tokens[..index + 1],
        None => tokens,
    }
}

/// What is refused after these tokens: the last of them, or what stands where no token begins.
fn after(found: &Scanned<'_>, high: Option<usize>) -> Option<Refusal>
    requires { IfSome high (λ i. i < length found.now.tokens.items) }
    ensures { after_of (scanned_of found.now) high ≡ option_map fault_of result }
{
    match high {
        Some(index) => Some(Refusal {
            rule: Rule::High,
            place: found.tokens[index].place,
        }),
        None => found.fault,
    }
}

/// The tree of a text, or the first rule that it breaks, from its tokens and what they were parsed as.
fn judge(
    language: Language,
    end: u32,
    found: &Scanned<'_>,
    high: Option<usize>,
    outcome: Outcome,
) -> Result<Tree, SourceError>
    requires high { IsFirstHigh (scanned_of found.now).tokens high }
    requires within { IfSome high (λ i. i < length found.now.tokens.items) }
    requires parsed { IsParsed language (scanned_of found.now) high outcome }
    ensures read { IfOk result (λ tree. (text : List ℕ) → scanned_of found.now ≡ scanned language text → IsRead language text (items_of tree)) }
    ensures refused { IfErr result (λ e. IfSome (fault_in e) (λ f. (text : List ℕ) → scanned_of found.now ≡ scanned language text → end ≡ length text
        → IsRefused language text f.rule f.place)) }
{
    match outcome {
        Outcome::WrongAt(index) => Err(SourceError::Refused(Refusal {
            rule: Rule::Syntax,
            place: found.tokens[index].place,
        })),
        Outcome::TooShort => match after(found, high) {
            Some(refusal) => Err(SourceError::Refused(refusal)),
            None => Err(SourceError::Refused(Refusal {
                rule: Rule::Syntax,
                place: Place(end),
            })),
        },
        Outcome::Whole(tree) => match after(found, high) {
            Some(refusal) => Err(SourceError::Refused(refusal)),
            None => Ok(tree),
        },
    }
}

/// Reads a source text in this language: its tree, or the first rule that it breaks and the place of that.
///
/// A byte that begins no token, a number that is none, a token that the tokens before it can't go on
/// with, and one that nests past 128: the first place decides, and at one place this order. A text
/// that ends too early is refused at its length. The blocks of a tree are at most 128 deep, and its
/// expressions at most 129 high.
pub fn read(alloc: Global, language: Language, text: &[u8]) -> Result<Tree, SourceError>
    requires { length text.now ≤ MOST_SOURCE_BYTES }
    ensures read { IfOk result (λ tree. IsRead language text.now (items_of tree)) }
    ensures shallow { IfOk result (λ tree. IsShallow MOST_NESTING (MOST_NESTING + 1) (items_of tree)) }
    ensures refused { IfErr result (λ e. IfSome (fault_in e) (λ f. IsRefused language text.now f.rule f.place)) }
{
    let found = scan(alloc, language, text)?;
    let high = first_high(&found.tokens);
    let outcome = parse(alloc, language, looked_at(&found.tokens, high))?;
    judge(language, text.len() as u32, &found, high, outcome)
}
