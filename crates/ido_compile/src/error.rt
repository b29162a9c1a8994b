//! Why a text isn't compiled.
ghost use Rattle.std.specs.Prelude.{◌≡◌};
ghost use Rattle.ido_compile.specs.links.FrontEndAnswers.{refused};

use c_inline::inline::InlineError;
use c_ranges::RangeError;
use c_tree::refusal::{Refusal, SourceError};
use c_tree::rule::Rule;
use ido_base::memory::OutOfMemory;
use ido_base::place::Place;
use std::alloc::AllocError;
use thiserror::Error;

/// Why a text isn't compiled.
#[derive(Clone, Copy, Debug, PartialEq, Eq, Drop, Error)]
pub enum CompileError {
    /// The text breaks a rule.
    #[error("a rule is broken: {rule:?}", rule = .0.rule)]
    Refused(Refusal),
    /// An allocation was refused.
    #[error("out of memory")]
    Memory,
}

/// The text breaks the rule at the place.
fn refused(rule: Rule, place: Place) -> CompileError
    ensures { result ≡ refused rule place }
{
    CompileError::Refused(Refusal { rule, place })
}

impl From<SourceError> for CompileError {
    ghost use Rattle.ido_compile.specs.links.FrontEndAnswers.{of_source};

    ghost from_gives = { λ x e. e ≡ of_source x };

    fn from(error: SourceError) -> Self {
        match error {
            SourceError::Refused(refusal) => CompileError::Refused(refusal),
            SourceError::Memory => CompileError::Memory,
        }
    }
}

impl From<RangeError> for CompileError {
    ghost use Rattle.ido_compile.specs.links.FrontEndAnswers.{of_range};

    ghost from_gives = { λ x e. e ≡ of_range x };

    fn from(error: RangeError) -> Self {
        match error {
            RangeError::Index(error) => refused(Rule::Index, error.place),
            RangeError::Null { place } => refused(Rule::Null, place),
            RangeError::Memory => CompileError::Memory,
        }
    }
}

impl From<InlineError> for CompileError {
    ghost use Rattle.ido_compile.specs.links.FrontEndAnswers.{of_inline};

    ghost from_gives = { λ x e. e ≡ of_inline x };

    fn from(error: InlineError) -> Self {
        match error {
            InlineError::Recursion { place } => refused(Rule::Recursion, place),
            InlineError::Code { place } => refused(Rule::Code, place),
            InlineError::Memory => CompileError::Memory,
        }
    }
}

impl From<OutOfMemory> for CompileError {
    ghost use Rattle.ido_compile.specs.declared.error.CompileError.TheVariants as answers;

    ghost from_gives = { λ _ e. e ≡ answers.Memory };

    fn from(_: OutOfMemory) -> Self {
        CompileError::Memory
    }
}

impl From<AllocError> for CompileError {
    ghost use Rattle.ido_compile.specs.declared.error.CompileError.TheVariants as answers;

    ghost from_gives = { λ _ e. e ≡ answers.Memory };

    fn from(_: AllocError) -> Self {
        CompileError::Memory
    }
}
