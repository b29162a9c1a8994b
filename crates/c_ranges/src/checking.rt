//! The check of a program's indexes and references.
ghost use Rattle.std.specs.Prelude.{◌≡◌, [], MatchResult};
ghost use Rattle.c_tree.specs.NullReferences.{program_nulls};
ghost use Rattle.c_tree.specs.Programs.{program_of};
ghost use Rattle.c_tree.specs.Ranges.{AllFit};
ghost use Rattle.c_ranges.specs.Faults.{IsFaultOf};
ghost use Rattle.c_ranges.specs.links.FirstNull.{IsLeastOf, lesser_place, told};

use crate::indexes::{IndexError, first_unfit};
use crate::nulls::null_places;
use c_tree::program::Program;
use ido_base::place::Place;
use std::alloc::{AllocError, Global};
use thiserror::Error;

/// Why the indexes and references of a program aren't right.
#[derive(Clone, Copy, PartialEq, Eq, Debug, Drop, Error)]
pub enum RangeError {
    /// An index may lie outside its array.
    #[error("{0}")]
    Index(IndexError),
    /// A reference may be null where its element is named. The place is that of `*`.
    #[error("a reference may be null")]
    Null { place: Place },
    /// An allocation was refused.
    #[error("out of memory")]
    Memory,
}

impl From<AllocError> for RangeError {
    ghost use Rattle.c_ranges.specs.declared.checking.RangeError.TheVariants.{Memory};

    ghost from_gives = { λ _ e. e ≡ Memory };

    fn from(_: AllocError) -> Self {
        RangeError::Memory
    }
}

/// Whether each index of the program names an element of its array, whatever its value is, and no reference is null where its element is
/// named; else the first by place that may not be so.
pub fn check(alloc: Global, program: &Program) -> Result<(), RangeError>
    ensures { MatchResult result (λ _. AllFit (program_of program.now) × (program_nulls (program_of program.now) ≡ []))
        (λ e. IsFaultOf (program_of program.now) e) }
{
    let unfit = first_unfit(program);
    let places = null_places(alloc, program)?;
    let null = least_of(&places);
    match told(unfit, null) {
        None => Ok(()),
        Some(error) => Err(error),
    }
}

/// The lesser of two places.
fn lesser_place(first: Option<Place>, second: Place) -> Option<Place>
    ensures { result ≡ lesser_place first second }
{
    match first {
        None => Some(second),
        Some(place) => {
            if place.0 <= second.0 {
                Some(place)
            } else {
                Some(second)
            }
        }
    }
}

/// The least of some places, if there is one.
fn least_of(places: &[Place]) -> Option<Place>
    ensures { IsLeastOf places.now result }
{
    let mut least = None;
    for place in places {
        least = lesser_place(least, *place);
    }
    least
}

/// The one of the lesser place, or the index where the places are one.
fn told(unfit: Option<IndexError>, null: Option<Place>) -> Option<RangeError>
    ensures { result ≡ told unfit null }
{
    match (unfit, null) {
        (None, None) => None,
        (None, Some(place)) => Some(RangeError::Null { place }),
        (Some(error), None) => Some(RangeError::Index(error)),
        (Some(error), Some(place)) => {
            if error.place.0 <= place.0 {
                Some(RangeError::Index(error))
            } else {
                Some(RangeError::Null { place })
            }
        }
    }
}
