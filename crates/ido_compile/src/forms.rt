//! Laws of the flat forms of accepted texts: nothing is computed here.
ghost use Rattle.ido_compile.specs.FormLaws.{AcceptedIndexes, AcceptedReferences, AcceptedRuns, AcceptedValues};
ghost use Rattle.ido_compile.specs.FormLaws.{FlattenedIsFormed, FlattenedIsPlain};

use c_inline::laws::{flat_is_formed, flat_is_plain};
use c_ranges::laws::{indexes_stay_in_range, references_hold, values_keep_to_their_kinds};
use c_typer::laws::{typed_is_formed, typed_is_plain};

/// The flat form of a text that breaks no rule of names, kinds, indexes, references and calls is well formed.
pub fn flattened_is_formed()
    ensures { FlattenedIsFormed }
{
    typed_is_formed();
    flat_is_formed();
}

/// In the flat form of a text of the plain language no mutex is in an array.
pub fn flattened_is_plain()
    ensures { FlattenedIsPlain }
{
    typed_is_plain();
    flat_is_plain();
}

/// In all lives of a text that is accepted for a log, however many there are and by whatever schedules, values keep to their kinds, each value that a step
/// evaluates lies in its range, no index is out of range, and no reference that is followed is null or leads out of its array: so no step meets one for
/// which the source's definitions have a value only to be total.
pub fn accepted_runs_are_safe()
    ensures runs { AcceptedRuns }
    ensures values { AcceptedValues }
    ensures indexes { AcceptedIndexes }
    ensures references { AcceptedReferences }
{
    flattened_is_formed();
    values_keep_to_their_kinds();
    indexes_stay_in_range();
    references_hold();
}
