//! The command `list`: the listing of an object.
ghost use Rattle.std.specs.Prelude.{◌≡◌, ◌≤◌, length, IfOk};
ghost use Rattle.ido_base.specs.declared.limits.TheConstants.{MOST_INPUT_BYTES};
ghost use Rattle.ido_cli.specs.Answers.{ListAnswer};

use crate::refusal::{VERSION_PLACE, refused_at_byte};
use crate::said::Said;
use file_fields::error::ReadError;
use ido_base::memory::OutOfMemory;
use ido_base::place::Place;
use object_format::reading::read_object;
use object_listing::listing::listing;
use std::alloc::Global;

/// The answer to an input of `list`.
pub fn list_answer(alloc: Global, input: &[u8]) -> Result<Said, OutOfMemory>
    requires { length input.now ≤ MOST_INPUT_BYTES }
    ensures { IfOk result (λ said. ListAnswer input.now said.status said.output.items) }
{
    match read_object(alloc, input) {
        Ok(object) => {
            let output = listing(alloc, &object)?;
            Ok(Said { status: 0, output })
        }
        Err(ReadError::Magic) => refused_at_byte(alloc, "O1", Place(0)),
        Err(ReadError::Version) => refused_at_byte(alloc, "O2", VERSION_PLACE),
        Err(ReadError::Cut(place)) => refused_at_byte(alloc, "O3", place),
        Err(ReadError::Field(place)) => refused_at_byte(alloc, "O4", place),
        Err(ReadError::Rest(place)) => refused_at_byte(alloc, "O5", place),
        Err(ReadError::Memory) => Err(OutOfMemory),
    }
}
