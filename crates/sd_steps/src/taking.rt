ghost use Rattle.std.specs.Prelude.{◌≡◌, ◌≤◌};
ghost use Rattle.sd_steps.specs.Takings.{taking};
ghost use Rattle.sd_steps.specs.Steps.{Takes};

use crate::file_kind::FileKind;
use crate::reading::above;
use crate::stop::Stop;
use sd_base::Rows;
use sd_io::{Shelf, TakeError};
use std::alloc::Global;

/// Takes a file.
pub fn take<S: Shelf>(
    alloc: Global,
    shelf: &mut S,
    kind: FileKind,
    name: &str,
) -> Result<Rows<u8>, Stop>
    ensures takes { Takes (taking (S.files shelf.old) kind name.now) result (S.faults shelf.old) (S.faults shelf.new) }
    ensures stays { S.files shelf.new ≡ S.files shelf.old }
    ensures grows { S.faults shelf.old ≤ S.faults shelf.new }
{
    match shelf.take(alloc, name, kind.bytes().greatest() as usize) {
        Ok(bytes) => Ok(bytes),
        Err(TakeError::Failed) => Err(Stop::Refused(kind.refusal())),
        Err(TakeError::TooLong) => Err(Stop::Refused(above(alloc, kind.bytes())?)),
        Err(TakeError::NoMemory) => Err(Stop::OutOfMemory),
    }
}
