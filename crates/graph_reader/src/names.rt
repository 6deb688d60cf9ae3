//! Names, which may stand once in a list.

ghost use Rattle.std.specs.Prelude.{◌≡◌, false, map, IfOk};
ghost use Rattle.file_text.specs.Node.{tree_of};
ghost use Rattle.graph_reader.specs.TreeSteps.{Gives};
ghost use Rattle.graph_reader.specs.Sections.{is_among, new_name, mention};

use crate::elements::required;
use crate::error::{missing, twice, unknown};
use crate::register::{Named, Register};
use crate::{Field, ReadError};
use file_text::Element;
use sd_base::Quantity;
use sd_base::limits::NAME_BYTES;
use std::alloc::Global;

/// The name of an element, which none of the earlier rows has.
#[tactic(auto, unfolding(crate::specs::Sections::new_name))]
pub fn new_name<'a, R: Named>(
    alloc: Global,
    of: &str,
    earlier: &Register<R>,
    element: &'a Element,
) -> Result<&'a str, ReadError>
    ensures gives { Gives (λ v. v.now) result (new_name of.now (map R.name_of earlier.now) (tree_of element.now)) }
    ensures new { IfOk result (λ v. is_among v.now (map R.name_of earlier.now) ≡ false) }
{
    let name = required(alloc, element, Field::Name, of)?;
    if name.len() == 0 {
        return Err(missing(alloc, Field::Name, of));
    }
    if NAME_BYTES < name.len() as u64 {
        return Err(ReadError::Limit {
            what: Quantity::NameBytes,
        });
    }
    if earlier.has(name) {
        return Err(twice(alloc, Field::Name, name));
    }
    Ok(name)
}

/// The name of the row of which an element speaks, and of which no earlier element speaks.
#[tactic(auto, unfolding(crate::specs::Sections::mention))]
pub(crate) fn mention<'a, R: Named, E: Named>(
    alloc: Global,
    what: Field,
    of: &str,
    rows: &Register<R>,
    earlier: &Register<E>,
    element: &'a Element,
) -> Result<&'a str, ReadError>
    ensures gives { let names = map R.name_of rows.now in
        Gives (λ v. v.now) result (mention what of.now names (map E.name_of earlier.now) (tree_of element.now)) }
    ensures new { IfOk result (λ v. is_among v.now (map E.name_of earlier.now) ≡ false) }
{
    let name = required(alloc, element, what, of)?;
    if !rows.has(name) {
        return Err(unknown(alloc, what, name));
    }
    if earlier.has(name) {
        return Err(twice(alloc, what, name));
    }
    Ok(name)
}
