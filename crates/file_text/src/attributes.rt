//! The attributes of a tag.
//!
//! Up to 64 attributes a tag has no set of names, and a new name is compared with each; above that they stand in a set too.
//! Most tags have fewer, and a file can't make the reader slow by a tag of many.
ghost use Rattle.std.specs.Prelude.{◌≡◌, ◌==◌, ◌<◌, ◌≤◌, ℕ, true, if◌then◌else◌, List, [], ◌∷◌, ◌++◌, length, IfOk, OnOk};
ghost use Rattle.std.specs.String.{string_bytes};
ghost use Rattle.std.specs.Str.{bytes_eq};
ghost use Rattle.std.specs.BTreeSet.{contains_text};
ghost use Rattle.file_text.specs.inside.AttributeNames.{has_name, AreNamesOf, AreNamesWith};

use crate::characters::is_same;
use crate::{Attribute, AttributeList};
use sd_base::Text;
use std::alloc::{AllocError, Global};
use std::collections::BTreeSet;
use std::marker::Model;
use std::mem;

/// Among so many attributes a name is looked for one by one.
const FEW: usize = 64;

/// The attributes of a tag so far. Where they are more than a few their names stand beside them, so that a name is
/// looked for at the cost of the logarithm of their count.
pub(crate) struct Attributes {
    rows: AttributeList,
    names: BTreeSet<String>,
}

// By hand, so that what drops one calls this, and does not drop each of its parts.
impl Drop for Attributes {
    fn drop(self) {
        let Attributes {
            rows: _rows,
            names: _names,
        } = self;
    }
}

impl Model for Attributes {
    ghost use Rattle.std.specs.Prelude.{◌<◌, List, length};
    ghost use Rattle.std.specs.BTreeSet.{contains_text};
    ghost use Rattle.file_text.specs.declared.attributes.TheConstants.{FEW};
    ghost use Rattle.file_text.specs.declared.tree.Attribute.{Attribute};
    ghost use Rattle.file_text.specs.inside.AttributeNames.{AreNamesOf};

    ghost Value = { List Attribute };

    ghost view = { λ a. a.rows };

    ghost invariant = { λ a. FEW < length a.rows → AreNamesOf (contains_text a.names) a.rows };
}

impl Attributes {
    pub(crate) fn new(alloc: Global) -> Attributes
        ensures { result ≡ [] }
    {
        Attributes {
            rows: AttributeList::new(),
            names: BTreeSet::new(alloc),
        }
    }

    pub(crate) fn is_empty(&self) -> bool
        ensures { result ≡ (length self.now == 0) }
    {
        self.rows.as_slice().is_empty()
    }

    pub(crate) fn has(&self, name: &str) -> bool
        ensures { result ≡ has_name name.now self.now }
    {
        if self.rows.as_slice().len() <= FEW {
            stands_among(self.rows.as_slice(), name)
        } else {
            self.names.contains(name)
        }
    }

    /// Adds one more attribute.
    #[inline(always)]
    pub(crate) fn add(&mut self, alloc: Global, name: &str, value: &str) -> Result<(), AllocError>
        ensures { OnOk result (self.new ≡ self.old ++ record { name = name.now; value = value.now } ∷ []) }
    {
        if self.rows.as_slice().len() >= FEW {
            return self.add_to_many(alloc, name, value);
        }
        self.rows.push(
            alloc,
            Attribute {
                name: Text::of(alloc, name)?,
                value: Text::of(alloc, value)?,
            },
        )
    }

    /// The same where there will be more than a few.
    fn add_to_many(&mut self, alloc: Global, name: &str, value: &str) -> Result<(), AllocError>
        ensures { OnOk result (self.new ≡ self.old ++ record { name = name.now; value = value.now } ∷ []) }
    {
        let attributes = mem::replace(self, Attributes::new(alloc));
        *self = attributes.with(alloc, name, value)?;
        Ok(())
    }

    /// The attributes and one more.
    fn with(self, alloc: Global, name: &str, value: &str) -> Result<Attributes, AllocError>
        ensures { IfOk result (λ r. r ≡ self ++ record { name = name.now; value = value.now } ∷ []) }
    {
        let Attributes { mut rows, names } = self;
        let names = names_with(alloc, names, rows.as_slice(), name)?;
        rows.push(
            alloc,
            Attribute {
                name: Text::of(alloc, name)?,
                value: Text::of(alloc, value)?,
            },
        )?;
        Ok(Attributes { rows, names })
    }

    pub(crate) fn into_list(self) -> AttributeList
        ensures { result ≡ self }
    {
        let Attributes {
            rows,
            names: _names,
        } = self;
        rows
    }
}

fn stands_among(attributes: &[Attribute], name: &str) -> bool
    ensures { result ≡ has_name name.now attributes.now }
{
    attributes.iter().any(|attribute| is_same(attribute.name.as_str().as_bytes(), name.as_bytes()))
}

/// The names of attributes and one more name, once they are more than a few.
fn names_with(
    alloc: Global,
    names: BTreeSet<String>,
    attributes: &[Attribute],
    name: &str,
) -> Result<BTreeSet<String>, AllocError>
    requires { FEW < length attributes.now → AreNamesOf (contains_text names) attributes.now }
    ensures { IfOk result (λ more. FEW ≤ length attributes.now → AreNamesWith (contains_text more) name.now attributes.now) }
{
    if attributes.len() < FEW {
        return Ok(names);
    }
    let names = names_of(alloc, names, attributes)?;
    with_name(names, String::from_str(alloc, name)?)
}

/// The names of attributes that are more than a few, or just become so.
fn names_of(
    alloc: Global,
    names: BTreeSet<String>,
    attributes: &[Attribute],
) -> Result<BTreeSet<String>, AllocError>
    requires some { FEW ≤ length attributes.now }
    requires known { FEW < length attributes.now → AreNamesOf (contains_text names) attributes.now }
    ensures { IfOk result (λ all. AreNamesOf (contains_text all) attributes.now) }
{
    if attributes.len() == FEW {
        collected(alloc, attributes)
    } else {
        Ok(names)
    }
}

fn collected(alloc: Global, attributes: &[Attribute]) -> Result<BTreeSet<String>, AllocError>
    ensures { IfOk result (λ all. AreNamesOf (contains_text all) attributes.now) }
{
    let mut names = BTreeSet::new(alloc);
    for attribute in attributes {
        let name = String::from_str(alloc, attribute.name.as_str())?;
        names = with_name(names, name)?;
    }
    Ok(names)
}

fn with_name(mut names: BTreeSet<String>, name: String) -> Result<BTreeSet<String>, AllocError>
    ensures { IfOk result (λ more. (q : List ℕ) → contains_text more q ≡ if bytes_eq (string_bytes name) q then true else contains_text names q) }
{
    names.insert(name)?;
    Ok(names)
}
