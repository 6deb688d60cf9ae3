//! Elements and attributes by their names.

ghost use Rattle.std.specs.Prelude.{◌≡◌, ◌<◌, ◌∷◌, [], length, map, MatchOption, IfSome, Option, Some, None};
ghost use Rattle.std.specs.Option.{option_map};
ghost use Rattle.std.specs.Str.{bytes_eq};
ghost use Rattle.file_text.specs.Node.{tree_of, name_of, attributes_of, children_of};
ghost use Rattle.graph_reader.specs.TreeSteps.{Gives, named, first_value, children, first_child, attribute, required, at_most_one, one};

use crate::error::{missing, twice};
use crate::{Field, ReadError};
use file_text::{Attribute, Element};
use std::alloc::Global;

/// Whether the element has this name.
pub(crate) fn is_named(element: &Element, word: &str) -> bool
    ensures { result ≡ bytes_eq (name_of (tree_of element.now)) word.now }
{
    element.name.as_str() == word
}

/// The elements in an element.
pub fn elements_in(element: &Element) -> &[Element]
    ensures { map tree_of result.now ≡ children_of (tree_of element.now) }
{
    element.children.as_slice()
}

/// The first element so named, and the elements after it.
pub fn split_named<'a>(elements: &'a [Element], word: &str) -> Option<(&'a Element, &'a [Element])>
    ensures found { let left = named word.now (map tree_of elements.now) in
        MatchOption result (left ≡ []) (λ r. left ≡ tree_of r.0.now ∷ named word.now (map tree_of r.1.now)) }
    ensures shorter { IfSome result (λ r. length r.1.now < length elements.now) }
{
    let mut left = elements;
    while let [first, rest @ ..] = left {
        if is_named(first, word) {
            return Some((first, rest));
        }
        left = rest;
    }
    None
}

/// The first element in an element that is named so.
#[tactic(auto, unfolding(crate::specs::TreeSteps::first_child, crate::specs::TreeSteps::children))]
pub(crate) fn first_child<'a>(element: &'a Element, word: &str) -> Option<&'a Element>
    ensures { option_map (λ c. tree_of c.now) result ≡ first_child word.now (tree_of element.now) }
{
    match split_named(elements_in(element), word) {
        Some((child, _)) => Some(child),
        None => None,
    }
}

fn value_named<'a>(attributes: &'a [Attribute], word: &str) -> Option<&'a str>
    ensures { option_map (λ v. v.now) result ≡ first_value word.now attributes.now }
{
    let mut left = attributes;
    while let [first, rest @ ..] = left {
        if first.name.as_str() == word {
            return Some(first.value.as_str());
        }
        left = rest;
    }
    None
}

/// The value of an attribute.
#[tactic(auto, unfolding(crate::specs::TreeSteps::attribute))]
pub fn attribute<'a>(element: &'a Element, word: &str) -> Option<&'a str>
    ensures { option_map (λ v. v.now) result ≡ attribute word.now (tree_of element.now) }
{
    value_named(element.attributes.as_slice(), word)
}

/// The value of an attribute that has to be there.
#[tactic(auto, unfolding(crate::specs::TreeSteps::required))]
pub fn required<'a>(
    alloc: Global,
    element: &'a Element,
    what: Field,
    of: &str,
) -> Result<&'a str, ReadError>
    ensures { Gives (λ v. v.now) result (required what of.now (tree_of element.now)) }
{
    match attribute(element, what.word()) {
        Some(value) => Ok(value),
        None => Err(missing(alloc, what, of)),
    }
}

/// The element in an element that may stand once.
#[tactic(auto, unfolding(crate::specs::TreeSteps::at_most_one, crate::specs::TreeSteps::children))]
pub(crate) fn at_most_one<'a>(
    alloc: Global,
    element: &'a Element,
    what: Field,
) -> Result<Option<&'a Element>, ReadError>
    ensures { Gives (λ o. option_map (λ c. tree_of c.now) o) result (at_most_one what (tree_of element.now)) }
{
    match split_named(elements_in(element), what.word()) {
        None => Ok(None),
        Some((child, rest)) => match split_named(rest, what.word()) {
            None => Ok(Some(child)),
            Some(_) => Err(twice(alloc, what, what.word())),
        },
    }
}

/// The element in an element that stands once.
#[tactic(auto, unfolding(crate::specs::TreeSteps::one))]
pub fn one<'a>(
    alloc: Global,
    element: &'a Element,
    what: Field,
    of: &str,
) -> Result<&'a Element, ReadError>
    ensures { Gives (λ c. tree_of c.now) result (one what of.now (tree_of element.now)) }
{
    match at_most_one(alloc, element, what)? {
        Some(child) => Ok(child),
        None => Err(missing(alloc, what, of)),
    }
}
