//! The tree of elements that a text spells.
//!
//! Children of an element are a plain vector, since a type that leads back to itself can't go through the small list type.
use crate::AttributeList;
use sd_base::Text;

/// What a text spells: its one outermost element.
#[derive(Drop)]
pub struct Tree {
    pub root: Element,
}

/// An element, with the elements that stand in it, in document order. Characters between them are passed
/// over.
#[derive(Drop)]
pub struct Element {
    pub name: Text,
    pub attributes: AttributeList,
    pub children: Vec<Element>,
}

/// An attribute, with each entity in its value read as its character.
pub struct Attribute {
    pub name: Text,
    pub value: Text,
}

// By hand, so that what drops one calls this, and does not drop each of its parts.
impl Drop for Attribute {
    fn drop(self) {
        let Attribute {
            name: _name,
            value: _value,
        } = self;
    }
}
