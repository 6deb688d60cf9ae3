//! Graph-file text to a tree of elements: the tree that the bytes spell, or the fault that a reader
//! going from the left recognises first.
#![tactic(auto)]

mod attributes;
mod characters;
mod class;
mod due;
mod end_tags;
mod error;
mod laws;
mod list;
mod mode;
mod read;
mod reference;
mod runs;
mod scanner;
mod starts;
mod tags;
mod taken;
mod texts;
mod tree;
mod whole_tags;

pub use error::{Construct, TextError};
pub use laws::answers_are_one;
pub use list::AttributeList;
pub use read::read_tree;
pub use tree::{Attribute, Element, Tree};
