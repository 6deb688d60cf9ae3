//! The steps of a walk through a tree, for readers of other files.

pub use crate::elements::{elements_in, one, required, split_named};
pub use crate::error::{copied, dead_end, missing, shared_differ, twice, unknown};
pub use crate::names::new_name;
pub use crate::numbers::within;
pub use crate::register::{Named, Register};
pub use crate::table::{graph_in, test_root};
