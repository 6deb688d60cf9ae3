//! The reasons of refusals, by their classes.

pub(crate) mod ends;
pub(crate) mod forms;
pub(crate) mod limits;
pub(crate) mod nets;
pub(crate) mod scenarios;
pub(crate) mod usage;
