use crate::point::ScenarioLimits;
use sd_base::{Rows, ScenarioFile};
use std::alloc::Global;

/// What is searched: a file, by scenario its repetition vector, and the limits.
#[derive(Drop)]
pub(crate) struct Plan<'a> {
    pub(crate) alloc: Global,
    pub(crate) file: &'a ScenarioFile,
    pub(crate) gammas: &'a Rows<Rows<u64>>,
    pub(crate) limits: ScenarioLimits,
}
