//! What each command does with what its steps pass on.

pub(crate) mod bounded_course;
pub(crate) mod bounded_graph;
pub(crate) mod check;
pub(crate) mod conversion;
pub(crate) mod expansion;
pub(crate) mod generation;
pub(crate) mod in_order;
pub(crate) mod least_time;
pub(crate) mod parallel;
pub(crate) mod points;
pub(crate) mod rates;
pub(crate) mod repetition;
pub(crate) mod scenario_points;
pub(crate) mod searches;
pub(crate) mod shown_points;
pub(crate) mod trade_off;
pub(crate) mod wanted;
pub(crate) mod worst_rate;
