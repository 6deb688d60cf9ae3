//! Tests of engines, rounds, loops, schedules and need cycles on small nets. Engines are compared with the earliest schedule of
//! a net, moment by moment, straight from its definition; that slow program isn't proved to be anything but safe. The crate has
//! no calls of its own.
#![tactic(auto)]

#[cfg(test)]
mod checks;
#[cfg(test)]
mod compare_tests;
#[cfg(test)]
mod completion_tests;
#[cfg(test)]
mod cycle_tests;
#[cfg(test)]
mod engine_tests;
#[cfg(test)]
mod kept_tests;
#[cfg(test)]
mod lasso_tests;
#[cfg(test)]
mod loop_tests;
#[cfg(test)]
mod phase_net;
#[cfg(test)]
mod phase_tests;
#[cfg(test)]
mod run;
#[cfg(test)]
mod schedule_tests;
#[cfg(test)]
mod sums;
