//! Runs the calls of `sd_base` on numbers, counters and texts whose values are worked out by hand. It has no calls of its own.
#![tactic(auto)]

#[cfg(test)]
mod counter_tests;
#[cfg(test)]
mod number_tests;
#[cfg(test)]
mod text_tests;
