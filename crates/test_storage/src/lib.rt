//! Runs the calls of `storage` and `pareto_front`, and `storage_channels` of `critical`, on small nets, whose values are worked
//! out by hand. It has no calls of its own.
#![tactic(auto)]

#[cfg(test)]
mod bounded_tests;
#[cfg(test)]
mod checks;
#[cfg(test)]
mod cycle_tests;
#[cfg(test)]
mod distribution_tests;
#[cfg(test)]
mod front_tests;
#[cfg(test)]
mod nets;
