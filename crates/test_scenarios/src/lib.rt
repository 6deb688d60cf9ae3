//! Runs the calls on matrices and timed graphs of scenarios on small ones, whose values are worked out by hand. It has no
//! calls of its own.
#![tactic(auto)]

#[cfg(test)]
mod certificate_tests;
#[cfg(test)]
mod graphs;
#[cfg(test)]
mod matrix_tests;
#[cfg(test)]
mod product_tests;
#[cfg(test)]
mod shared;
#[cfg(test)]
mod square_tests;
#[cfg(test)]
mod timed;
#[cfg(test)]
mod worst_tests;
