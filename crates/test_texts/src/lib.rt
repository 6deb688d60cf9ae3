//! Runs the calls that write graph files and print points on tables whose texts are written by hand. It has no calls of its
//! own.
#![tactic(auto)]

#[cfg(test)]
mod graph_tests;
#[cfg(test)]
mod point_tests;
#[cfg(test)]
mod scenario_point_tests;
