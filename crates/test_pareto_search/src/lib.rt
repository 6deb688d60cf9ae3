//! Runs the search of `pareto_search` on small nets: on a chain, whose points are worked out by hand, and on drawn nets, of which it
//! gives what `explore` gives. It has no calls of its own.
#![tactic(auto)]

#[cfg(test)]
mod chain_tests;
#[cfg(test)]
mod checks;
#[cfg(test)]
mod drawn;
#[cfg(test)]
mod drawn_tests;
#[cfg(test)]
mod draws;
#[cfg(test)]
mod nets;
#[cfg(test)]
mod noting;
#[cfg(test)]
mod searches;
#[cfg(test)]
mod wait_tests;
