//! Runs the search of `covers` on small lattices: what it asks for is worked out by hand, or by a loop over all of the lattice. It
//! has no calls of its own.
#![tactic(auto)]

#[cfg(test)]
mod asked_tests;
#[cfg(test)]
mod bounds;
#[cfg(test)]
mod plain;
#[cfg(test)]
mod texts;
#[cfg(test)]
mod whole_tests;
