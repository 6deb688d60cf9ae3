//! Runs the calls of `explore` and of `guide` on small nets, whose values are worked out by hand, and shows that a level's
//! distributions run beside each other, also in the top call. It has no calls of its own.
#![tactic(auto)]

#[cfg(test)]
mod checks;
#[cfg(test)]
mod command_tests;
#[cfg(test)]
mod evaluable;
#[cfg(test)]
mod explore_tests;
#[cfg(test)]
mod guide_tests;
#[cfg(test)]
mod meeting_tests;
#[cfg(test)]
mod nets;
#[cfg(test)]
mod watched;
