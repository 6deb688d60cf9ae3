//! Runs `scenario_points` on small files of scenarios, whose points are worked out by a plain program from the definitions or by hand,
//! and shows that a level's distributions run beside each other. It has no calls of its own.
#![tactic(auto)]

#[cfg(test)]
mod boundable;
#[cfg(test)]
mod gate_tests;
#[cfg(test)]
mod outline;
#[cfg(test)]
mod point_tests;
