//! Runs the call of `circular_waits` on small blocked nets, of which each circular wait is seen at a glance. It has no calls of
//! its own.
#![tactic(auto)]

#[cfg(test)]
mod wait_tests;
