//! Runs the checker on certificates whose verdicts are worked out by hand. It has no calls of its own.
#![tactic(auto)]

#[cfg(test)]
mod limits;
#[cfg(test)]
mod rates;
#[cfg(test)]
mod texts;
#[cfg(test)]
mod trade_offs;
