//! The answer to what the worst rate is.
use sd_base::{Fraction, Rows};

/// The worst rate of a timed graph, and what shows it.
#[derive(Debug, Drop)]
pub struct Worst {
    /// Rounds per time unit, in lowest terms.
    pub rate: Fraction,
    /// A critical cycle by the numbers of its edges, in order: along tight edges through the least node that any
    /// such cycle has, with the fewest edges, and then with the least list of nodes.
    pub cycle: Rows<u32>,
    /// By node the least potential that fits the rate, in time units times the rate's rounds; there where a walk from
    /// a node of the initial state leads.
    pub potentials: Rows<Option<i128>>,
}
