use firing::LoopTable;
use sd_base::Fraction;
use storage::Distribution;

/// A storage distribution with what it needs and what it gives: its storage, the rate of its bounded net in rounds per
/// time unit, and the loop of self-timed execution of that net.
#[derive(Debug, Drop)]
pub struct Point {
    pub total: u64,
    pub rate: Fraction,
    pub capacities: Distribution,
    pub table: LoopTable,
}
