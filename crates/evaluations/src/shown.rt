use critical::NeedCycle;
use sd_base::Rows;

/// What shows that more room elsewhere doesn't raise the rate of a distribution.
#[derive(Drop)]
pub enum Shown {
    /// A critical need cycle of the bounded net. It shows the channels whose free space is on it.
    Cycle(NeedCycle),
    /// By actor the firings after which none of the blocked net can go on. They show the channels whose free space holds
    /// up an actor that lacks no token.
    Blocked { counts: Rows<u64> },
}
