use sd_base::Rows;

/// The loop of self-timed execution. It enters the loop at the moment `entry` and first repeats that shape
/// `period` time units later, `rounds` rounds on. By actor, `before` has how many firings have
/// started when the entry's starts are done, and `starts` the starts after it up to and with the repeat.
#[derive(Debug, Drop)]
pub struct LoopTable {
    pub entry: u64,
    pub period: u64,
    pub rounds: u64,
    pub before: Rows<u64>,
    pub starts: Rows<Rows<u64>>,
}
