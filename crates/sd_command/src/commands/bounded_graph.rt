use sd_base::GraphFile;
use storage::Distribution;

/// A graph with its repetition vector and the capacities of its channels.
#[derive(Drop)]
pub(crate) struct BoundedGraph<'a> {
    pub(crate) graph: &'a GraphFile,
    /// By actor its firings in a round.
    pub(crate) gamma: &'a [u64],
    pub(crate) distribution: &'a Distribution,
}
