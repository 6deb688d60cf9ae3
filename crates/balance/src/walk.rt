use sd_base::{ChannelRow, GraphFile};
use std::alloc::{AllocError, Global};

/// A step of a walk over a channel, from its source to its target where it goes forward, else from its
/// target to its source.
#[derive(Clone, Copy, Debug, PartialEq, Eq)]
pub struct WalkStep {
    /// The number of the channel.
    pub channel: u32,
    pub forward: bool,
}

/// A channel by its ends, with the tokens that a whole cycle of its source's phases makes and a whole
/// cycle of its target's phases takes.
#[derive(Clone, Copy)]
pub struct Link {
    /// The number of the source.
    pub source: usize,
    /// The number of the target.
    pub target: usize,
    pub made: u64,
    pub taken: u64,
}

ghost use Rattle.std.specs.Prelude.{◌≡◌, ◌^◌, ◌<◌, sum, IfOk};
ghost use Rattle.sd_base.specs.Tables.{KeepsRules};
ghost use Rattle.balance.specs.Walks.{link_of, links_of};

/// The channels of a graph, in file order.
pub(crate) fn links(alloc: Global, graph: &GraphFile) -> Result<Vec<Link>, AllocError>
    requires { KeepsRules graph.now }
    ensures { IfOk result (λ ls. ls.items ≡ links_of graph.now) }
{
    let mut links = Vec::new(alloc);
    for channel in graph.channels.as_slice() {
        links.push(summed(channel))?;
    }
    Ok(links)
}

/// The sums are at most 4,096 times 1,000,000, so that they are below 2^64.
fn summed(channel: &ChannelRow) -> Link
    requires made { sum channel.now.made < 2 ^ 64 }
    requires taken { sum channel.now.taken < 2 ^ 64 }
    ensures { result ≡ link_of channel.now }
{
    Link {
        source: channel.source as usize,
        target: channel.target as usize,
        made: channel.made.as_slice().iter().sum(),
        taken: channel.taken.as_slice().iter().sum(),
    }
}
