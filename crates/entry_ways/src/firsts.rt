//! The numbers of the shared tokens on the channels of a graph.
ghost use Rattle.std.specs.Prelude.{◌≤◌, IfOk};
ghost use Rattle.sd_base.specs.declared.limits.TheConstants.{STAMPS};
ghost use Rattle.sd_base.specs.Scenarios.{shared_count};
ghost use Rattle.entry_ways.specs.inside.Firsts.{AreFirsts};

use sd_base::{GraphFile, NoMemory, Rows, SharedRow};
use std::alloc::Global;
use token_matrix::first_token;

/// By channel the number of its first shared token. Cost: the channels times the shared rows.
pub(crate) fn firsts_of(
    alloc: Global,
    graph: &GraphFile,
    shared: &[SharedRow],
) -> Result<Rows<u64>, NoMemory>
    requires { shared_count shared.now ≤ STAMPS }
    ensures { IfOk result (AreFirsts shared.now graph.now) }
{
    let mut firsts = Vec::with_capacity(alloc, graph.channels.len())?;
    for channel in graph.channels.as_slice() {
        firsts.push(first_token(shared, &channel.name))?;
    }
    Ok(Rows::from_vec(firsts))
}
