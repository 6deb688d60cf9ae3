//! The channels of a graph's net, in order, as a net keeps them.

ghost use Rattle.std.specs.Prelude.{◌≡◌, ◌*◌, ◌≤◌, ◌++◌, ℕ, List, All, IfOk, OnOk, length, map, replicate};
ghost use Rattle.sd_base.specs.declared.limits.TheConstants.{CHANNELS, ACTORS};
ghost use Rattle.sd_base.specs.declared.tables.ActorRow.{ActorRow};
ghost use Rattle.sd_base.specs.declared.tables.ChannelRow.{ChannelRow};
ghost use Rattle.sd_base.specs.Net.{Channel, file_channel, file_channels};
ghost use Rattle.sd_base.specs.FileNet.{own_channel, own_channels_from};

use sd_base::{ChannelRow, GraphFile, NoMemory};
use std::alloc::Global;

/// A channel as a kind of nets keeps it. It can have the lists of rates that `Keeps` tells.
pub(crate) trait NetChannel {
    ghost plain: { Self → Channel };

    ghost Keeps: { List ℕ → Type 0 };

    /// A channel of the file, by its number.
    fn of_file(alloc: Global, number: u32, row: &ChannelRow) -> Result<Self, NoMemory>
        requires made { Keeps row.now.made }
        requires taken { Keeps row.now.taken }
        ensures { IfOk result (λ c. plain c ≡ file_channel number row.now) };

    /// The channel that keeps the firings of an actor from overlapping.
    fn own(alloc: Global, actor: u32, phases: u32) -> Result<Self, NoMemory>
        requires { Keeps (replicate phases 1) }
        ensures { IfOk result (λ c. plain c ≡ own_channel actor phases) };
}

/// The channels of the file, then own channels by actor. Each actor of several phases has one, and with
/// `no_overlap` each other actor without a self-loop in the file. Cost: linear in the product of actors and
/// channels, and in the rates.
pub(crate) fn net_channels<C: NetChannel + Drop>(
    alloc: Global,
    graph: &GraphFile,
    no_overlap: bool,
) -> Result<Vec<C>, NoMemory>
    requires made { All (λ (c : ChannelRow). C.Keeps c.made) graph.now.channels }
    requires taken { All (λ (c : ChannelRow). C.Keeps c.taken) graph.now.channels }
    requires own { All (λ (a : ActorRow). C.Keeps (replicate a.phases 1)) graph.now.actors }
    requires few_channels { length graph.now.channels ≤ 2 * CHANNELS }
    requires few_actors { length graph.now.actors ≤ ACTORS }
    ensures { IfOk result (λ v. map C.plain v.items ≡ file_channels graph.now ++ own_channels_from no_overlap graph.now.channels 0 graph.now.actors) }
{
    let mut channels = file_table(alloc, graph)?;
    push_own_channels(alloc, &mut channels, graph, no_overlap)?;
    Ok(channels)
}

/// The channels of the file, in its order.
fn file_table<C: NetChannel + Drop>(alloc: Global, graph: &GraphFile) -> Result<Vec<C>, NoMemory>
    requires made { All (λ (c : ChannelRow). C.Keeps c.made) graph.now.channels }
    requires taken { All (λ (c : ChannelRow). C.Keeps c.taken) graph.now.channels }
    requires few { length graph.now.channels ≤ 2 * CHANNELS }
    ensures { IfOk result (λ v. map C.plain v.items ≡ file_channels graph.now) }
{
    let mut table = Vec::new(alloc);
    for (i, row) in graph.channels.as_slice().iter().enumerate() {
        table.push(C::of_file(alloc, i as u32, row)?)?;
    }
    Ok(table)
}

/// Adds the own channels of the actors that have one.
fn push_own_channels<C: NetChannel + Drop>(
    alloc: Global,
    channels: &mut Vec<C>,
    graph: &GraphFile,
    no_overlap: bool,
) -> Result<(), NoMemory>
    requires own { All (λ (a : ActorRow). C.Keeps (replicate a.phases 1)) graph.now.actors }
    requires few { length graph.now.actors ≤ ACTORS }
    ensures { OnOk result (map C.plain channels.new.items ≡ map C.plain channels.old.items
        ++ own_channels_from no_overlap graph.now.channels 0 graph.now.actors) }
{
    for i in 0..graph.actors.len() {
        let phases = graph.actors.as_slice()[i].phases;
        if graph.gets_own_channel(i as u32, phases, no_overlap) {
            channels.push(C::own(alloc, i as u32, phases)?)?;
        }
    }
    Ok(())
}
