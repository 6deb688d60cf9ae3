//! Storage distributions as vectors of a lattice.
ghost use Rattle.std.specs.Prelude.{◌≡◌, ◌<◌, IfOk, length};
ghost use Rattle.sd_base.specs.Net.{channel_at};
ghost use Rattle.storage.specs.Steps.{IsCorner};
ghost use Rattle.pareto_search.specs.inside.Vectors.{AreAxesOf, IsAxisOf, bounded_by, vector_of, with_room};

use covers::{Axis, Lattice};
use firing::{Firing, know_laws};
use sd_base::{NoMemory, Rows};
use std::alloc::Global;
use storage::{Distribution, step};

/// The lattice of the vectors of distributions that are at least the corner and whole steps above it, within a limit. Cost:
/// that of `step` for each channel.
pub(crate) fn lattice_of<F: Firing>(
    alloc: Global,
    net: &F,
    corner: &Distribution,
    limit: u64,
) -> Result<Lattice, NoMemory>
    requires { IsCorner (F.net net.now).channels corner.now.capacities }
    ensures axes { IfOk result (λ l. AreAxesOf (F.net net.now).channels corner.now.capacities l.axes) }
    ensures limit { IfOk result (λ l. l.limit ≡ limit) }
{
    know_laws(net);
    let mut axes = Rows::new(alloc);
    for channel in 0..corner.capacities.len() {
        let axis = axis_of(net, channel as u32, corner.capacities.as_slice()[channel]);
        axes.push(axis)?;
    }
    Ok(Lattice { axes, limit })
}

/// The axis of a channel with this entry in the corner.
fn axis_of<F: Firing>(net: &F, channel: u32, entry: Option<u64>) -> Axis
    requires { channel < length (F.net net.now).channels }
    ensures { IsAxisOf (channel_at (F.net net.now) channel) entry result }
{
    know_laws(net);
    match entry {
        Some(room) => Axis {
            corner: room,
            step: step(net, channel),
            size: net.size(channel),
        },
        None => Axis {
            corner: 0,
            step: 1,
            size: 1,
        },
    }
}

/// The distribution that bounds what the corner does, by the vector's capacities. Cost: linear in the channels.
pub(crate) fn distribution_of(
    alloc: Global,
    corner: &Distribution,
    vector: &[u64],
) -> Result<Distribution, NoMemory>
    ensures { IfOk result (λ d. d.capacities ≡ bounded_by corner.now.capacities vector.now) }
{
    let entries = corner.capacities.as_slice();
    let mut capacities = Rows::new(alloc);
    for channel in 0..entries.len().min(vector.len()) {
        capacities.push(with_room(entries[channel], vector[channel]))?;
    }
    Ok(Distribution { capacities })
}

/// The vector's capacity, where there is one.
fn with_room(entry: Option<u64>, room: u64) -> Option<u64>
    ensures { result ≡ with_room entry room }
{
    match entry {
        Some(_) => Some(room),
        None => None,
    }
}

/// The vector of a distribution. Cost: linear in the channels.
pub(crate) fn vector_of(alloc: Global, capacities: &Distribution) -> Result<Rows<u64>, NoMemory>
    ensures { IfOk result (λ v. v ≡ vector_of capacities.now.capacities) }
{
    let entries = capacities.capacities.as_slice();
    let rooms = entries.iter().map(|entry| entry.unwrap_or(0));
    Ok(Rows::from_vec(rooms.collect(alloc)?))
}

/// The lattice with another limit. Cost: linear in the channels.
pub(crate) fn copy_of(alloc: Global, lattice: &Lattice, limit: u64) -> Result<Lattice, NoMemory>
    ensures axes { IfOk result (λ l. l.axes ≡ lattice.now.axes) }
    ensures limit { IfOk result (λ l. l.limit ≡ limit) }
{
    let axes = Vec::from_slice(alloc, lattice.axes.as_slice())?;
    Ok(Lattice {
        axes: Rows::from_vec(axes),
        limit,
    })
}
