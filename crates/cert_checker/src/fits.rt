//! Distributions within a limit.
ghost use Rattle.std.specs.Prelude.{◌↔◌, ℕ, ◌≤◌, ◌<◌, IsTrue, Some, length, slice_get};
ghost use Rattle.sd_base.specs.Net.{channel_at};
ghost use Rattle.storage.specs.Distributions.{IsDistribution, storage_of};
ghost use Rattle.cert_checker.specs.ShownChannels.{IsWithin};
ghost use Rattle.cert_checker.specs.inside.Entries.{Fits};

use firing::{Firing, know_laws};
use storage::{Distribution, is_in_file};

/// Whether a distribution has a capacity for each channel but self-loops, that covers its tokens, and needs no more storage
/// than a limit.
pub(crate) fn is_within<F: Firing>(net: &F, limit: u64, distribution: &Distribution) -> bool
    ensures { IsTrue result ↔ IsWithin (F.net net.now) limit distribution.now.capacities }
{
    is_distribution(net, distribution.capacities.as_slice())
        && distribution.total_within(net, limit).is_some()
}

fn is_distribution<F: Firing>(net: &F, capacities: &[Option<u64>]) -> bool
    ensures { IsTrue result ↔ IsDistribution (F.net net.now).channels capacities.now }
{
    if capacities.len() > net.channels() as usize {
        return false;
    }
    for channel in 0..net.channels() {
        if !fits(net, capacities, channel) {
            return false;
        }
    }
    true
}

/// Whether the entry of a channel is right; a channel past the last entry is no channel of the file.
fn fits<F: Firing>(net: &F, capacities: &[Option<u64>], channel: u32) -> bool
    requires channel { channel < length (F.net net.now).channels }
    ensures { IsTrue result ↔ Fits (channel_at (F.net net.now) channel) (slice_get capacities.now channel) }
{
    match capacities.get(channel as usize) {
        None => !is_in_file(net, channel) && net.source(channel) == net.target(channel),
        Some(entry) => entry_fits(net, channel, *entry),
    }
}

fn entry_fits<F: Firing>(net: &F, channel: u32, entry: Option<u64>) -> bool
    requires channel { channel < length (F.net net.now).channels }
    ensures { IsTrue result ↔ Fits (channel_at (F.net net.now) channel) (Some entry) }
{
    let is_loop = net.source(channel) == net.target(channel);
    match entry {
        None => is_in_file(net, channel) && is_loop,
        Some(room) => is_in_file(net, channel) && !is_loop && net.tokens(channel) <= room,
    }
}
