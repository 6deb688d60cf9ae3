//! Capacities by the numbers of channels.
ghost use Rattle.std.specs.Prelude.{◌≡◌, ◌↔◌, IfOk, IsTrue, length};
ghost use Rattle.cert_checker.specs.NumberedBuffers.{AreBuffers, IsBuffer, capacities_in, capacity_in};

use sd_base::limits::CAPACITY;
use sd_base::{ChannelRow, NoMemory, Rows};
use std::alloc::Global;
use storage::Distribution;

/// Whether each buffer is that of a channel of the file.
pub(crate) fn are_buffers(channels: &[ChannelRow], buffers: &[(u32, u64)]) -> bool
    ensures { IsTrue result ↔ AreBuffers channels.now buffers.now }
{
    for buffer in buffers {
        if !is_buffer(channels, *buffer) {
            return false;
        }
    }
    true
}

fn is_buffer(channels: &[ChannelRow], buffer: (u32, u64)) -> bool
    ensures { IsTrue result ↔ IsBuffer channels.now buffer }
{
    match channels.get(buffer.0 as usize) {
        Some(channel) => {
            channel.source != channel.target && channel.tokens <= buffer.1 && buffer.1 <= CAPACITY
        }
        None => false,
    }
}

/// The distribution of buffers.
pub(crate) fn distribution_of(
    alloc: Global,
    channels: usize,
    buffers: &[(u32, u64)],
) -> Result<Distribution, NoMemory>
    ensures { IfOk result (λ d. d.capacities ≡ capacities_in channels buffers.now) }
{
    let mut capacities = Rows::new(alloc);
    for channel in 0..channels {
        capacities.push(capacity_in(buffers, channel))?;
    }
    Ok(Distribution { capacities })
}

/// The capacity of a channel, if it has one.
fn capacity_in(buffers: &[(u32, u64)], channel: usize) -> Option<u64>
    ensures { result ≡ capacity_in buffers.now channel }
{
    buffers
        .iter()
        .find(|buffer| buffer.0 as usize == channel)
        .map(|buffer| buffer.1)
}
