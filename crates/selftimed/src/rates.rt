//! What each firing asks of a channel.
//!
//! What a firing asks for lies together. An engine keeps by channel the target, the rates of the first phase and the weight
//! in a fingerprint, which a bounded net would otherwise look up by way of the channel whose space it is. Of an actor of one
//! phase these decide all; one of more phases is asked phase by phase.
ghost use Rattle.std.specs.Prelude.{◌≡◌, ◌+◌, ◌*◌, ◌<◌, ◌≤◌, IfOk, length, slice_index};
ghost use Rattle.sd_base.specs.Ranges.{RUN_START_BOUND};
ghost use Rattle.sd_base.specs.declared.limits.TheConstants.{RATE};
ghost use Rattle.sd_base.specs.Net.{channel_at, phase_entry, total};
ghost use Rattle.firing.specs.Ports.{rates_at};
ghost use Rattle.firing.specs.declared.sums.Port.TheVariants.{Made, Taken};
ghost use Rattle.selftimed.specs.inside.PortRates.{AreOf, AreRates};

use crate::tokens::weight_of;
use firing::{Firing, Port, know_laws, port_phases, port_rate, span_sum};
use sd_base::NoMemory;
use std::alloc::Global;

/// What each firing asks of a channel: who takes from it, what a firing in the first phase takes and puts, and the
/// weight of the channel's tokens in a fingerprint. An execution has them side by side.
#[derive(Clone, Copy, Debug)]
pub(crate) struct Rates {
    pub(crate) target: u32,
    pub(crate) taken: u64,
    pub(crate) made: u64,
    pub(crate) weight: u64,
}

/// The rates of each channel. Cost: linear in the channels.
pub(crate) fn rates_of<F: Firing>(alloc: Global, net: &F) -> Result<Vec<Rates>, NoMemory>
    ensures { IfOk result (λ rates. AreRates (F.net net.now) rates.items) }
{
    let mut rates = Vec::with_capacity(alloc, net.channels() as usize)?;
    for channel in 0..net.channels() {
        rates.push(channel_rates(net, channel))?;
    }
    Ok(rates)
}

/// Makes them the rates of a net with as many channels.
pub(crate) fn reset_rates<F: Firing>(net: &F, rates: &mut [Rates])
    requires { length rates.old ≡ length (F.net net.now).channels }
    ensures { AreRates (F.net net.now) rates.new }
{
    for channel in 0..net.channels() {
        rates[channel as usize] = channel_rates(net, channel);
    }
}

/// The rates of a channel.
fn channel_rates<F: Firing>(net: &F, channel: u32) -> Rates
    requires { channel < length (F.net net.now).channels }
    ensures { AreOf channel (channel_at (F.net net.now) channel) result }
{
    know_laws(net);
    Rates {
        target: net.target(channel),
        taken: net.taken(channel, 0),
        made: net.made(channel, 0),
        weight: weight_of(channel as u64),
    }
}

/// The tokens that firings of an actor, from number `from` on, take from a channel into it or put on one out of it, which has
/// this rate in the actor's first phase. Cost: constant where the actor has one phase, else linear in the firings.
pub(crate) fn moved_span<F: Firing>(
    net: &F,
    rate: u64,
    channel: u32,
    port: Port,
    from: u64,
    firings: u64,
) -> u64
    requires channel { channel < length (F.net net.now).channels }
    requires rate { rate ≡ slice_index (rates_at port (channel_at (F.net net.now) channel)) 0 }
    requires few { from + firings ≤ RUN_START_BOUND }
    ensures sum { total (rates_at port (channel_at (F.net net.now) channel)) from + result
        ≡ total (rates_at port (channel_at (F.net net.now) channel)) (from + firings) }
    ensures small { result ≤ firings * RATE }
{
    if port_phases(net, channel, port) == 1 {
        return firings * rate;
    }
    span_sum(net, channel, port, from, firings) as u64
}

/// The tokens that a firing of the target takes from a channel, which has this rate in the target's first phase.
pub(crate) fn taken_at<F: Firing>(net: &F, rate: u64, channel: u32, firing: u64) -> u64
    requires channel { channel < length (F.net net.now).channels }
    requires rate { rate ≡ slice_index (channel_at (F.net net.now) channel).taken 0 }
    ensures { result ≡ phase_entry (channel_at (F.net net.now) channel).taken firing }
{
    let phases = port_phases(net, channel, Port::Taken) as u64;
    if phases == 1 {
        return rate;
    }
    port_rate(net, channel, Port::Taken, (firing % phases) as u32)
}
