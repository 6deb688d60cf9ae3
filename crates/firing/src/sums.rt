ghost use Rattle.std.specs.Prelude.{◌≡◌, ◌+◌, ◌-◌, ◌*◌, ◌<◌, ◌≤◌, length, slice_index};
ghost use Rattle.sd_base.specs.Ranges.{FIRING_BOUND, WIDE_FIRING_BOUND};
ghost use Rattle.sd_base.specs.declared.limits.TheConstants.{RATE};
ghost use Rattle.sd_base.specs.Net.{channel_at, total};
ghost use Rattle.sd_base.specs.Schedules.{IsNeed};
ghost use Rattle.firing.specs.Ports.{rates_at};

use crate::net::{Firing, know_laws};

/// An end of a channel: what its source makes, or what its target takes.
#[derive(Clone, Copy, Debug)]
pub enum Port {
    /// The source's end.
    Made,
    /// The target's end.
    Taken,
}

/// The tokens that the first `firings` firings of the source put on a channel. Cost: that of
/// `Firing::made_before`.
pub fn made_sum<F: Firing>(net: &F, channel: u32, firings: u128) -> u128
    requires channel { channel < length (F.net net.now).channels }
    requires few { firings ≤ WIDE_FIRING_BOUND }
    ensures { result ≡ total (channel_at (F.net net.now) channel).made firings }
{
    port_sum(net, channel, Port::Made, firings)
}

/// The tokens that the first `firings` firings of the target take from a channel. Cost: that of
/// `Firing::taken_before`.
pub fn taken_sum<F: Firing>(net: &F, channel: u32, firings: u128) -> u128
    requires channel { channel < length (F.net net.now).channels }
    requires few { firings ≤ WIDE_FIRING_BOUND }
    ensures { result ≡ total (channel_at (F.net net.now) channel).taken firings }
{
    port_sum(net, channel, Port::Taken, firings)
}

/// The sum over whole turns of the phases and a rest.
fn port_sum<F: Firing>(net: &F, channel: u32, port: Port, firings: u128) -> u128
    requires channel { channel < length (F.net net.now).channels }
    requires few { firings ≤ WIDE_FIRING_BOUND }
    ensures { result ≡ total (rates_at port (channel_at (F.net net.now) channel)) firings }
{
    let phases = port_phases(net, channel, port);
    let turn = sum_before(net, channel, port, phases) as u128;
    let rest = sum_before(net, channel, port, (firings % phases as u128) as u32) as u128;
    firings / phases as u128 * turn + rest
}

/// The sum over the phases below `phases` at an end of a channel.
fn sum_before<F: Firing>(net: &F, channel: u32, port: Port, phases: u32) -> u64
    requires channel { channel < length (F.net net.now).channels }
    requires phases { phases ≤ length (rates_at port (channel_at (F.net net.now) channel)) }
    ensures sum { result ≡ total (rates_at port (channel_at (F.net net.now) channel)) phases }
    ensures small { result ≤ phases * RATE }
{
    know_laws(net);
    match port {
        Port::Made => net.made_before(channel, phases),
        Port::Taken => net.taken_before(channel, phases),
    }
}

/// How many phases the actor at an end of a channel has.
pub fn port_phases<F: Firing>(net: &F, channel: u32, port: Port) -> u32
    requires { channel < length (F.net net.now).channels }
    ensures phases { result ≡ length (rates_at port (channel_at (F.net net.now) channel)) }
    ensures some { 0 < result }
{
    know_laws(net);
    match port {
        Port::Made => net.phases(net.source(channel)),
        Port::Taken => net.phases(net.target(channel)),
    }
}

/// The tokens that a firing makes or takes at an end of a channel in a phase of the actor there.
pub fn port_rate<F: Firing>(net: &F, channel: u32, port: Port, phase: u32) -> u64
    requires channel { channel < length (F.net net.now).channels }
    requires phase { phase < length (rates_at port (channel_at (F.net net.now) channel)) }
    ensures rate { result ≡ slice_index (rates_at port (channel_at (F.net net.now) channel)) phase }
    ensures small { result ≤ RATE }
{
    know_laws(net);
    match port {
        Port::Made => net.made(channel, phase),
        Port::Taken => net.taken(channel, phase),
    }
}

/// The least number of firings of the source of a channel with which there are tokens enough for firing
/// number `firing` of its target. Cost: that of `Firing::made_before` times the logarithm of the phases.
pub fn need<F: Firing>(net: &F, channel: u32, firing: u64) -> u64
    requires channel { channel < length (F.net net.now).channels }
    requires few { firing ≤ FIRING_BOUND }
    ensures { IsNeed (channel_at (F.net net.now) channel) firing result }
{
    know_laws(net);
    let taken = taken_sum(net, channel, firing as u128 + 1);
    let tokens = net.tokens(channel) as u128;
    if taken <= tokens {
        return 0;
    }
    let lack = taken - tokens;
    let phases = port_phases(net, channel, Port::Made);
    let turn = sum_before(net, channel, Port::Made, phases) as u128;
    let turns = (lack - 1) / turn;
    let rest = firings_making(net, channel, (lack - turns * turn) as u64);
    (turns * phases as u128 + rest as u128) as u64
}

/// The least number of firings of the source, within one turn of its phases, that make so many tokens.
fn firings_making<F: Firing>(net: &F, channel: u32, wanted: u64) -> u32
    requires channel { channel < length (F.net net.now).channels }
    requires some { 1 ≤ wanted }
    requires enough { wanted ≤ total (channel_at (F.net net.now) channel).made (length (channel_at (F.net net.now) channel).made) }
    ensures some { 1 ≤ result }
    ensures turn { result ≤ length (channel_at (F.net net.now) channel).made }
    ensures enough { wanted ≤ total (channel_at (F.net net.now) channel).made result }
    ensures least { total (channel_at (F.net net.now) channel).made (result - 1) < wanted }
{
    let mut few: u32 = 0;
    let mut enough = port_phases(net, channel, Port::Made);
    while enough - few > 1 {
        let middle = few + (enough - few) / 2;
        if sum_before(net, channel, Port::Made, middle) < wanted {
            few = middle;
        } else {
            enough = middle;
        }
    }
    enough
}
