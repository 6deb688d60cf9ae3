ghost use Rattle.std.specs.Prelude.{◌≡◌, ℕ, ◌+◌, ◌*◌, ◌%◌, ◌^◌, ◌<◌, ◌≤◌, length, map, slice_index, IfOk, MatchOption};
ghost use Rattle.sd_base.specs.Ranges.{WIDE_TOKEN_BOUND};
ghost use Rattle.sd_base.specs.declared.limits.TheConstants.{RATE};
ghost use Rattle.sd_base.specs.Net.{Channel, channel_at, phase_entry, total};
ghost use Rattle.firing.specs.declared.sums.Port.TheVariants.{Made, Taken};
ghost use Rattle.firing.specs.Ports.{rates_at};
ghost use Rattle.firing.specs.Wiring.{IsListed, SufficesBefore, IsFirstLack, TakesTokens, PutsTokens};

use crate::net::{Firing, know_laws};
use crate::sums::{Port, port_phases, port_rate};
use sd_base::NoMemory;
use std::alloc::Global;

/// The first of the channels into an actor that has fewer tokens than a firing of it takes.
pub fn first_lack<F: Firing>(
    net: &F,
    inputs: &[u32],
    tokens: &[u128],
    actor: u32,
    firing: u64,
) -> Option<u32>
    requires actor { actor < length (F.net net.now).times }
    requires listed { IsListed (F.net net.now) Taken actor inputs.now }
    requires tokens { length tokens.now ≡ length (F.net net.now).channels }
    ensures { MatchOption result (SufficesBefore (F.net net.now) tokens.now actor firing (length (F.net net.now).channels))
        (IsFirstLack (F.net net.now) tokens.now actor firing) }
{
    know_laws(net);
    for channel in inputs {
        if tokens[*channel as usize] < taken_by(net, *channel, firing) as u128 {
            return Some(*channel);
        }
    }
    None
}

/// The tokens that a firing of the target takes from a channel.
fn taken_by<F: Firing>(net: &F, channel: u32, firing: u64) -> u64
    requires { channel < length (F.net net.now).channels }
    ensures { result ≡ phase_entry (channel_at (F.net net.now) channel).taken firing }
{
    let phases = port_phases(net, channel, Port::Taken) as u64;
    net.taken(channel, (firing % phases) as u32)
}

/// Takes the tokens of `firings` firings of an actor, from number `from` on, off the channels into it.
pub fn take_tokens<F: Firing>(
    net: &F,
    inputs: &[u32],
    tokens: &mut [u128],
    actor: u32,
    from: u64,
    firings: u64,
)
    requires actor { actor < length (F.net net.now).times }
    requires listed { IsListed (F.net net.now) Taken actor inputs.now }
    requires tokens { length tokens.old ≡ length (F.net net.now).channels }
    requires few { from + firings < 2 ^ 64 }
    requires enough { (i : ℕ) → i < length (F.net net.now).channels → (channel_at (F.net net.now) i).target ≡ actor →
        total (channel_at (F.net net.now) i).taken (from + firings)
        ≤ slice_index tokens.old i + total (channel_at (F.net net.now) i).taken from }
    ensures { TakesTokens (F.net net.now) actor from firings tokens.old tokens.new }
{
    for channel in inputs {
        let all = span_sum(net, *channel, Port::Taken, from, firings);
        tokens[*channel as usize] -= all;
    }
}

/// Puts the tokens of `firings` firings of an actor, from number `from` on, on the channels out of it.
pub fn put_tokens<F: Firing>(
    net: &F,
    outputs: &[u32],
    tokens: &mut [u128],
    actor: u32,
    from: u64,
    firings: u64,
)
    requires actor { actor < length (F.net net.now).times }
    requires listed { IsListed (F.net net.now) Made actor outputs.now }
    requires tokens { length tokens.old ≡ length (F.net net.now).channels }
    requires few { from + firings < 2 ^ 64 }
    requires small { (i : ℕ) → i < length (F.net net.now).channels → slice_index tokens.old i ≤ WIDE_TOKEN_BOUND }
    ensures { PutsTokens (F.net net.now) actor from firings tokens.old tokens.new }
{
    for channel in outputs {
        let all = span_sum(net, *channel, Port::Made, from, firings);
        tokens[*channel as usize] += all;
    }
}

/// The sum over `firings` firings from number `from` on at an end of a channel. Cost: constant where the
/// actor has one phase, else linear in the firings.
pub fn span_sum<F: Firing>(net: &F, channel: u32, port: Port, from: u64, firings: u64) -> u128
    requires channel { channel < length (F.net net.now).channels }
    requires few { from + firings < 2 ^ 64 }
    ensures sum { total (rates_at port (channel_at (F.net net.now) channel)) from + result
        ≡ total (rates_at port (channel_at (F.net net.now) channel)) (from + firings) }
    ensures small { result ≤ firings * RATE }
{
    let phases = port_phases(net, channel, port) as u64;
    if phases == 1 {
        return firings as u128 * port_rate(net, channel, port, 0) as u128;
    }
    let mut sum = 0u128;
    for k in 0..firings {
        sum += port_rate(net, channel, port, ((from + k) % phases) as u32) as u128;
    }
    sum
}

/// The tokens with which each channel starts.
pub fn initial_tokens<F: Firing>(alloc: Global, net: &F) -> Result<Vec<u128>, NoMemory>
    ensures { IfOk result (λ v. v.items ≡ map (λ (c : Channel). c.tokens) (F.net net.now).channels) }
{
    let mut tokens = Vec::with_capacity(alloc, net.channels() as usize)?;
    for channel in 0..net.channels() {
        tokens.push(net.tokens(channel) as u128)?;
    }
    Ok(tokens)
}
