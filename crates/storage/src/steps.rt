ghost use Rattle.std.specs.Prelude.{◌≡◌, ◌≢◌, ◌↔◌, ◌+◌, ◌*◌, ◌<◌, ◌≤◌, ◌++◌, ℕ, IfOk, OnOk, MatchOption, length, take, slice_index};
ghost use Rattle.std.specs.Int.{◌∣◌};
ghost use Rattle.sd_base.specs.declared.limits.TheConstants.{NET_TOKENS, RATE};
ghost use Rattle.sd_base.specs.Net.{channel_at};
ghost use Rattle.sd_base.specs.Lawful.{is_token_role};
ghost use Rattle.firing.specs.Ports.{rates_at};
ghost use Rattle.storage.specs.Steps.{step_of, CoversRates, IsCornerAt, IsCorner};

use crate::distribution::Distribution;
use firing::{Firing, Port, know_laws, port_phases, port_rate};
use sd_base::{NoMemory, Role, Rows, gcd};
use std::alloc::Global;

/// The step in which the capacity of a channel is worth changing: the greatest common divisor of all its rates.
/// Cost: linear in the phases of both ends.
pub fn step<F: Firing>(net: &F, channel: u32) -> u64
    requires { channel < length (F.net net.now).channels }
    ensures step { result ≡ step_of (channel_at (F.net net.now) channel) }
    ensures some { 1 ≤ result }
    ensures small { result ≤ RATE }
{
    know_laws(net);
    let made = port_divisor(net, channel, Port::Made);
    let taken = port_divisor(net, channel, Port::Taken);
    gcd(made, taken)
}

/// The greatest common divisor of the rates at an end of a channel.
fn port_divisor<F: Firing>(net: &F, channel: u32, port: Port) -> u64
    requires { channel < length (F.net net.now).channels }
    ensures { (d : ℕ) → d ∣ result ↔ ((p : ℕ) → d ∣ slice_index (rates_at port (channel_at (F.net net.now) channel)) p) }
{
    let mut divisor = 0;
    for phase in 0..port_phases(net, channel, port) {
        divisor = gcd(divisor, port_rate(net, channel, port, phase));
    }
    divisor
}

/// The greatest of the rates of a channel.
fn greatest_rate<F: Firing>(net: &F, channel: u32) -> u64
    requires { channel < length (F.net net.now).channels }
    ensures covers { CoversRates (channel_at (F.net net.now) channel) result }
    ensures least { (k : ℕ) → CoversRates (channel_at (F.net net.now) channel) k → result ≤ k }
    ensures small { result ≤ RATE }
{
    let made = port_greatest(net, channel, Port::Made);
    let taken = port_greatest(net, channel, Port::Taken);
    greater(made, taken)
}

/// The greatest of the rates at an end of a channel.
fn port_greatest<F: Firing>(net: &F, channel: u32, port: Port) -> u64
    requires { channel < length (F.net net.now).channels }
    ensures covers { (p : ℕ) → slice_index (rates_at port (channel_at (F.net net.now) channel)) p ≤ result }
    ensures least { (k : ℕ) → ((p : ℕ) → slice_index (rates_at port (channel_at (F.net net.now) channel)) p ≤ k) → result ≤ k }
    ensures small { result ≤ RATE }
{
    know_laws(net);
    let mut greatest = 0;
    for phase in 0..port_phases(net, channel, port) {
        greatest = greater(greatest, port_rate(net, channel, port, phase));
    }
    greatest
}

/// The corner: on each channel of the file that isn't a self-loop the least number of tokens and whole steps that is at
/// least each single rate. Cost: linear in the phases at all channels.
pub fn corner<F: Firing>(alloc: Global, net: &F) -> Result<Distribution, NoMemory>
    ensures { IfOk result (λ d. IsCorner (F.net net.now).channels d.capacities) }
{
    know_laws(net);
    let mut capacities = Rows::new(alloc);
    for channel in 0..net.channels() {
        if is_in_file(net, channel) {
            capacities.push(corner_entry(net, channel))?;
        }
    }
    Ok(Distribution { capacities })
}

/// Whether a channel is one of the file, and none that an analysis has added.
pub fn is_in_file<F: Firing>(net: &F, channel: u32) -> bool
    requires { channel < length (F.net net.now).channels }
    ensures { result ≡ is_token_role (channel_at (F.net net.now) channel).role }
{
    match net.role(channel) {
        Role::Token(_) => true,
        Role::Own(_) | Role::Space(_) | Role::Order(_, _) => false,
    }
}

/// The entry of a channel in the corner.
fn corner_entry<F: Firing>(net: &F, channel: u32) -> Option<u64>
    requires { channel < length (F.net net.now).channels }
    ensures { MatchOption result ((channel_at (F.net net.now) channel).source ≡ (channel_at (F.net net.now) channel).target)
        (λ k. ((channel_at (F.net net.now) channel).source ≢ (channel_at (F.net net.now) channel).target) × IsCornerAt (channel_at (F.net net.now) channel) k) }
{
    if net.source(channel) == net.target(channel) {
        None
    } else {
        Some(corner_at(net, channel))
    }
}

/// The capacity of a channel in the corner.
fn corner_at<F: Firing>(net: &F, channel: u32) -> u64
    requires { channel < length (F.net net.now).channels }
    ensures corner { IsCornerAt (channel_at (F.net net.now) channel) result }
    ensures small { result ≤ NET_TOKENS + 2 * RATE }
{
    know_laws(net);
    let greatest = greatest_rate(net, channel);
    let tokens = net.tokens(channel);
    if greatest <= tokens {
        return tokens;
    }
    let step = step(net, channel);
    tokens + (greatest - tokens).div_ceil(step) * step
}

/// The greater of two numbers.
fn greater(a: u64, b: u64) -> u64
    ensures first { a ≤ result }
    ensures second { b ≤ result }
    ensures least { (k : ℕ) → a ≤ k → b ≤ k → result ≤ k }
{
    if a < b { b } else { a }
}
