//! The rates of a channel in all scenarios.
ghost use Rattle.std.specs.Prelude.{◌≡◌, ◌↔◌, ◌≤◌, ◌+◌, ◌*◌, ◌++◌, ℕ, true, false, IfOk, OnOk, MatchOption, slice_index};
ghost use Rattle.std.specs.Int.{◌∣◌};
ghost use Rattle.sd_base.specs.declared.limits.TheConstants.{RATE, TOKENS};
ghost use Rattle.storage.specs.Steps.{CoversRates, IsCornerAt, step_of};
ghost use Rattle.bounded_scenarios.specs.SharedChannels.{channels_named, is_looped};
ghost use Rattle.bounded_scenarios.specs.inside.MergedRates.{IsMerged, IsLimited, merged_channel};
ghost use Rattle.bounded_scenarios.specs.inside.Naming.{NameAll};

use crate::naming::channel_named;
use sd_base::{ChannelRow, NoMemory, ScenarioRow, SharedRow, Text, gcd};
use std::alloc::Global;

/// A shared channel in all scenarios: the rates, one scenario after another, and whether it is a self-loop in one of them.
#[derive(Debug, Drop)]
pub(crate) struct Merged {
    pub(crate) looped: bool,
    pub(crate) made: Vec<u64>,
    pub(crate) taken: Vec<u64>,
    pub(crate) tokens: u64,
}

/// The channel of a shared row in all scenarios. Cost: linear in their channels.
pub(crate) fn merged_of(
    alloc: Global,
    scenarios: &[ScenarioRow],
    row: &SharedRow,
) -> Result<Merged, NoMemory>
    requires { NameAll scenarios.now row.now.name }
    ensures { IfOk result (IsMerged scenarios.now row.now) }
{
    let mut merged = Merged {
        looped: is_looped(scenarios, &row.name),
        made: Vec::new(alloc),
        taken: Vec::new(alloc),
        tokens: row.tokens,
    };
    for scenario in scenarios {
        merged.add(channel_named(scenario.graph.channels.as_slice(), &row.name))?;
    }
    Ok(merged)
}

/// Whether the channel of a name is a self-loop in some scenario. Cost: linear in their channels.
pub(crate) fn is_looped(scenarios: &[ScenarioRow], name: &Text) -> bool
    requires { NameAll scenarios.now name.now }
    ensures { result ≡ is_looped (channels_named scenarios.now name.now) }
{
    for scenario in scenarios {
        let channel = channel_named(scenario.graph.channels.as_slice(), name);
        if channel.source == channel.target {
            return true;
        }
    }
    false
}

impl Merged {
    /// Adds the rates of one more scenario.
    fn add(&mut self, channel: &ChannelRow) -> Result<(), NoMemory>
        ensures made { OnOk result (self.new.made.items ≡ self.old.made.items ++ channel.now.made) }
        ensures taken { OnOk result (self.new.taken.items ≡ self.old.taken.items ++ channel.now.taken) }
        ensures looped { self.new.looped ≡ self.old.looped }
        ensures tokens { self.new.tokens ≡ self.old.tokens }
    {
        self.made.extend_from_slice(channel.made.as_slice())?;
        self.taken.extend_from_slice(channel.taken.as_slice())?;
        Ok(())
    }

    /// The step in which the capacity is worth changing: the greatest common divisor of all the rates.
    pub(crate) fn step(&self) -> u64
        requires { IsLimited self.now }
        ensures step { result ≡ step_of (merged_channel self.now) }
        ensures some { 1 ≤ result }
        ensures small { result ≤ RATE }
    {
        gcd(
            divisor_of(self.made.as_slice()),
            divisor_of(self.taken.as_slice()),
        )
    }

    /// The greatest of all the rates.
    fn greatest_rate(&self) -> u64
        requires { IsLimited self.now }
        ensures covers { CoversRates (merged_channel self.now) result }
        ensures least { (k : ℕ) → CoversRates (merged_channel self.now) k → result ≤ k }
        ensures small { result ≤ RATE }
    {
        greatest_of(self.made.as_slice()).max(greatest_of(self.taken.as_slice()))
    }

    /// The capacity in the corner, if there is one: the least number of tokens and whole steps that is at least each rate.
    pub(crate) fn corner(&self) -> Option<u64>
        requires { IsLimited self.now }
        ensures corner { MatchOption result (self.now.looped ≡ true) (λ k. (self.now.looped ≡ false) × IsCornerAt (merged_channel self.now) k) }
        ensures small { MatchOption result (Unit {0}) (λ k. k ≤ TOKENS + 2 * RATE) }
    {
        if self.looped {
            return None;
        }
        Some(self.corner_at())
    }

    fn corner_at(&self) -> u64
        requires { IsLimited self.now }
        ensures corner { IsCornerAt (merged_channel self.now) result }
        ensures small { result ≤ TOKENS + 2 * RATE }
    {
        let greatest = self.greatest_rate();
        if greatest <= self.tokens {
            return self.tokens;
        }
        let step = self.step();
        self.tokens + (greatest - self.tokens).div_ceil(step) * step
    }
}

/// The greatest common divisor of rates; that of none is 0.
fn divisor_of(rates: &[u64]) -> u64
    ensures { (d : ℕ) → d ∣ result ↔ ((p : ℕ) → d ∣ slice_index rates.now p) }
{
    let mut divisor = 0;
    for rate in rates {
        divisor = gcd(divisor, *rate);
    }
    divisor
}

/// The greatest of rates; that of none is 0.
fn greatest_of(rates: &[u64]) -> u64
    ensures covers { (p : ℕ) → slice_index rates.now p ≤ result }
    ensures least { (k : ℕ) → ((p : ℕ) → slice_index rates.now p ≤ k) → result ≤ k }
{
    let mut greatest = 0;
    for rate in rates {
        if greatest < *rate {
            greatest = *rate;
        }
    }
    greatest
}
