ghost use Rattle.std.specs.Prelude.{◌≡◌, ◌+◌, ◌<◌, ◌≤◌, ◌^◌, ℕ, Some, false, IfOk, MatchOption, length};
ghost use Rattle.std.specs.Ordering.{MatchOrdering};
ghost use Rattle.sd_base.specs.Net.{channel_at};
ghost use Rattle.storage.specs.Distributions.{capacity_at, enlarged, more_room, storage_at, storage_of};
ghost use Rattle.storage.specs.CapacityOrder.{no_later};

use firing::{Firing, know_laws};
use sd_base::{NoMemory, Rows};
use std::alloc::Global;
use std::cmp::Ordering;

/// A storage distribution: by channel a capacity in tokens, or none where the channel isn't bounded. A channel past the
/// end isn't bounded.
#[derive(Debug, PartialEq, Eq, Hash, Drop)]
pub struct Distribution {
    pub capacities: Rows<Option<u64>>,
}

impl Distribution {
    /// The same distribution again. Cost: linear in the channels.
    pub fn copy(&self, alloc: Global) -> Result<Distribution, NoMemory>
        ensures { IfOk result (λ d. d ≡ self.now) }
    {
        Ok(Distribution {
            capacities: Rows::from_vec(Vec::from_slice(alloc, self.capacities.as_slice())?),
        })
    }

    /// The capacity of a channel in tokens, if it is bounded.
    pub fn capacity_of(&self, channel: u32) -> Option<u64>
        ensures { result ≡ capacity_at self.now.capacities channel }
    {
        let entries = self.capacities.as_slice();
        let place = channel as usize;
        if place < entries.len() {
            entries[place]
        } else {
            None
        }
    }

    /// The distribution with so much more room on one channel, if that is bounded. Cost: linear in the channels.
    pub fn enlarge(&self, alloc: Global, channel: u32, by: u64) -> Result<Distribution, NoMemory>
        requires { (k : ℕ) → capacity_at self.now.capacities channel ≡ Some k → k + by < 2 ^ 64 }
        ensures { IfOk result (λ d. d.capacities ≡ enlarged self.now.capacities channel by) }
    {
        let mut entries = Vec::from_slice(alloc, self.capacities.as_slice())?;
        let place = channel as usize;
        if place < entries.len() {
            let entry = enlarged_entry(entries[place], by);
            entries[place] = entry;
        }
        Ok(Distribution {
            capacities: Rows::from_vec(entries),
        })
    }

    /// The storage that the distribution needs: the sum of the capacities, each times the size of its channel's tokens.
    /// Cost: linear in the channels.
    pub fn total<F: Firing>(&self, net: &F) -> u64
        requires many { length self.now.capacities ≤ length (F.net net.now).channels }
        requires small { storage_of (F.net net.now).channels self.now.capacities < 2 ^ 64 }
        ensures { result ≡ storage_of (F.net net.now).channels self.now.capacities }
    {
        match self.total_within(net, u64::MAX) {
            Some(total) => total,
            None => unreachable!(),
        }
    }

    /// The storage that the distribution needs, if that is at most
    /// a limit. Cost: linear in the channels.
    pub fn total_within<F: Firing>(&self, net: &F, limit: u64) -> Option<u64>
        requires { length self.now.capacities ≤ length (F.net net.now).channels }
        ensures { MatchOption result (limit < storage_of (F.net net.now).channels self.now.capacities)
            (λ t. (t ≡ storage_of (F.net net.now).channels self.now.capacities) × (t ≤ limit)) }
    {
        know_laws(net);
        let mut total = 0;
        for channel in 0..self.capacities.len() {
            let more = entry_storage(net, channel as u32, self.capacities.as_slice()[channel]);
            if more > u128::from(limit - total) {
                return None;
            }
            total += more as u64;
        }
        Some(total)
    }

    /// The lexicographic order of the capacities by channel, in which no capacity comes before each. Cost: linear in the
    /// channels.
    pub fn order(&self, other: &Distribution) -> Ordering
        ensures { MatchOrdering result (no_later other.now.capacities self.now.capacities ≡ false) (self.now.capacities ≡ other.now.capacities)
            (no_later self.now.capacities other.now.capacities ≡ false) }
    {
        if !other.is_no_later(self) {
            Ordering::Less
        } else if !self.is_no_later(other) {
            Ordering::Greater
        } else {
            Ordering::Equal
        }
    }

    /// Whether the distribution is no later than another in lexicographic order, in which a capacity is later than none.
    pub fn is_no_later(&self, other: &Distribution) -> bool
        ensures { result ≡ no_later self.now.capacities other.now.capacities }
    {
        are_no_later(self.capacities.as_slice(), other.capacities.as_slice())
    }
}

/// A capacity with so much more room, or none.
fn enlarged_entry(entry: Option<u64>, by: u64) -> Option<u64>
    requires { (k : ℕ) → entry ≡ Some k → k + by < 2 ^ 64 }
    ensures { result ≡ more_room entry by }
{
    match entry {
        Some(room) => Some(room + by),
        None => None,
    }
}

/// The storage of one channel.
fn entry_storage<F: Firing>(net: &F, channel: u32, entry: Option<u64>) -> u128
    requires { channel < length (F.net net.now).channels }
    ensures { result ≡ storage_at (channel_at (F.net net.now) channel) entry }
{
    match entry {
        Some(room) => u128::from(room) * u128::from(net.size(channel)),
        None => 0,
    }
}

/// Whether the first list is no later than the second.
fn are_no_later(first: &[Option<u64>], second: &[Option<u64>]) -> bool
    ensures { result ≡ no_later first.now second.now }
{
    let [entry, rest @ ..] = first else {
        return true;
    };
    let [other, others @ ..] = second else {
        return false;
    };
    match (*entry, *other) {
        (None, None) => are_no_later(rest, others),
        (None, Some(_)) => true,
        (Some(_), None) => false,
        (Some(room), Some(limit)) => room < limit || (room == limit && are_no_later(rest, others)),
    }
}
