//! The tokens on each channel, with their fingerprint.
//!
//! An engine makes at most 2^32 starts, each of which puts at most a million tokens on a channel that begins with at most
//! two thousand million, so its tokens stay below 2^60. A shape shows them in 128 bits.
//!
//! The fingerprint of tokens is kept as they change, that of remaining times is made from a sum that each actor keeps of
//! the ends of its running firings. So two shapes that differ are mostly told apart without going through lists, however many
//! firings run.
ghost use Rattle.std.specs.Prelude.{◌≡◌, ◌↔◌, ◌+◌, ◌-◌, ◌^◌, ◌<◌, ◌≤◌, [], ◌∷◌, ◌++◌, length, map, set, slice_index, IfOk, IsTrue, OnOk};
ghost use Rattle.sd_base.specs.Net.{Channel};
ghost use Rattle.selftimed.specs.Fingerprints.{fingerprint_of, weight as weight_in_fingerprint};

use firing::Firing;
use sd_base::NoMemory;
use std::alloc::Global;
use std::marker::Model;

/// The tokens on each channel, with their fingerprint: a weighted sum, by which most unequal tokens are told apart at
/// once. Contracts see the list of tokens.
#[derive(Drop)]
pub(crate) struct Tokens {
    counts: Vec<u64>,
    fingerprint: u64,
}

impl Model for Tokens {
    ghost use Rattle.std.specs.Prelude.{◌≡◌, List, ℕ};
    ghost use Rattle.selftimed.specs.Fingerprints.{fingerprint_of};

    ghost Value = { List ℕ };

    ghost view = { λ t. t.counts.items };

    ghost invariant = { λ t. t.fingerprint ≡ fingerprint_of t.counts.items };
}

impl Tokens {
    /// Those of no channels.
    pub(crate) fn new(alloc: Global) -> Tokens
        ensures { result ≡ [] }
    {
        Tokens {
            counts: Vec::new(alloc),
            fingerprint: 0,
        }
    }

    /// Makes them the tokens with which each channel starts. It allocates nothing where there were as many channels.
    pub(crate) fn refill<F: Firing>(&mut self, net: &F) -> Result<(), NoMemory>
        ensures { OnOk result (self.new ≡ map (λ (c : Channel). c.tokens) (F.net net.now).channels) }
    {
        self.clear();
        for channel in 0..net.channels() {
            self.push(net.tokens(channel))?;
        }
        Ok(())
    }

    fn clear(&mut self)
        ensures { self.new ≡ [] }
    {
        self.counts.clear();
        self.fingerprint = 0;
    }

    fn push(&mut self, count: u64) -> Result<(), NoMemory>
        ensures { OnOk result (self.new ≡ self.old ++ count ∷ []) }
    {
        let channel = self.counts.as_slice().len() as u64;
        self.counts.push(count)?;
        self.fingerprint = self
            .fingerprint
            .wrapping_add(weight_of(channel).wrapping_mul(count));
        Ok(())
    }

    pub(crate) fn as_slice(&self) -> &[u64]
        ensures { result.now ≡ self.now }
    {
        self.counts.as_slice()
    }

    /// The fingerprint of the tokens.
    pub(crate) fn fingerprint(&self) -> u64
        ensures { result ≡ fingerprint_of self.now }
    {
        self.fingerprint
    }

    /// Whether the tokens of two executions are equal. Cost: mostly constant where they aren't.
    pub(crate) fn same_as(&self, other: &Tokens) -> bool
        ensures { IsTrue result ↔ (self.now ≡ other.now) }
    {
        if self.fingerprint != other.fingerprint {
            return false;
        }
        self.counts.as_slice() == other.counts.as_slice()
    }

    /// Takes tokens off a channel, of which one has this weight in a fingerprint.
    pub(crate) fn take(&mut self, channel: u32, count: u64, weight: u64)
        requires channel { channel < length self.old }
        requires weight { weight ≡ weight_in_fingerprint channel }
        requires enough { count ≤ slice_index self.old channel }
        ensures { self.new ≡ set self.old channel (slice_index self.old channel - count) }
    {
        self.counts[channel as usize] -= count;
        self.fingerprint = self.fingerprint.wrapping_sub(weight.wrapping_mul(count));
    }

    /// Puts tokens on a channel, of which one has this weight in a fingerprint.
    pub(crate) fn put(&mut self, channel: u32, count: u64, weight: u64)
        requires channel { channel < length self.old }
        requires weight { weight ≡ weight_in_fingerprint channel }
        requires small { slice_index self.old channel + count < 2 ^ 64 }
        ensures { self.new ≡ set self.old channel (slice_index self.old channel + count) }
    {
        self.counts[channel as usize] += count;
        self.fingerprint = self.fingerprint.wrapping_add(weight.wrapping_mul(count));
    }
}

/// The weight of a channel's tokens, or of an actor's remaining times, in a fingerprint.
pub(crate) fn weight_of(channel: u64) -> u64
    ensures { result ≡ weight_in_fingerprint channel }
{
    let odd = channel.wrapping_add(1).wrapping_mul(0x9E37_79B9_7F4A_7C15);
    let square = odd.wrapping_mul(odd);
    square.wrapping_mul(square.wrapping_add(odd))
}
