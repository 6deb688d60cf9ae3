//! Which firings put the tokens that one firing takes from a channel.
ghost use Rattle.std.specs.Prelude.{◌≡◌, ◌*◌, ◌≤◌, ◌<◌, ◌↔◌, ◌⊎◌, ℕ, IsTrue, length, slice_index};
ghost use Rattle.sd_base.specs.declared.limits.TheConstants.{RATE, ROUND};
ghost use Rattle.sd_base.specs.Net.{channel_at, total};
ghost use Rattle.token_matrix.specs.Stamps.{IsPutBy};
ghost use Rattle.entry_ways.specs.inside.Columns.{AreProducers, IsAmong};

use crate::chains::Chains;
use firing::{Firing, know_laws};

/// The firings of a channel's source that put the tokens of a firing of its target, from the first to one past the last,
/// and whether the shared token is among those that it takes.
#[derive(Clone, Copy, Debug)]
pub(crate) struct Producers {
    pub(crate) has_token: bool,
    pub(crate) first: u64,
    pub(crate) end: u64,
}

/// Which firings put the tokens that a firing takes from a channel.
pub(crate) fn producers_of<F: Firing>(chains: &Chains<F>, channel: u32, firing: u64) -> Producers
    requires channel { channel < length (F.net chains.now.wired.now.net.now).channels }
    requires few { firing ≤ ROUND }
    ensures { AreProducers (F.net chains.now.wired.now.net.now) (slice_index chains.now.firsts.now) chains.now.token channel firing result.has_token result.first result.end }
{
    know_laws(chains.wired.net);
    let taken = taken_rate(chains, channel);
    let from = firing * taken;
    let end = from + taken;
    let has_token = has_token(chains, channel, from, end);
    let tokens = chains.wired.net.tokens(channel);
    if end <= tokens {
        return Producers {
            has_token,
            first: 0,
            end: 0,
        };
    }
    Producers {
        has_token,
        first: producer_of(chains, channel, first_put(from, tokens)),
        end: producer_of(chains, channel, end - 1) + 1,
    }
}

/// The tokens that each firing of a channel's target takes from it.
pub(crate) fn taken_rate<F: Firing>(chains: &Chains<F>, channel: u32) -> u64
    requires { channel < length (F.net chains.now.wired.now.net.now).channels }
    ensures all { (n : ℕ) → total (channel_at (F.net chains.now.wired.now.net.now) channel).taken n ≡ n * result }
    ensures some { 1 ≤ result }
    ensures few { result ≤ RATE }
{
    know_laws(chains.wired.net);
    chains.wired.net.taken(channel, 0)
}

/// Whether the shared token is one of those that are there before the round, from one number to before another one.
fn has_token<F: Firing>(chains: &Chains<F>, channel: u32, from: u64, end: u64) -> bool
    requires { channel < length (F.net chains.now.wired.now.net.now).channels }
    ensures { IsTrue result ↔ IsAmong (slice_index chains.now.firsts.now channel) chains.now.token from end (channel_at (F.net chains.now.wired.now.net.now) channel).tokens }
{
    let first = chains.firsts.as_slice()[channel as usize];
    is_among(
        first,
        chains.token,
        from,
        end,
        chains.wired.net.tokens(channel),
    )
}

/// Whether a token is one of those from one number to before another one, and before an end; numbers begin at the first.
fn is_among(first: u64, token: u64, from: u64, end: u64, tokens: u64) -> bool
    ensures { IsTrue result ↔ IsAmong first token from end tokens }
{
    first <= token && from <= token - first && token - first < end && token - first < tokens
}

/// The first token from a number on that isn't there before the round.
fn first_put(from: u64, tokens: u64) -> u64
    ensures above { tokens ≤ result }
    ensures low { from ≤ result }
    ensures which { (result ≡ from) ⊎ (result ≡ tokens) }
{
    from.max(tokens)
}

/// The firing that puts a token on a channel.
pub(crate) fn producer_of<F: Firing>(chains: &Chains<F>, channel: u32, token: u64) -> u64
    requires channel { channel < length (F.net chains.now.wired.now.net.now).channels }
    requires late { (channel_at (F.net chains.now.wired.now.net.now) channel).tokens ≤ token }
    ensures put { IsPutBy (channel_at (F.net chains.now.wired.now.net.now) channel) token result }
    ensures few { result ≤ token }
{
    know_laws(chains.wired.net);
    (token - chains.wired.net.tokens(channel)) / chains.wired.net.made(channel, 0)
}
