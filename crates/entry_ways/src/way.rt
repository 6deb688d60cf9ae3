//! A way of an entry of a scenario's matrix.
ghost use Rattle.std.specs.Prelude.{◌≡◌, ◌-◌, ◌≤◌, ◌<◌, ◌↔◌, ℕ, List, IsTrue, length, slice_index};
ghost use Rattle.sd_base.specs.declared.limits.TheConstants.{ROUND};
ghost use Rattle.token_matrix.specs.Stamps.{left_token};
ghost use Rattle.token_matrix.specs.Ways.{IsWay};
ghost use Rattle.entry_ways.specs.WayMarks.{IsLongestWay};
ghost use Rattle.entry_ways.specs.inside.Columns.{AreSmall, IsColumn};
ghost use Rattle.entry_ways.specs.inside.Traces.{AreApart, AreMarked, IsOnChannel};

use crate::chains::Chains;
use crate::column::start_at;
use crate::links::mark_chain;
use crate::producers::{producer_of, taken_rate};
use firing::{Firing, know_laws};
use sd_base::Rows;

/// Marks the channels from which tokens are taken on one longest way from the shared token of a column to the one that is
/// left as another shared token. Cost: that of `mark_chain`, and linear in the channels.
pub(crate) fn mark_way<F: Firing>(
    chains: &Chains<F>,
    rows: &[Rows<Option<u128>>],
    left: u64,
    marks: &mut [bool],
)
    requires column { IsColumn (F.net chains.now.wired.now.net.now) (slice_index chains.now.firsts.now) chains.now.token (slice_index (F.net chains.now.wired.now.net.now).round) rows.now }
    requires small { AreSmall rows.now }
    requires apart { AreApart (F.net chains.now.wired.now.net.now) (slice_index chains.now.firsts.now) }
    requires way { (e : ℕ) × (cs : List ℕ) × IsWay (F.net chains.now.wired.now.net.now) (slice_index chains.now.firsts.now) chains.now.token left e cs }
    requires wide { length (F.net chains.now.wired.now.net.now).channels ≤ length marks.old }
    ensures { (cs : List ℕ) × IsLongestWay (F.net chains.now.wired.now.net.now) (slice_index chains.now.firsts.now) chains.now.token left cs × AreMarked cs marks.old marks.new }
{
    know_laws(chains.wired.net);
    let channel = channel_of(chains, left);
    let last = left_token(chains, channel, left);
    if last < chains.wired.net.tokens(channel) {
        return;
    }
    let actor = chains.wired.net.source(channel);
    let producer = producer_of(chains, channel, last);
    match start_at(rows, actor, producer) {
        Some(start) => mark_chain(chains, rows, actor, producer, start, marks),
        None => unreachable!(),
    }
}

/// The channel of which a shared token is one.
fn channel_of<F: Firing>(chains: &Chains<F>, token: u64) -> u32
    requires { (i : ℕ) × IsOnChannel (F.net chains.now.wired.now.net.now) (slice_index chains.now.firsts.now) token i }
    ensures { IsOnChannel (F.net chains.now.wired.now.net.now) (slice_index chains.now.firsts.now) token result }
{
    for channel in 0..chains.wired.net.channels() {
        if is_on(chains, token, channel) {
            return channel;
        }
    }
    unreachable!()
}

/// Whether a shared token is one of a channel.
fn is_on<F: Firing>(chains: &Chains<F>, token: u64, channel: u32) -> bool
    requires { channel < length (F.net chains.now.wired.now.net.now).channels }
    ensures { IsTrue result ↔ IsOnChannel (F.net chains.now.wired.now.net.now) (slice_index chains.now.firsts.now) token channel }
{
    let first = chains.firsts.as_slice()[channel as usize];
    first <= token && token - first < chains.wired.net.tokens(channel)
}

/// The token of a channel that is left as a shared token of it after a round.
fn left_token<F: Firing>(chains: &Chains<F>, channel: u32, left: u64) -> u64
    requires { IsOnChannel (F.net chains.now.wired.now.net.now) (slice_index chains.now.firsts.now) left channel }
    ensures { result ≡ left_token (F.net chains.now.wired.now.net.now) channel (left - slice_index chains.now.firsts.now channel) }
{
    know_laws(chains.wired.net);
    let place = left - chains.firsts.as_slice()[channel as usize];
    round_of(chains.wired.net, chains.wired.net.target(channel)) * taken_rate(chains, channel)
        + place
}

/// The firings of an actor in a round.
fn round_of<F: Firing>(net: &F, actor: u32) -> u64
    requires { actor < length (F.net net.now).times }
    ensures is { result ≡ slice_index (F.net net.now).round actor }
    ensures small { result ≤ ROUND }
{
    know_laws(net);
    net.round(actor)
}
