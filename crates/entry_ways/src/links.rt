//! The links of a chain of firings, followed backwards.
ghost use Rattle.std.specs.Prelude.{◌≡◌, ◌+◌, ◌≤◌, ◌<◌, ◌↔◌, ℕ, List, [], ◌∷◌, IsTrue, MatchOption, Some, length, slice_index, slice_index_or};
ghost use Rattle.sd_base.specs.declared.limits.TheConstants.{ROUND};
ghost use Rattle.sd_base.specs.Net.{channel_at};
ghost use Rattle.token_matrix.specs.Ways.{IsChain};
ghost use Rattle.entry_ways.specs.inside.Columns.{AreSmall, IsColumn, IsEndIn, IsFedBy, IsLink, start_in};
ghost use Rattle.entry_ways.specs.inside.Traces.{AreMarked, IsEndOf, IsLinkOn, IsLinkTo};

use crate::chains::Chains;
use crate::column::start_at;
use crate::producers::producers_of;
use firing::{Firing, know_laws};
use sd_base::Rows;

/// How a firing comes by a token that it waits for longest.
#[derive(Clone, Copy, Debug)]
pub(crate) enum Link {
    /// From this channel it takes the shared token.
    Begins {
        channel: u32,
    },
    /// From this channel it takes a token of this firing of its source, which ends just then.
    Goes {
        channel: u32,
        producer: u64,
        start: u128,
    },
}

/// Marks the channels from which tokens are taken along a chain from the shared token to the start of a firing that takes
/// so long. Cost: for each firing of the chain its producers.
pub(crate) fn mark_chain<F: Firing>(
    chains: &Chains<F>,
    rows: &[Rows<Option<u128>>],
    actor: u32,
    firing: u64,
    start: u128,
    marks: &mut [bool],
)
    requires column { IsColumn (F.net chains.now.wired.now.net.now) (slice_index chains.now.firsts.now) chains.now.token (slice_index (F.net chains.now.wired.now.net.now).round) rows.now }
    requires small { AreSmall rows.now }
    requires actor { actor < length (F.net chains.now.wired.now.net.now).times }
    requires firing { firing < slice_index (F.net chains.now.wired.now.net.now).round actor }
    requires start { start_in rows.now actor firing ≡ Some start }
    requires wide { length (F.net chains.now.wired.now.net.now).channels ≤ length marks.old }
    ensures { (cs : List ℕ) × IsChain (F.net chains.now.wired.now.net.now) (slice_index chains.now.firsts.now) chains.now.token actor firing start cs × AreMarked cs marks.old marks.new }
{
    know_laws(chains.wired.net);
    let mut actor = actor;
    let mut firing = firing;
    let mut start = start;
    'chain: loop {
        match link_to(chains, rows, actor, firing, start) {
            Link::Begins { channel } => {
                mark(marks, channel);
                return;
            }
            Link::Goes {
                channel,
                producer,
                start: earlier,
            } => {
                mark(marks, channel);
                actor = chains.wired.net.source(channel);
                firing = producer;
                start = earlier;
            }
        }
    }
}

/// Marks a channel.
fn mark(marks: &mut [bool], channel: u32)
    requires { channel < length marks.old }
    ensures { AreMarked (channel ∷ []) marks.old marks.new }
{
    marks[channel as usize] = true;
}

/// The first link of a chain to a firing that starts so long after the shared token, in the order of the channels into its
/// actor.
fn link_to<F: Firing>(
    chains: &Chains<F>,
    rows: &[Rows<Option<u128>>],
    actor: u32,
    firing: u64,
    start: u128,
) -> Link
    requires column { IsColumn (F.net chains.now.wired.now.net.now) (slice_index chains.now.firsts.now) chains.now.token (slice_index (F.net chains.now.wired.now.net.now).round) rows.now }
    requires small { AreSmall rows.now }
    requires actor { actor < length (F.net chains.now.wired.now.net.now).times }
    requires firing { firing < slice_index (F.net chains.now.wired.now.net.now).round actor }
    requires start { start_in rows.now actor firing ≡ Some start }
    ensures { IsLinkTo (F.net chains.now.wired.now.net.now) (slice_index chains.now.firsts.now) chains.now.token rows.now actor firing start result }
{
    know_laws(chains.wired.net);
    for channel in chains.wired.inputs_of(actor) {
        if let Some(link) = link_on(chains, rows, *channel, firing, start) {
            return link;
        }
    }
    unreachable!()
}

/// The first link on a channel to a firing that starts so long after the shared token.
fn link_on<F: Firing>(
    chains: &Chains<F>,
    rows: &[Rows<Option<u128>>],
    channel: u32,
    firing: u64,
    start: u128,
) -> Option<Link>
    requires long { length rows.now ≡ length (F.net chains.now.wired.now.net.now).times }
    requires small { AreSmall rows.now }
    requires channel { channel < length (F.net chains.now.wired.now.net.now).channels }
    requires few { firing ≤ ROUND }
    requires fed { IsFedBy (F.net chains.now.wired.now.net.now) rows.now channel firing }
    ensures { MatchOption result (IsLink (F.net chains.now.wired.now.net.now) (slice_index chains.now.firsts.now) chains.now.token rows.now channel firing start → ⊥)
        (IsLinkOn (F.net chains.now.wired.now.net.now) (slice_index chains.now.firsts.now) chains.now.token rows.now channel firing start) }
{
    let producers = producers_of(chains, channel, firing);
    if is_begun(producers.has_token, start) {
        return Some(Link::Begins { channel });
    }
    producer_ending(chains, rows, channel, producers.first, producers.end, start)
}

/// Whether a firing that takes the shared token starts as soon as that is there.
fn is_begun(has_token: bool, start: u128) -> bool
    ensures { IsTrue result ↔ IsTrue has_token × (start ≡ 0) }
{
    has_token && start == 0
}

/// The link by the first of some firings of a channel's source that ends just at a start.
fn producer_ending<F: Firing>(
    chains: &Chains<F>,
    rows: &[Rows<Option<u128>>],
    channel: u32,
    first: u64,
    end: u64,
    start: u128,
) -> Option<Link>
    requires long { length rows.now ≡ length (F.net chains.now.wired.now.net.now).times }
    requires small { AreSmall rows.now }
    requires channel { channel < length (F.net chains.now.wired.now.net.now).channels }
    requires there { (k : ℕ) → first ≤ k → k < end → k < length (slice_index_or rows.now (channel_at (F.net chains.now.wired.now.net.now) channel).source []) }
    ensures { MatchOption result (IsEndIn (F.net chains.now.wired.now.net.now) rows.now channel first end start → ⊥)
        (IsEndOf (F.net chains.now.wired.now.net.now) rows.now channel first end start) }
{
    for producer in first..end {
        if let Some(link) = link_by(chains, rows, channel, producer, start) {
            return Some(link);
        }
    }
    None
}

/// The link by a firing of a channel's source, if that ends just at a start.
fn link_by<F: Firing>(
    chains: &Chains<F>,
    rows: &[Rows<Option<u128>>],
    channel: u32,
    producer: u64,
    start: u128,
) -> Option<Link>
    requires long { length rows.now ≡ length (F.net chains.now.wired.now.net.now).times }
    requires small { AreSmall rows.now }
    requires channel { channel < length (F.net chains.now.wired.now.net.now).channels }
    requires there { producer < length (slice_index_or rows.now (channel_at (F.net chains.now.wired.now.net.now) channel).source []) }
    ensures { MatchOption result (IsEndIn (F.net chains.now.wired.now.net.now) rows.now channel producer (producer + 1) start → ⊥)
        (IsEndOf (F.net chains.now.wired.now.net.now) rows.now channel producer (producer + 1) start) }
{
    know_laws(chains.wired.net);
    let source = chains.wired.net.source(channel);
    let time = u128::from(chains.wired.net.time(source, 0));
    let begun = start_at(rows, source, producer);
    match begun {
        Some(earlier) => {
            if earlier + time == start {
                Some(Link::Goes {
                    channel,
                    producer,
                    start: earlier,
                })
            } else {
                None
            }
        }
        None => None,
    }
}
