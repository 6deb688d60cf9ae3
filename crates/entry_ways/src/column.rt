//! How long after one shared token each firing of a round starts at the least.
ghost use Rattle.std.specs.Prelude.{◌≡◌, ◌+◌, ◌*◌, ◌≤◌, ◌<◌, ℕ, [], None, Some, IfOk, OnOk, length, slice_index, slice_index_or, take};
ghost use Rattle.sd_base.specs.declared.limits.TheConstants.{ROUND, TIME};
ghost use Rattle.sd_base.specs.Net.{channel_at};
ghost use Rattle.sd_base.specs.Schedules.{time_of};
ghost use Rattle.sd_base.specs.Untimed.{IsRoundOrder, counts_after, none_fired};
ghost use Rattle.entry_ways.specs.inside.Columns.{AreSmall, AreUpTo, HasStart, IsColumn, IsEndIn, IsFedBy, IsLink, IsLinkInto, IsLongest, later, later_by, start_in};

use crate::chains::Chains;
use crate::producers::producers_of;
use firing::{Firing, know_laws};
use sd_base::{NoMemory, Rows};
use std::alloc::Global;

/// By actor and firing the greatest time of a chain of firings from a shared token to its start; none where no chain leads
/// to it. Cost: the firings of a round, times the channels of the actors fired, and a step for each firing of which a
/// firing takes tokens; memory of four words for each firing.
pub(crate) fn column_of<F: Firing>(
    alloc: Global,
    chains: &Chains<F>,
    order: &[u32],
) -> Result<Vec<Rows<Option<u128>>>, NoMemory>
    requires { IsRoundOrder (F.net chains.now.wired.now.net.now) order.now }
    ensures column { IfOk result (λ rows. IsColumn (F.net chains.now.wired.now.net.now) (slice_index chains.now.firsts.now) chains.now.token (slice_index (F.net chains.now.wired.now.net.now).round) rows.items) }
    ensures small { IfOk result (λ rows. AreSmall rows.items) }
{
    let mut rows = free_rows(alloc, chains.wired.net)?;
    for place in 0..order.len() {
        add_start(chains, order, place, &mut rows)?;
    }
    Ok(rows)
}

/// No starts of each actor.
fn free_rows<F: Firing>(alloc: Global, net: &F) -> Result<Vec<Rows<Option<u128>>>, NoMemory>
    ensures long { IfOk result (λ rows. length rows.items ≡ length (F.net net.now).times) }
    ensures empty { IfOk result (λ rows. (a : ℕ) → slice_index_or rows.items a [] ≡ []) }
{
    let mut rows = Vec::with_capacity(alloc, net.actors() as usize)?;
    for _actor in 0..net.actors() {
        rows.push(Rows::new(alloc))?;
    }
    Ok(rows)
}

/// Adds the start of the firing at a place of an order.
fn add_start<F: Firing>(
    chains: &Chains<F>,
    order: &[u32],
    place: usize,
    rows: &mut Vec<Rows<Option<u128>>>,
) -> Result<(), NoMemory>
    requires order { IsRoundOrder (F.net chains.now.wired.now.net.now) order.now }
    requires within { place < length order.now }
    requires column { IsColumn (F.net chains.now.wired.now.net.now) (slice_index chains.now.firsts.now) chains.now.token (counts_after none_fired (take place order.now)) rows.old.items }
    requires small { AreUpTo (TIME * place) rows.old.items }
    ensures column { OnOk result (IsColumn (F.net chains.now.wired.now.net.now) (slice_index chains.now.firsts.now) chains.now.token (counts_after none_fired (take (place + 1) order.now)) rows.new.items) }
    ensures small { OnOk result (AreUpTo (TIME * (place + 1)) rows.new.items) }
{
    know_laws(chains.wired.net);
    let actor = order[place];
    let firing = rows[actor as usize].len() as u64;
    let start = start_of(chains, rows.as_slice(), actor, firing);
    push_start(rows, actor, start)
}

/// Puts a start last among those of an actor.
fn push_start(
    rows: &mut Vec<Rows<Option<u128>>>,
    actor: u32,
    start: Option<u128>,
) -> Result<(), NoMemory>
    requires { actor < length rows.old.items }
    ensures { OnOk result (HasStart actor start rows.old.items rows.new.items) }
{
    rows[actor as usize].push(start)?;
    Ok(())
}

/// The start of a firing of an actor, of which the earlier ones have theirs.
fn start_of<F: Firing>(
    chains: &Chains<F>,
    rows: &[Rows<Option<u128>>],
    actor: u32,
    firing: u64,
) -> Option<u128>
    requires actor { actor < length (F.net chains.now.wired.now.net.now).times }
    requires long { length rows.now ≡ length (F.net chains.now.wired.now.net.now).times }
    requires few { firing ≤ ROUND }
    requires fed { (i : ℕ) → i < length (F.net chains.now.wired.now.net.now).channels → (channel_at (F.net chains.now.wired.now.net.now) i).target ≡ actor → IsFedBy (F.net chains.now.wired.now.net.now) rows.now i firing }
    requires small { AreSmall rows.now }
    ensures { IsLongest (IsLinkInto (F.net chains.now.wired.now.net.now) (slice_index chains.now.firsts.now) chains.now.token rows.now actor firing) result }
{
    know_laws(chains.wired.net);
    let mut start = None;
    for channel in chains.wired.inputs_of(actor) {
        start = later(start, arrival(chains, rows, *channel, firing));
    }
    start
}

/// When the tokens that a firing takes from a channel are all there.
fn arrival<F: Firing>(
    chains: &Chains<F>,
    rows: &[Rows<Option<u128>>],
    channel: u32,
    firing: u64,
) -> Option<u128>
    requires channel { channel < length (F.net chains.now.wired.now.net.now).channels }
    requires long { length rows.now ≡ length (F.net chains.now.wired.now.net.now).times }
    requires few { firing ≤ ROUND }
    requires fed { IsFedBy (F.net chains.now.wired.now.net.now) rows.now channel firing }
    requires small { AreSmall rows.now }
    ensures { IsLongest (IsLink (F.net chains.now.wired.now.net.now) (slice_index chains.now.firsts.now) chains.now.token rows.now channel firing) result }
{
    know_laws(chains.wired.net);
    let producers = producers_of(chains, channel, firing);
    let end = latest_end(chains, rows, channel, producers.first, producers.end);
    if producers.has_token {
        later(Some(0), end)
    } else {
        end
    }
}

/// The latest end of firings of a channel's source, from a first to one past the last.
fn latest_end<F: Firing>(
    chains: &Chains<F>,
    rows: &[Rows<Option<u128>>],
    channel: u32,
    first: u64,
    end: u64,
) -> Option<u128>
    requires channel { channel < length (F.net chains.now.wired.now.net.now).channels }
    requires long { length rows.now ≡ length (F.net chains.now.wired.now.net.now).times }
    requires there { (k : ℕ) → first ≤ k → k < end → k < length (slice_index_or rows.now (channel_at (F.net chains.now.wired.now.net.now) channel).source []) }
    requires small { AreSmall rows.now }
    ensures { IsLongest (IsEndIn (F.net chains.now.wired.now.net.now) rows.now channel first end) result }
{
    let mut latest = None;
    for producer in first..end {
        latest = later(latest, end_of(chains, rows, channel, producer));
    }
    latest
}

/// The end of a firing of a channel's source.
fn end_of<F: Firing>(
    chains: &Chains<F>,
    rows: &[Rows<Option<u128>>],
    channel: u32,
    producer: u64,
) -> Option<u128>
    requires channel { channel < length (F.net chains.now.wired.now.net.now).channels }
    requires long { length rows.now ≡ length (F.net chains.now.wired.now.net.now).times }
    requires there { producer < length (slice_index_or rows.now (channel_at (F.net chains.now.wired.now.net.now) channel).source []) }
    requires small { AreSmall rows.now }
    ensures { result ≡ later_by (time_of (F.net chains.now.wired.now.net.now) (channel_at (F.net chains.now.wired.now.net.now) channel).source producer)
        (start_in rows.now (channel_at (F.net chains.now.wired.now.net.now) channel).source producer) }
{
    know_laws(chains.wired.net);
    let source = chains.wired.net.source(channel);
    match start_at(rows, source, producer) {
        Some(start) => Some(start + u128::from(chains.wired.net.time(source, 0))),
        None => None,
    }
}

/// The start of a firing of an actor, if a chain leads to it.
pub(crate) fn start_at(rows: &[Rows<Option<u128>>], actor: u32, firing: u64) -> Option<u128>
    requires actor { actor < length rows.now }
    requires firing { firing < length (slice_index_or rows.now actor []) }
    ensures { result ≡ start_in rows.now actor firing }
{
    rows[actor as usize].as_slice()[firing as usize]
}

/// The later of two starts.
fn later(first: Option<u128>, second: Option<u128>) -> Option<u128>
    ensures { result ≡ later first second }
{
    match (first, second) {
        (None, other) => other,
        (Some(start), None) => Some(start),
        (Some(start), Some(other)) => Some(start.max(other)),
    }
}
