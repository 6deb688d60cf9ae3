//! The order channels of an order.
ghost use Rattle.std.specs.Prelude.{◌≡◌, ◌==◌, ◌&&◌, ◌≤◌, ◌<◌, ℕ, IfOk, length, take};
ghost use Rattle.std.specs.List.{list_any};
ghost use Rattle.ordered.specs.Orders.{entry_at, one_if};
ghost use Rattle.ordered.specs.OrderedNets.{before, leads, order_channel, picked};
ghost use Rattle.ordered.specs.inside.Places.{new_channel};
ghost use Rattle.ordered.specs.inside.Steps.{beside_at, pairs_from};
ghost use Rattle.firing.specs.Csdf.{AreRates};

use crate::places::NewChannel;
use firing::PhaseRates;
use sd_base::{NoMemory, Role};
use std::alloc::Global;

/// A side of an entry in an order that is gone through again and again.
#[derive(Clone, Copy)]
pub(crate) enum Side {
    After,
    Before,
}

/// The actors of each two entries that follow each other, once each, the first after the last: all pairs, or the
/// first `most` of them. Cost: the entries times the pairs.
pub(crate) fn pairs_of(
    alloc: Global,
    order: &[u32],
    most: usize,
) -> Result<Vec<(u32, u32)>, NoMemory>
    ensures { IfOk result (λ v. v.items ≡ take most (pairs_from order.now 0 (length order.now))) }
{
    let mut pairs = Vec::new(alloc);
    for place in 0..order.len() {
        if pairs.len() >= most {
            return Ok(pairs);
        }
        let pair = (order[place], beside(order, place, Side::After));
        if !has_pair(pairs.as_slice(), pair) {
            pairs.push(pair)?;
        }
    }
    Ok(pairs)
}

/// Whether a pair is one of a list.
fn has_pair(pairs: &[(u32, u32)], pair: (u32, u32)) -> bool
    ensures { result ≡ list_any (λ (p : ℕ × ℕ). (p.0 == pair.0) && (p.1 == pair.1)) pairs.now }
{
    pairs
        .iter()
        .any(|known| known.0 == pair.0 && known.1 == pair.1)
}

/// The actor of the entry on a side of one.
fn beside(order: &[u32], place: usize, side: Side) -> u32
    requires { place < length order.now }
    ensures { result ≡ beside_at side order.now place }
{
    let entries = order.len();
    match side {
        Side::After => {
            if place + 1 < entries {
                order[place + 1]
            } else {
                order[0]
            }
        }
        Side::Before => {
            if place == 0 {
                order[entries - 1]
            } else {
                order[place - 1]
            }
        }
    }
}

/// The rates of an actor, by firing of a round: 1 where the entry on a side of its own is of another one.
fn rates_of(
    alloc: Global,
    order: &[u32],
    actor: u32,
    side: Side,
    other: u32,
) -> Result<Vec<u64>, NoMemory>
    ensures { IfOk result (λ v. v.items ≡ picked order.now actor (λ m. beside_at side order.now m == other) 0 (length order.now)) }
{
    let mut rates = Vec::new(alloc);
    for place in 0..order.len() {
        if order[place] == actor {
            rates.push(one_if(beside(order, place, side) == other))?;
        }
    }
    Ok(rates)
}

/// The order channel of a pair. Cost: linear in the entries.
pub(crate) fn order_channel_of(
    alloc: Global,
    order: &[u32],
    from: u32,
    to: u32,
) -> Result<NewChannel, NoMemory>
    requires some { 1 ≤ length order.now }
    requires made { AreRates (order_channel order.now from to).made }
    requires taken { AreRates (order_channel order.now from to).taken }
    ensures { IfOk result (λ c. new_channel c ≡ order_channel order.now from to) }
{
    let made = rates_of(alloc, order, from, Side::After, to)?;
    let taken = rates_of(alloc, order, to, Side::Before, from)?;
    Ok(NewChannel {
        source: from,
        target: to,
        made: PhaseRates::of(alloc, made.as_slice())?,
        taken: PhaseRates::of(alloc, taken.as_slice())?,
        tokens: one_if(wraps(order, from, to)),
        role: Role::Order(from, to),
    })
}

/// Whether the last entry is of the one actor, and the first of the other.
fn wraps(order: &[u32], from: u32, to: u32) -> bool
    requires { 1 ≤ length order.now }
    ensures { result ≡ leads order.now from to (before order.now 0) }
{
    order[order.len() - 1] == from && order[0] == to
}

/// 1 where a test is passed.
fn one_if(test: bool) -> u64
    ensures { result ≡ one_if test }
{
    if test { 1 } else { 0 }
}
