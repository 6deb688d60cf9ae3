//! Orders that are given by the names of actors.
//!
//! Actors of earlier orders are marked. Whether an entry's actor stands in an earlier list is read off a mark, since lists
//! may be long; and pairs of neighbours are counted up to one more than may be. So 100,000 entries are read in a time
//! linear in them.
ghost use Rattle.std.specs.Prelude.{◌≡◌, ◌==◌, ◌||◌, ◌++◌, ◌∷◌, ◌<◌, ◌≤◌, [], ℕ, List, None, All, IfErr, IfOk, count_by, length, map, nat_lt, slice_index, not, ◌&&◌};
ghost use Rattle.std.specs.List.{list_any, position_or_len};
ghost use Rattle.std.specs.Str.{bytes_eq};
ghost use Rattle.sd_base.specs.declared.limits.TheConstants.{ACTORS};
ghost use Rattle.sd_base.specs.declared.tables.ActorRow.{ActorRow};
ghost use Rattle.sd_base.specs.Tables.{KeepsRules};
ghost use Rattle.ordered.specs.OrderedNets.{is_named, order_channels, order_channels_from};
ghost use Rattle.ordered.specs.NamedOrders.{Tells, actor_named, count_fault, entries_fault, entry_fault, first_fault, lists_of, order_fault, order_of, pairs_fault, standing};
ghost use Rattle.ordered.specs.inside.Marks.{is_marked};
ghost use Rattle.ordered.specs.declared.orders.OrderError.TheVariants.{NoMemory as lacking};

use crate::places::{has_entry, is_in_order};
use crate::steps::pairs_of;
use sd_base::limits::ORDER_PAIRS;
use sd_base::{ActorRow, GraphFile, NoMemory, Rows, Text};
use std::alloc::{AllocError, AllocFailed, Global};
use thiserror::Error;

/// Orders of firings, one a processor.
#[derive(Debug, Drop)]
pub struct Orders {
    /// By processor the actors whose firings it runs one after another, each as often as it fires in a round.
    pub lists: Rows<Rows<u32>>,
}

/// Why names give no orders: their first fault. Entries are tested before counts, and counts before pairs.
#[derive(Debug, Drop, Error)]
pub enum OrderError {
    /// No actor has the name of an entry.
    #[error("no actor has the name")]
    Unknown { name: Text },
    /// The actor that an entry names stands in an earlier order.
    #[error("the actor stands in an earlier order")]
    Elsewhere { name: Text },
    /// Of the actors that aren't found in their order as often as they fire in a round, the least.
    #[error("the actor doesn't stand in its order as often as it fires in a round")]
    Count { actor: u32, found: u64 },
    /// More pairs of actors follow each other in the orders than may.
    #[error("there are too many pairs of neighbours")]
    TooManyPairs,
    #[error("out of memory")]
    NoMemory,
}

impl From<AllocError> for OrderError {
    ghost from_gives = { λ _ e. e ≡ lacking };

    fn from(_error: AllocError) -> OrderError {
        OrderError::NoMemory
    }
}

impl From<NoMemory> for OrderError {
    ghost from_gives = { λ _ e. e ≡ lacking };

    fn from(_error: NoMemory) -> OrderError {
        OrderError::NoMemory
    }
}

impl<T: Drop> From<AllocFailed<T>> for OrderError {
    ghost from_gives = { λ _ e. e ≡ lacking };

    fn from(_error: AllocFailed<T>) -> OrderError {
        OrderError::NoMemory
    }
}

/// The orders of actors that are given by name, with `gamma` the firings of a round by actor; or their first fault. Cost: the
/// entries times the actors, and times the greatest number of pairs. Memory: linear in the entries.
pub fn orders_of(
    alloc: Global,
    graph: &GraphFile,
    gamma: &[u64],
    lists: &[Rows<Text>],
) -> Result<Orders, OrderError>
    requires rules { KeepsRules graph.now }
    requires gamma { length gamma.now ≡ length graph.now.actors }
    ensures found { IfOk result (λ o. o.lists ≡ lists_of graph.now.actors lists.now) }
    ensures whole { IfOk result (λ o. first_fault graph.now.actors gamma.now lists.now ≡ None) }
    ensures fault { IfErr result (λ e. Tells e (first_fault graph.now.actors gamma.now lists.now)) }
{
    let orders = numbered(alloc, graph.actors.as_slice(), lists)?;
    check_counts(&orders, gamma)?;
    check_pairs(alloc, &orders)?;
    Ok(orders)
}

/// The orders by the numbers of actors, or the first fault of an entry.
fn numbered(alloc: Global, actors: &[ActorRow], lists: &[Rows<Text>]) -> Result<Orders, OrderError>
    requires { length actors.now ≤ ACTORS }
    ensures found { IfOk result (λ o. o.lists ≡ lists_of actors.now lists.now) }
    ensures whole { IfOk result (λ o. entries_fault actors.now [] lists.now ≡ None) }
    ensures fault { IfErr result (λ e. Tells e (entries_fault actors.now [] lists.now)) }
{
    let mut orders = Orders {
        lists: Rows::new(alloc),
    };
    let mut marks = vec![in alloc; false; actors.len()]?;
    for list in lists {
        let names = list.as_slice();
        let order = numbered_order(alloc, actors, marks.as_slice(), names)?;
        mark(&mut marks, order.as_slice());
        orders.lists.push(order)?;
    }
    Ok(orders)
}

/// One order by the numbers of actors, or the first fault of an entry. Actors of earlier orders are marked.
fn numbered_order(
    alloc: Global,
    actors: &[ActorRow],
    marks: &[bool],
    names: &[Text],
) -> Result<Rows<u32>, OrderError>
    requires few { length actors.now ≤ ACTORS }
    requires marks { length marks.now ≡ length actors.now }
    ensures found { IfOk result (λ order. order ≡ order_of actors.now names.now) }
    ensures actors { IfOk result (All (λ a. a < length actors.now)) }
    ensures whole { IfOk result (λ order. order_fault actors.now (is_marked marks.now) names.now ≡ None) }
    ensures fault { IfErr result (λ e. Tells e (order_fault actors.now (is_marked marks.now) names.now)) }
{
    let mut order = Rows::new(alloc);
    for name in names {
        order.push(numbered_entry(alloc, actors, marks, name)?)?;
    }
    Ok(order)
}

/// The number of an entry's actor, or its fault.
#[tactic(auto, unfolding(crate::specs::NamedOrders::entry_fault))]
fn numbered_entry(
    alloc: Global,
    actors: &[ActorRow],
    marks: &[bool],
    name: &Text,
) -> Result<u32, OrderError>
    requires few { length actors.now ≤ ACTORS }
    requires marks { length marks.now ≡ length actors.now }
    ensures found { IfOk result (λ a. a ≡ actor_named actors.now name.now) }
    ensures actor { IfOk result (λ a. a < length actors.now) }
    ensures whole { IfOk result (λ a. entry_fault actors.now (is_marked marks.now) name.now ≡ None) }
    ensures fault { IfErr result (λ e. Tells e (entry_fault actors.now (is_marked marks.now) name.now)) }
{
    let actor = actor_named(actors, name.as_str());
    if actor >= actors.len() {
        return Err(OrderError::Unknown {
            name: name.copy(alloc)?,
        });
    }
    if marks[actor] {
        return Err(OrderError::Elsewhere {
            name: name.copy(alloc)?,
        });
    }
    Ok(actor as u32)
}

/// Marks the actors of an order.
fn mark(marks: &mut [bool], order: &[u32])
    requires { All (λ a. a < length marks.old) order.now }
    ensures { (a : ℕ) → a < length marks.old → is_marked marks.new a ≡ (is_marked marks.old a || list_any (λ b. b == a) order.now) }
{
    for actor in order {
        marks[*actor as usize] = true;
    }
}

/// The number of the actor of a name, or that of all actors.
fn actor_named(actors: &[ActorRow], name: &str) -> usize
    ensures { result ≡ actor_named actors.now name.now }
{
    for (actor, row) in actors.iter().enumerate() {
        if row.name.as_str() == name {
            return actor;
        }
    }
    actors.len()
}

/// Whether each actor that stands in an order does so as often as it fires in a round; else the first one that
/// doesn't.
fn check_counts(orders: &Orders, gamma: &[u64]) -> Result<(), OrderError>
    requires { length gamma.now ≤ ACTORS }
    ensures whole { IfOk result (λ done. count_fault orders.now.lists gamma.now 0 (length gamma.now) ≡ None) }
    ensures fault { IfErr result (λ e. Tells e (count_fault orders.now.lists gamma.now 0 (length gamma.now))) }
{
    for actor in 0..gamma.len() {
        let found = standing(orders, actor as u32);
        if is_short(orders, actor as u32, found, gamma[actor]) {
            return Err(OrderError::Count {
                actor: actor as u32,
                found,
            });
        }
    }
    Ok(())
}

/// Whether an actor that stands in an order isn't found there as often as it fires in a round.
fn is_short(orders: &Orders, actor: u32, found: u64, fires: u64) -> bool
    ensures { result ≡ (is_named orders.now.lists actor && not (found == fires)) }
{
    is_in_order(orders, actor) && found != fires
}

/// How many entries of the first order that has an actor are of it.
fn standing(orders: &Orders, actor: u32) -> u64
    ensures { result ≡ standing orders.now.lists actor }
{
    for order in orders.lists.as_slice() {
        let entries = order.as_slice();
        if has_entry(entries, actor) {
            return entries_of(entries, actor);
        }
    }
    0
}

/// How many entries of an order are of an actor.
fn entries_of(order: &[u32], actor: u32) -> u64
    ensures { result ≡ count_by (λ b. b == actor) order.now }
{
    let mut entries = 0;
    for entry in order {
        if *entry == actor {
            entries += 1;
        }
    }
    entries
}

/// Whether orders have no more pairs of neighbours than they may.
fn check_pairs(alloc: Global, orders: &Orders) -> Result<(), OrderError>
    ensures whole { IfOk result (λ done. pairs_fault orders.now.lists ≡ None) }
    ensures fault { IfErr result (λ e. Tells e (pairs_fault orders.now.lists)) }
{
    let mut pairs: u64 = 0;
    for order in orders.lists.as_slice() {
        let room = ORDER_PAIRS - pairs;
        let found = pairs_of(alloc, order.as_slice(), room as usize + 1)?;
        let more = found.len() as u64;
        if room < more {
            return Err(OrderError::TooManyPairs);
        }
        pairs += more;
    }
    Ok(())
}
