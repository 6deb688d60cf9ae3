//! The channels of an ordered net, in their order.
ghost use Rattle.std.specs.Prelude.{◌≡◌, ◌==◌, ◌≤◌, ◌<◌, ◌++◌, ◌∷◌, [], ℕ, List, All, IfOk, OnOk, length, map, replicate, slice_index};
ghost use Rattle.std.specs.List.{list_any};
ghost use Rattle.sd_base.specs.Net.{Net};
ghost use Rattle.sd_base.specs.Lawful.{is_own_role};
ghost use Rattle.sd_base.specs.FileNet.{own_channel};
ghost use Rattle.ordered.specs.Orders.{AreOrders};
ghost use Rattle.ordered.specs.OrderedNets.{is_named, order_channels, order_channels_from, ordered, own_or_new, owns_from, phases_in, rephased, with_role};
ghost use Rattle.ordered.specs.inside.Places.{Adds, IsPlaceOf, is_sort, new_channel, place_in};
ghost use Rattle.ordered.specs.inside.Steps.{FitRates};

use crate::orders::Orders;
use crate::steps::{order_channel_of, pairs_of};
use firing::{Firing, PhaseRates, know_laws, ones};
use sd_base::{NoMemory, Role};
use std::alloc::Global;

/// A channel that orders add to a net.
#[derive(Drop)]
pub(crate) struct NewChannel {
    pub(crate) source: u32,
    pub(crate) target: u32,
    pub(crate) made: PhaseRates,
    pub(crate) taken: PhaseRates,
    pub(crate) tokens: u64,
    pub(crate) role: Role,
}

/// A channel of an ordered net: one of the net, by its number, or a new one.
#[derive(Drop)]
pub(crate) enum Place {
    Kept(u32),
    New(NewChannel),
}

/// What stands together among the channels of an ordered net.
#[derive(Clone, Copy)]
pub(crate) enum Sort {
    /// The channels of the file.
    File,
    /// The own channel of an actor.
    Own(u32),
    /// The free spaces.
    Space,
}

/// The channels of the file, own channels by actor, free spaces, and order channels.
pub(crate) fn places_of<F: Firing>(
    alloc: Global,
    net: &F,
    orders: &Orders,
) -> Result<Vec<Place>, NoMemory>
    requires orders { AreOrders (F.net net.now) orders.now.lists }
    ensures over { IfOk result (λ v. All (IsPlaceOf (F.net net.now)) v.items) }
    ensures channels { IfOk result (λ v. map (place_in (F.net net.now) (phases_in (F.net net.now) orders.now.lists)) v.items
        ≡ (ordered (F.net net.now) orders.now.lists).channels) }
{
    know_laws(net);
    let mut places = Vec::new(alloc);
    push_kept(&mut places, net, Sort::File)?;
    for actor in 0..net.actors() {
        push_own(alloc, &mut places, net, orders, actor)?;
    }
    push_kept(&mut places, net, Sort::Space)?;
    for order in orders.lists.as_slice() {
        push_steps(alloc, &mut places, order.as_slice())?;
    }
    Ok(places)
}

/// Adds the channels of a sort.
fn push_kept<F: Firing>(places: &mut Vec<Place>, net: &F, sort: Sort) -> Result<(), NoMemory>
    ensures { OnOk result (Adds (F.net net.now) places.old.items places.new.items (λ phases. map (rephased phases) (with_role (is_sort sort) (F.net net.now).channels))) }
{
    for channel in 0..net.channels() {
        if is_of_sort(net.role(channel), sort) {
            places.push(Place::Kept(channel))?;
        }
    }
    Ok(())
}

/// Whether a role is of a sort.
fn is_of_sort(role: Role, sort: Sort) -> bool
    ensures { result ≡ is_sort sort role }
{
    match (sort, role) {
        (Sort::File, Role::Token(_)) => true,
        (Sort::Own(actor), Role::Own(owner)) => owner == actor,
        (Sort::Space, Role::Space(_)) => true,
        _ => false,
    }
}

/// Adds the own channel of an actor, or a new one where the actor has none and stands in an order.
fn push_own<F: Firing>(
    alloc: Global,
    places: &mut Vec<Place>,
    net: &F,
    orders: &Orders,
    actor: u32,
) -> Result<(), NoMemory>
    requires { actor < length (F.net net.now).times }
    ensures { OnOk result (Adds (F.net net.now) places.old.items places.new.items (λ phases. own_or_new (map (rephased phases) (with_role (is_own_role actor) (F.net net.now).channels))
        (is_named orders.now.lists actor) (own_channel actor (slice_index (F.net net.now).round actor)))) }
{
    let before = places.len();
    push_kept(places, net, Sort::Own(actor))?;
    if places.len() != before {
        return Ok(());
    }
    if !is_in_order(orders, actor) {
        return Ok(());
    }
    let own = own_channel_of(alloc, net, actor)?;
    places.push(Place::New(own))?;
    Ok(())
}

/// The own channel of an actor with a phase for each of its firings in a round.
fn own_channel_of<F: Firing>(alloc: Global, net: &F, actor: u32) -> Result<NewChannel, NoMemory>
    requires { actor < length (F.net net.now).times }
    ensures { IfOk result (λ c. new_channel c ≡ own_channel actor (slice_index (F.net net.now).round actor)) }
{
    know_laws(net);
    let rates = ones(alloc, net.round(actor) as u32)?;
    Ok(NewChannel {
        source: actor,
        target: actor,
        made: PhaseRates::of(alloc, rates.as_slice())?,
        taken: PhaseRates::of(alloc, rates.as_slice())?,
        tokens: 1,
        role: Role::Own(actor),
    })
}

/// Adds the order channels of an order.
fn push_steps(alloc: Global, places: &mut Vec<Place>, order: &[u32]) -> Result<(), NoMemory>
    requires { FitRates order.now }
    ensures { OnOk result ((net : Net) → Adds net places.old.items places.new.items (λ phases. order_channels_from order.now 0 (length order.now))) }
{
    let pairs = pairs_of(alloc, order, order.len())?;
    for pair in &pairs {
        let step = order_channel_of(alloc, order, pair.0, pair.1)?;
        places.push(Place::New(step))?;
    }
    Ok(())
}

/// Whether an actor stands in an order.
pub(crate) fn is_in_order(orders: &Orders, actor: u32) -> bool
    ensures { result ≡ is_named orders.now.lists actor }
{
    orders
        .lists
        .as_slice()
        .iter()
        .any(|order| has_entry(order.as_slice(), actor))
}

/// Whether an actor stands in an order.
pub(crate) fn has_entry(order: &[u32], actor: u32) -> bool
    ensures { result ≡ list_any (λ b. b == actor) order.now }
{
    order.iter().any(|entry| *entry == actor)
}
