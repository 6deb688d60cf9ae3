//! The net of a net whose actors keep orders.
#![tactic(auto, unfolding(crate::specs::inside::Places::with_places))]

ghost use Rattle.std.specs.Prelude.{◌≡◌, ◌↔◌, ◌≤◌, ◌<◌, All, IfOk, length, map};
ghost use Rattle.std.specs.List.{range_with_len};
ghost use Rattle.sd_base.specs.declared.limits.TheConstants.{NET_CHANNELS};
ghost use Rattle.sd_base.specs.Lawful.{Lawful};
ghost use Rattle.sd_base.specs.Schedules.{Admissible, Schedule};
ghost use Rattle.ordered.specs.Orders.{AreOrders, KeepsOrders};
ghost use Rattle.ordered.specs.OrderedNets.{CanBeOrdered, ordered, phases_in};
ghost use Rattle.ordered.specs.inside.Places.{AreTurns, IsPlaceOf, with_places};

use crate::orders::Orders;
use crate::places::{Place, is_in_order, places_of};
use firing::{Firing, know_laws, made_sum, taken_sum};
use sd_base::{NoMemory, Role};
use std::alloc::Global;

/// A net whose actors keep orders: each firing of an order starts when the one before it has ended.
pub struct Ordered<'a, F: Firing> {
    net: &'a F,
    phases: Vec<u32>,
    places: Vec<Place>,
    ghost turns: { AreTurns (F.net net.now) phases.items },
    ghost over: { All (IsPlaceOf (F.net net.now)) places.items },
    ghost laws: { Lawful (with_places (F.net net.now) phases.items places.items) },
}

// By hand, so that what drops one calls this, and does not drop each of its parts.
impl<F: Firing> Drop for Ordered<'_, F> {
    fn drop(self) {
        let Ordered {
            net: _net,
            phases: _phases,
            places: _places,
        } = self;
    }
}

impl<'a, F: Firing> Firing for Ordered<'a, F> {
    ghost net = { λ o. with_places (F.net o.net.now) o.phases.items o.places.items };

    ghost lawful = { λ o. o.laws };

    fn actors(&self) -> u32 {
        self.net.actors()
    }

    fn channels(&self) -> u32 {
        self.places.len() as u32
    }

    fn source(&self, channel: u32) -> u32 {
        match &self.places[channel as usize] {
            Place::Kept(kept) => self.net.source(*kept),
            Place::New(new) => new.source,
        }
    }

    fn target(&self, channel: u32) -> u32 {
        match &self.places[channel as usize] {
            Place::Kept(kept) => self.net.target(*kept),
            Place::New(new) => new.target,
        }
    }

    fn tokens(&self, channel: u32) -> u64 {
        match &self.places[channel as usize] {
            Place::Kept(kept) => self.net.tokens(*kept),
            Place::New(new) => new.tokens,
        }
    }

    fn size(&self, channel: u32) -> u64 {
        match &self.places[channel as usize] {
            Place::Kept(kept) => self.net.size(*kept),
            Place::New(_) => 1,
        }
    }

    fn phases(&self, actor: u32) -> u32 {
        self.phases[actor as usize]
    }

    fn time(&self, actor: u32, phase: u32) -> u64 {
        self.net.time(actor, phase % self.net.phases(actor))
    }

    fn made(&self, channel: u32, phase: u32) -> u64 {
        match &self.places[channel as usize] {
            Place::Kept(kept) => {
                let phases = self.net.phases(self.net.source(*kept));
                self.net.made(*kept, phase % phases)
            }
            Place::New(new) => new.made.at(phase),
        }
    }

    fn taken(&self, channel: u32, phase: u32) -> u64 {
        match &self.places[channel as usize] {
            Place::Kept(kept) => {
                let phases = self.net.phases(self.net.target(*kept));
                self.net.taken(*kept, phase % phases)
            }
            Place::New(new) => new.taken.at(phase),
        }
    }

    fn made_before(&self, channel: u32, phases: u32) -> u64 {
        match &self.places[channel as usize] {
            Place::Kept(kept) => made_sum(self.net, *kept, u128::from(phases)) as u64,
            Place::New(new) => new.made.before(phases),
        }
    }

    fn taken_before(&self, channel: u32, phases: u32) -> u64 {
        match &self.places[channel as usize] {
            Place::Kept(kept) => taken_sum(self.net, *kept, u128::from(phases)) as u64,
            Place::New(new) => new.taken.before(phases),
        }
    }

    fn round(&self, actor: u32) -> u64 {
        self.net.round(actor)
    }

    fn role(&self, channel: u32) -> Role {
        match &self.places[channel as usize] {
            Place::Kept(kept) => self.net.role(*kept),
            Place::New(new) => new.role,
        }
    }
}

impl<'a, F: Firing> Ordered<'a, F> {
    /// The net whose actors keep orders. Actors that stand in one have a phase for each firing of a round. Cost: the
    /// entries of each order times its pairs, and the product of actors and channels. Memory: 16 bytes for each pair and
    /// each firing of its two actors in a round, so 16 bytes for each entry and each pair that its actor is of: an end of
    /// an order channel has a rate for each phase.
    pub fn new(alloc: Global, net: &'a F, orders: &Orders) -> Result<Ordered<'a, F>, NoMemory>
        requires can { CanBeOrdered (F.net net.now) }
        requires orders { AreOrders (F.net net.now) orders.now.lists }
        requires few { length (ordered (F.net net.now) orders.now.lists).channels ≤ NET_CHANNELS }
        ensures net { IfOk result (λ o. ⟦<Ordered<'a, F> as Firing>⟧.net o ≡ ordered (F.net net.now) orders.now.lists) }
        ensures kept { IfOk result (λ o. (s : Schedule) → Admissible (⟦<Ordered<'a, F> as Firing>⟧.net o) s
            ↔ (Admissible (F.net net.now) s × KeepsOrders (F.net net.now) orders.now.lists s)) }
    {
        know_laws(net);
        let phases = phases_of(alloc, net, orders)?;
        let places = places_of(alloc, net, orders)?;
        Ok(Ordered {
            net,
            phases,
            places,
        })
    }
}

/// By actor its phases: one for each firing of a round where it stands in an order.
fn phases_of<F: Firing>(alloc: Global, net: &F, orders: &Orders) -> Result<Vec<u32>, NoMemory>
    ensures { IfOk result (λ v. v.items ≡ map (phases_in (F.net net.now) orders.now.lists) (range_with_len 0 (length (F.net net.now).times))) }
{
    know_laws(net);
    let mut phases = Vec::with_capacity(alloc, net.actors() as usize)?;
    for actor in 0..net.actors() {
        phases.push(phases_in_order(net, orders, actor))?;
    }
    Ok(phases)
}

fn phases_in_order<F: Firing>(net: &F, orders: &Orders, actor: u32) -> u32
    requires { actor < length (F.net net.now).times }
    ensures { result ≡ phases_in (F.net net.now) orders.now.lists actor }
{
    know_laws(net);
    if is_in_order(orders, actor) {
        net.round(actor) as u32
    } else {
        net.phases(actor)
    }
}
