ghost use Rattle.std.specs.Prelude.{◌≡◌, ◌↔◌, ◌≤◌, ◌<◌, ◌∷◌, [], All, IsPermutation, IfSome, IsTrue, MatchOption, OnOk, length, slice_index_or};
ghost use Rattle.std.specs.BinaryHeap.{IsHeap, heap_items};
ghost use Rattle.std.proofs.Props.{props};
ghost use Rattle.selftimed.specs.inside.EventQueues.{Entry, entry, later_end, IsSoonest, TakesDue};

use std::alloc::{AllocError, Global};
use std::cmp::Reverse;
use std::collections::BinaryHeap;
use std::marker::Model;

/// The ends to come of so many actors are looked through one by one.
const FEW: u32 = 16;

/// The ends to come, each with the actor whose firing it ends. Contracts see a list of them, in no order. Where they can be but
/// few they stand as they came and are looked through, which costs less than an order of them does; else they are a
/// heap with the soonest on top.
#[derive(Drop)]
pub(crate) struct Calendar {
    few: Vec<(Reverse<u64>, u32)>,
    many: BinaryHeap<(Reverse<u64>, u32)>,
    is_small: bool,
    ghost ordered: { IsHeap later_end (heap_items many) } by { Prim.hlevel props },
}

impl Model for Calendar {
    ghost use Rattle.std.specs.Prelude.{◌≡◌, List, [], ◌++◌, IsFalse, IsTrue};
    ghost use Rattle.std.specs.BinaryHeap.{heap_items};
    ghost use Rattle.selftimed.specs.inside.EventQueues.{Entry};

    ghost Value = { List Entry };

    ghost view = { λ c. c.few.items ++ heap_items c.many };

    ghost invariant = { λ c. (IsTrue c.is_small → heap_items c.many ≡ []) × (IsFalse c.is_small → c.few.items ≡ []) };
}

impl Calendar {
    pub(crate) fn new(alloc: Global) -> Calendar
        ensures { result ≡ [] }
    {
        Calendar {
            few: Vec::new(alloc),
            many: BinaryHeap::new(alloc),
            is_small: true,
        }
    }

    /// Makes it one of so many actors, without an end.
    pub(crate) fn clear(&mut self, actors: u32)
        ensures { self.new ≡ [] }
    {
        self.few.clear();
        self.many.clear();
        self.is_small = actors <= FEW;
    }

    /// The soonest end.
    #[inline(always)]
    pub(crate) fn soonest(&self) -> Option<u64>
        ensures { IsSoonest self.now result }
    {
        if self.is_small {
            soonest_of(self.few.as_slice())
        } else {
            top_of(&self.many)
        }
    }

    /// Takes off an end that has come by a moment, and tells its actor. Cost: logarithmic in the ends.
    #[inline(always)]
    pub(crate) fn pop_due(&mut self, moment: u64) -> Option<u32>
        ensures { TakesDue moment self.old self.new result }
    {
        if !self.is_small {
            return pop_top(&mut self.many, moment);
        }
        let place = place_of_due(self.few.as_slice(), moment)?;
        let (_end, actor) = self.few.swap_remove(place);
        Some(actor)
    }

    /// Adds an end. Cost: logarithmic in the ends.
    #[inline(always)]
    pub(crate) fn push(&mut self, end: u64, actor: u32) -> Result<(), AllocError>
        ensures { OnOk result (IsPermutation (entry end actor ∷ self.old) self.new) }
    {
        if self.is_small {
            self.few.push((Reverse(end), actor))?;
        } else {
            self.many.push((Reverse(end), actor))?;
        }
        Ok(())
    }
}

/// The soonest end in a heap.
#[inline(always)]
fn top_of(ends: &BinaryHeap<(Reverse<u64>, u32)>) -> Option<u64>
    requires { IsHeap later_end (heap_items ends.now) }
    ensures { IsSoonest (heap_items ends.now) result }
{
    match ends.peek() {
        Some((Reverse(end), _actor)) => Some(*end),
        None => None,
    }
}

/// Takes the soonest end off a heap, if it has come by a moment, and tells its actor.
fn pop_top(ends: &mut BinaryHeap<(Reverse<u64>, u32)>, moment: u64) -> Option<u32>
    requires { IsHeap later_end (heap_items ends.old) }
    ensures taken { TakesDue moment (heap_items ends.old) (heap_items ends.new) result }
    ensures order { IsHeap later_end (heap_items ends.new) }
{
    match top_of(ends) {
        Some(end) => {
            if moment < end {
                return None;
            }
        }
        None => return None,
    }
    match ends.pop() {
        Some((_end, actor)) => Some(actor),
        None => None,
    }
}

/// The soonest of some ends.
#[inline(always)]
fn soonest_of(ends: &[(Reverse<u64>, u32)]) -> Option<u64>
    ensures { IsSoonest ends.now result }
{
    let mut soonest = None;
    for (Reverse(end), _actor) in ends {
        if is_sooner(*end, soonest) {
            soonest = Some(*end);
        }
    }
    soonest
}

/// Whether a moment is before another one, or there is no other.
#[inline(always)]
fn is_sooner(end: u64, other: Option<u64>) -> bool
    ensures { IsTrue result ↔ IfSome other (λ t. end < t) }
{
    match other {
        Some(moment) => end < moment,
        None => true,
    }
}

/// The place of an end that has come by a moment.
#[inline(always)]
fn place_of_due(ends: &[(Reverse<u64>, u32)], moment: u64) -> Option<usize>
    ensures { MatchOption result (All (λ (e : Entry). moment < e.0.0) ends.now)
        (λ place. (place < length ends.now) × ((slice_index_or ends.now place (entry 0 0)).0.0 ≤ moment)) }
{
    for (place, (Reverse(end), _actor)) in ends.iter().enumerate() {
        if *end <= moment {
            return Some(place);
        }
    }
    None
}
