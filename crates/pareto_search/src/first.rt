//! The lexicographically first distribution that reaches a point.
ghost use Rattle.std.specs.Prelude.{◌≡◌, ◌+◌, ◌≤◌, ◌<◌, ◌++◌, ◌∷◌, [], ℕ, All, IfErr, IfOk, List, OnOk, length};
ghost use Rattle.covers.specs.declared.lattice.Lattice.{Lattice as ALattice};
ghost use Rattle.covers.specs.Lattices.{storage_of};
ghost use Rattle.covers.specs.Searches.{IsSearched};
ghost use Rattle.explore.specs.Explorations.{CountsFew, IsRefusal};
ghost use Rattle.walks.specs.Walks.{AreOnLattice};
ghost use Rattle.walks.specs.declared.telling.Telling.{Telling as ATelling};
ghost use Rattle.pareto_search.specs.declared.searching.Due.{Due as ADue};
ghost use Rattle.pareto_search.specs.inside.Firsts.{IsFirstAt, IsLeft, IsLooked, IsSlower, IsStopWithin};
ghost use Rattle.pareto_search.specs.inside.Grounds.{IsBase};
ghost use Rattle.pareto_search.specs.inside.Knowledge.{loops_in};
ghost use Rattle.pareto_search.specs.inside.Turns.{EntersOn, IsSettling};

use crate::evaluating::Ground;
use crate::grid::copy_of;
use crate::learning::bound_of;
use crate::search::learn_from;
use crate::searching::{Due, Searching, is_above};
use crate::stops::{Reach, Stop, walk_to};
use covers::{Lattice, Order, Search};
use explore::ExploreError;
use fanout::Gate;
use firing::Firing;
use sd_base::{Ledger, NoMemory, Steps};
use std::alloc::Global;
use std::thread::Threads;
use walks::Telling;

/// The place of the telling of the lexicographically first distribution that needs the storage of what is due and has its
/// rate: the first vector within that storage that no bound of a lesser rate covers. Cost: an evaluation for each vector that
/// turns out to have a lesser rate, and that of `first` of `covers` for each.
pub(crate) fn first_of<R: Threads + Sync, F: Firing + Sync, G: Gate + Sync, L: Ledger + Send>(
    rt: &R,
    base: &Ground<F>,
    due: Due,
    gate: &G,
    searching: &mut Searching,
    steps: &mut Steps<L>,
) -> Result<usize, ExploreError>
    requires base { IsBase (F.net base.now.exploring.now.net.now) base.now.exploring.now.limits base.now.corner.now.capacities base.now.lattice.now base.now.exploring.now.starts.now }
    requires settling { IsSettling (F.net base.now.exploring.now.net.now) base.now.exploring.now.limits base.now.corner.now.capacities base.now.lattice.now due searching.old }
    ensures settling { OnOk result (IsSettling (F.net base.now.exploring.now.net.now) base.now.exploring.now.limits base.now.corner.now.capacities base.now.lattice.now due searching.new) }
    ensures first { IfOk result (IsFirstAt base.now.lattice.now due searching.new.known.tellings.items) }
    ensures more { OnOk result (length searching.old.known.tellings.items ≤ length searching.new.known.tellings.items) }
    ensures entered { OnOk result (EntersOn (F.net base.now.exploring.now.net.now) base.now.corner.now.capacities (G.entered gate.now) searching.old.known.tellings.items searching.new.known.tellings.items) }
    ensures count { OnOk result (steps.new.count + loops_in searching.old.known.tellings.items ≡ steps.old.count + loops_in searching.new.known.tellings.items) }
    ensures refused { IfErr result (IsRefusal (F.net base.now.exploring.now.net.now) base.now.exploring.now.limits) }
    ensures most { IfErr result (λ e. (before : ℕ) → steps.old.count ≡ before + loops_in searching.old.known.tellings.items → CountsFew (F.net base.now.exploring.now.net.now) base.now.exploring.now.limits before steps.new.count) }
    ensures rises { steps.old.count ≤ steps.new.count }
    ensures share { steps.new.share ≡ steps.old.share }
{
    let mut slower = slower_search(base, due, searching.known.tellings.as_slice())?;
    'looks: loop {
        match look(base, &mut slower, searching.known.tellings.as_slice())? {
            Reach::Held(place) => return Ok(place),
            Reach::Stopped(stop) => {
                learn_stop(rt, base, due, stop, gate, &mut slower, searching, steps)?;
            }
        }
    }
}

/// A search in lexicographic order within the storage of what is due, by the bounds of lesser rates.
fn slower_search<F: Firing>(
    base: &Ground<F>,
    due: Due,
    tellings: &[Telling],
) -> Result<Search, NoMemory>
    requires { 1 ≤ due.rate.num }
    ensures { IfOk result (IsSlower base.now.lattice.now due tellings.now) }
{
    let alloc = base.exploring.alloc;
    let lattice = copy_of(alloc, base.lattice, due.total)?;
    let mut slower = Search::new(alloc, lattice, Order::Lexicographic)?;
    add_slower(alloc, tellings, due, &mut slower)?;
    Ok(slower)
}

/// Adds the bounds of the tellings of lesser rates, all in force. Cost: linear in the channels that they show.
fn add_slower(
    alloc: Global,
    tellings: &[Telling],
    due: Due,
    slower: &mut Search,
) -> Result<(), NoMemory>
    requires { IsSearched slower.old }
    ensures { OnOk result ((lattice : ALattice) (ts : List ATelling) → IsSlower lattice due ts slower.old → IsSlower lattice due (ts ++ tellings.now) slower.new) }
{
    for telling in tellings {
        add_one(alloc, telling, due, slower)?;
    }
    Ok(())
}

/// Adds the bound of a telling, if its rate is lesser.
fn add_one(alloc: Global, telling: &Telling, due: Due, slower: &mut Search) -> Result<(), NoMemory>
    requires { IsSearched slower.old }
    ensures searched { IsSearched slower.new }
    ensures added { OnOk result ((lattice : ALattice) (ts : List ATelling) → IsSlower lattice due ts slower.old → IsSlower lattice due (ts ++ telling.now ∷ []) slower.new) }
{
    let rate = telling.rate;
    if is_above(due.rate, rate) {
        slower.add(bound_of(alloc, telling)?)?;
        slower.reach(rate);
    }
    Ok(())
}

/// Where a walk to the first vector ends that no bound of a lesser rate covers.
fn look<F: Firing>(
    base: &Ground<F>,
    slower: &mut Search,
    tellings: &[Telling],
) -> Result<Reach, NoMemory>
    requires tellings { AreOnLattice base.now.lattice.now.axes tellings.now }
    requires left { IsLeft base.now.lattice.now tellings.now slower.old }
    ensures slower { OnOk result ((due : ADue) → IsSlower base.now.lattice.now due tellings.now slower.old → IsSlower base.now.lattice.now due tellings.now slower.new) }
    ensures looked { IfOk result (IsLooked base.now.lattice.now tellings.now slower.new) }
{
    match slower.first(base.exploring.alloc)? {
        Some(goal) => walk_to(
            base.exploring.alloc,
            base.lattice,
            tellings,
            goal.as_slice(),
        ),
        None => unreachable!(),
    }
}

/// Evaluates where a walk stopped, and adds the bounds of what that told.
fn learn_stop<R: Threads + Sync, F: Firing + Sync, G: Gate + Sync, L: Ledger + Send>(
    rt: &R,
    base: &Ground<F>,
    due: Due,
    stop: Stop,
    gate: &G,
    slower: &mut Search,
    searching: &mut Searching,
    steps: &mut Steps<L>,
) -> Result<(), ExploreError>
    requires base { IsBase (F.net base.now.exploring.now.net.now) base.now.exploring.now.limits base.now.corner.now.capacities base.now.lattice.now base.now.exploring.now.starts.now }
    requires settling { IsSettling (F.net base.now.exploring.now.net.now) base.now.exploring.now.limits base.now.corner.now.capacities base.now.lattice.now due searching.old }
    requires slower { IsSlower base.now.lattice.now due searching.old.known.tellings.items slower.old }
    requires stop { IsStopWithin base.now.lattice.now searching.old.known.tellings.items due.total stop }
    ensures settling { OnOk result (IsSettling (F.net base.now.exploring.now.net.now) base.now.exploring.now.limits base.now.corner.now.capacities base.now.lattice.now due searching.new) }
    ensures slower { OnOk result (IsSlower base.now.lattice.now due searching.new.known.tellings.items slower.new) }
    ensures more { OnOk result (length searching.old.known.tellings.items < length searching.new.known.tellings.items) }
    ensures entered { OnOk result (EntersOn (F.net base.now.exploring.now.net.now) base.now.corner.now.capacities (G.entered gate.now) searching.old.known.tellings.items searching.new.known.tellings.items) }
    ensures count { OnOk result (steps.new.count + loops_in searching.old.known.tellings.items ≡ steps.old.count + loops_in searching.new.known.tellings.items) }
    ensures refused { IfErr result (IsRefusal (F.net base.now.exploring.now.net.now) base.now.exploring.now.limits) }
    ensures most { IfErr result (λ e. (before : ℕ) → steps.old.count ≡ before + loops_in searching.old.known.tellings.items → CountsFew (F.net base.now.exploring.now.net.now) base.now.exploring.now.limits before steps.new.count) }
    ensures rises { steps.old.count ≤ steps.new.count }
    ensures share { steps.new.share ≡ steps.old.share }
{
    let from = searching.known.tellings.len();
    let stops = one_stop(base.exploring.alloc, stop)?;
    learn_from(rt, base, stops, due.total, gate, searching, steps)?;
    add_slower(
        base.exploring.alloc,
        &searching.known.tellings.as_slice()[from..],
        due,
        slower,
    )?;
    Ok(())
}

/// A stop by itself.
fn one_stop(alloc: Global, stop: Stop) -> Result<Vec<Stop>, NoMemory>
    ensures { IfOk result (λ v. v.items ≡ stop ∷ []) }
{
    let mut stops = Vec::new(alloc);
    stops.push(stop)?;
    Ok(stops)
}
