//! The search: turn by turn towards the least storage that nothing known covers.
ghost use Rattle.std.specs.Prelude.{◌≡◌, ◌+◌, ◌≤◌, ◌<◌, ◌↔◌, [], ℕ, IfErr, IfOk, IsTrue, OnOk, length, slice_index_or};
ghost use Rattle.sd_base.specs.declared.limits.TheConstants.{DISTRIBUTIONS, LEAST_DISTRIBUTIONS, LEAST_STATES, STATES, STORAGE};
ghost use Rattle.explore.specs.Explorations.{CountsFew, CountsLive, IsRefusal};
ghost use Rattle.explore.specs.Reachable.{IsExplorable};
ghost use Rattle.covers.specs.Searches.{IsLevel};
ghost use Rattle.pareto_search.specs.Entrances.{IsEvaluating};
ghost use Rattle.pareto_search.specs.TradeOffs.{IsTradeOff};
ghost use Rattle.pareto_search.specs.declared.stops.Stop.{Stop as AStop};
ghost use Rattle.pareto_search.specs.inside.Grounds.{IsBase, IsGround};
ghost use Rattle.pareto_search.specs.inside.Knowledge.{loops_in};
ghost use Rattle.pareto_search.specs.inside.Stops.{AreLevel};
ghost use Rattle.pareto_search.specs.inside.Turns.{AreStops, EntersOn, IsOnward, IsOver, IsSettling, IsStanding, IsTurned, IsUntil};

use crate::ceiling::keep_ceiling;
use crate::evaluating::{Ground, evaluate_stops};
use crate::first::first_of;
use crate::grid::{copy_of, lattice_of};
use crate::known::Known;
use crate::learning::learn_all;
use crate::point::point_at;
use crate::searching::{Due, Searching};
use crate::stops::{Stop, stops_of};
use covers::{Level, Order, Search};
use evaluations::{Exploring, Starts, wiring_of};
use explore::ExploreError;
use fanout::Gate;
use firing::{Firing, know_laws};
use pareto_front::Point;
use sd_base::{Fraction, Ledger, Limits, NoMemory, Steps};
use std::alloc::Global;
use std::thread::Threads;
use storage::corner;

/// How many uncovered vectors are walked to before what the walks come to is evaluated.
const WIDTH: usize = 2;

/// The Pareto points of all storage distributions within a limit, each with the lexicographically least distribution that
/// reaches it and the loop of its net. What each evaluation shows bounds the rates of other distributions, and a branch and
/// bound over these bounds asks for the least storage that none of them covers; walks lead there from the corner by steps that
/// what is known calls for, so that what is evaluated is what an exploration may come to. What is evaluated side by side needs
/// one storage, and the gate is entered with that storage for the level. The search ends with a point whose rate a need cycle on
/// no free space has, where one is found. A step is counted for each loop that is run. Cost: that of `evaluate` for each
/// distribution that is evaluated, in the field a small part of those that an exploration visits, of `level` of `covers` for
/// each level, and of `cycle_without_spaces` for each greater rate; memory linear in the distributions that are evaluated and
/// in the open nodes.
pub fn pareto_points<R: Threads + Sync, F: Firing + Sync, G: Gate + Sync, L: Ledger + Send>(
    rt: &R,
    alloc: Global,
    net: &F,
    limits: Limits,
    gate: &G,
    steps: &mut Steps<L>,
) -> Result<Vec<Point>, ExploreError>
    requires net { IsExplorable (F.net net.now) }
    requires total { limits.total ≤ STORAGE }
    requires some_states { LEAST_STATES ≤ limits.states }
    requires few_states { limits.states ≤ STATES }
    requires some { LEAST_DISTRIBUTIONS ≤ limits.distributions }
    requires few { limits.distributions ≤ DISTRIBUTIONS }
    ensures points { IfOk result (λ v. IsTradeOff (F.net net.now) limits v.items) }
    ensures refused { IfErr result (IsRefusal (F.net net.now) limits) }
    ensures least { IfOk result (λ v. steps.old.count + length v.items ≤ steps.new.count) }
    ensures live { IfOk result (λ _. (n : ℕ) → steps.new.count ≡ steps.old.count + n → CountsLive (F.net net.now) limits n) }
    ensures entered { IfOk result (λ _. (n : ℕ) → steps.new.count ≡ steps.old.count + n → IsEvaluating (F.net net.now) limits (G.entered gate.now) n) }
    ensures most { CountsFew (F.net net.now) limits steps.old.count steps.new.count }
    ensures rises { steps.old.count ≤ steps.new.count }
    ensures share { steps.new.share ≡ steps.old.share }
{
    know_laws(net);
    let corner = corner(alloc, net)?;
    let Some(_) = corner.total_within(net, limits.total) else {
        return Ok(Vec::new(alloc));
    };
    let wiring = wiring_of(alloc, net, &corner)?;
    let starts = Starts::of(alloc, net)?;
    let exploring = Exploring {
        alloc,
        net,
        wiring: &wiring,
        starts: &starts,
        limits,
    };
    let lattice = lattice_of(alloc, net, &corner, limits.total)?;
    let base = Ground {
        exploring: &exploring,
        corner: &corner,
        lattice: &lattice,
    };
    let mut searching = begin(&base)?;
    take_turns(rt, &base, gate, &mut searching, steps)?;
    Ok(searching.into_points())
}

/// Nothing is known.
fn begin<F: Firing>(base: &Ground<F>) -> Result<Searching, NoMemory>
    ensures standing { IfOk result (IsStanding (F.net base.now.exploring.now.net.now) base.now.exploring.now.limits base.now.corner.now.capacities base.now.lattice.now 0) }
    ensures none { IfOk result (λ s. s.known.tellings.items ≡ []) }
{
    let alloc = base.exploring.alloc;
    let lattice = copy_of(alloc, base.lattice, base.lattice.limit)?;
    Ok(Searching {
        bounds: Search::new(alloc, lattice, Order::Storage)?,
        known: Known {
            tellings: Vec::new(alloc),
            loops: Vec::new(alloc),
        },
        points: Vec::new(alloc),
        below: Fraction::new(0, 1),
        due: None,
    })
}

/// Takes turn after turn, until all is covered and no point is due.
fn take_turns<R: Threads + Sync, F: Firing + Sync, G: Gate + Sync, L: Ledger + Send>(
    rt: &R,
    base: &Ground<F>,
    gate: &G,
    searching: &mut Searching,
    steps: &mut Steps<L>,
) -> Result<(), ExploreError>
    requires base { IsBase (F.net base.now.exploring.now.net.now) base.now.exploring.now.limits base.now.corner.now.capacities base.now.lattice.now base.now.exploring.now.starts.now }
    requires standing { (floor : ℕ) × IsStanding (F.net base.now.exploring.now.net.now) base.now.exploring.now.limits base.now.corner.now.capacities base.now.lattice.now floor searching.old }
    requires none { searching.old.known.tellings.items ≡ [] }
    ensures over { OnOk result (IsOver (F.net base.now.exploring.now.net.now) base.now.exploring.now.limits base.now.corner.now.capacities base.now.lattice.now searching.new) }
    ensures entered { OnOk result (EntersOn (F.net base.now.exploring.now.net.now) base.now.corner.now.capacities (G.entered gate.now) searching.old.known.tellings.items searching.new.known.tellings.items) }
    ensures count { OnOk result (steps.new.count ≡ steps.old.count + loops_in searching.new.known.tellings.items) }
    ensures refused { IfErr result (IsRefusal (F.net base.now.exploring.now.net.now) base.now.exploring.now.limits) }
    ensures most { CountsFew (F.net base.now.exploring.now.net.now) base.now.exploring.now.limits steps.old.count steps.new.count }
    ensures rises { steps.old.count ≤ steps.new.count }
    ensures share { steps.new.share ≡ steps.old.share }
{
    'turns: while take_turn(rt, base, gate, searching, steps)? {}
    Ok(())
}

/// Evaluates towards the least storage that nothing covers, or, where that is past the storage of the point that is due,
/// settles this; answers whether there was either.
fn take_turn<R: Threads + Sync, F: Firing + Sync, G: Gate + Sync, L: Ledger + Send>(
    rt: &R,
    base: &Ground<F>,
    gate: &G,
    searching: &mut Searching,
    steps: &mut Steps<L>,
) -> Result<bool, ExploreError>
    requires base { IsBase (F.net base.now.exploring.now.net.now) base.now.exploring.now.limits base.now.corner.now.capacities base.now.lattice.now base.now.exploring.now.starts.now }
    requires standing { (floor : ℕ) × IsStanding (F.net base.now.exploring.now.net.now) base.now.exploring.now.limits base.now.corner.now.capacities base.now.lattice.now floor searching.old }
    ensures turned { IfOk result (IsTurned (F.net base.now.exploring.now.net.now) base.now.exploring.now.limits base.now.corner.now.capacities base.now.lattice.now searching.old searching.new) }
    ensures entered { OnOk result (EntersOn (F.net base.now.exploring.now.net.now) base.now.corner.now.capacities (G.entered gate.now) searching.old.known.tellings.items searching.new.known.tellings.items) }
    ensures count { OnOk result (steps.new.count + loops_in searching.old.known.tellings.items ≡ steps.old.count + loops_in searching.new.known.tellings.items) }
    ensures refused { IfErr result (IsRefusal (F.net base.now.exploring.now.net.now) base.now.exploring.now.limits) }
    ensures most { IfErr result (λ e. (before : ℕ) → steps.old.count ≡ before + loops_in searching.old.known.tellings.items → CountsFew (F.net base.now.exploring.now.net.now) base.now.exploring.now.limits before steps.new.count) }
    ensures rises { steps.old.count ≤ steps.new.count }
    ensures share { steps.new.share ≡ steps.old.share }
{
    let found = searching.bounds.level(base.exploring.alloc, WIDTH)?;
    if let Some(level) = until(found, searching.due) {
        go_on(rt, base, level, gate, searching, steps)?;
        return Ok(true);
    }
    match searching.due {
        Some(due) => {
            settle(rt, base, due, gate, searching, steps)?;
            Ok(true)
        }
        None => Ok(false),
    }
}

/// The level, unless it needs more storage than what is due.
fn until(level: Option<Level>, due: Option<Due>) -> Option<Level>
    ensures { IsUntil level due result }
{
    match (level, due) {
        (Some(level), Some(due)) => {
            if level.storage > due.total {
                None
            } else {
                Some(level)
            }
        }
        (level, _) => level,
    }
}

/// Evaluates towards the vectors of a level. Where a greater rate than any before is due then, a ceiling with it is looked for.
fn go_on<R: Threads + Sync, F: Firing + Sync, G: Gate + Sync, L: Ledger + Send>(
    rt: &R,
    base: &Ground<F>,
    level: Level,
    gate: &G,
    searching: &mut Searching,
    steps: &mut Steps<L>,
) -> Result<(), ExploreError>
    requires base { IsBase (F.net base.now.exploring.now.net.now) base.now.exploring.now.limits base.now.corner.now.capacities base.now.lattice.now base.now.exploring.now.starts.now }
    requires standing { IsStanding (F.net base.now.exploring.now.net.now) base.now.exploring.now.limits base.now.corner.now.capacities base.now.lattice.now level.storage searching.old }
    requires level { (most : ℕ) × IsLevel searching.old.bounds most level }
    ensures standing { OnOk result (IsStanding (F.net base.now.exploring.now.net.now) base.now.exploring.now.limits base.now.corner.now.capacities base.now.lattice.now level.storage searching.new) }
    ensures more { OnOk result (length searching.old.known.tellings.items < length searching.new.known.tellings.items) }
    ensures entered { OnOk result (EntersOn (F.net base.now.exploring.now.net.now) base.now.corner.now.capacities (G.entered gate.now) searching.old.known.tellings.items searching.new.known.tellings.items) }
    ensures count { OnOk result (steps.new.count + loops_in searching.old.known.tellings.items ≡ steps.old.count + loops_in searching.new.known.tellings.items) }
    ensures refused { IfErr result (IsRefusal (F.net base.now.exploring.now.net.now) base.now.exploring.now.limits) }
    ensures most { IfErr result (λ e. (before : ℕ) → steps.old.count ≡ before + loops_in searching.old.known.tellings.items → CountsFew (F.net base.now.exploring.now.net.now) base.now.exploring.now.limits before steps.new.count) }
    ensures rises { steps.old.count ≤ steps.new.count }
    ensures share { steps.new.share ≡ steps.old.share }
{
    let stops = stops_of(
        base.exploring.alloc,
        base.lattice,
        searching.known.tellings.as_slice(),
        level.vectors.as_slice(),
    )?;
    let earlier = searching.greatest();
    learn_from(rt, base, stops, level.storage, gate, searching, steps)?;
    keep_ceiling(base, earlier, searching)?;
    Ok(())
}

/// Evaluates stops side by side, and keeps what they tell; a greater rate than any before is due at this storage.
pub(crate) fn learn_from<R: Threads + Sync, F: Firing + Sync, G: Gate + Sync, L: Ledger + Send>(
    rt: &R,
    base: &Ground<F>,
    stops: Vec<Stop>,
    total: u64,
    gate: &G,
    searching: &mut Searching,
    steps: &mut Steps<L>,
) -> Result<(), ExploreError>
    requires base { IsBase (F.net base.now.exploring.now.net.now) base.now.exploring.now.limits base.now.corner.now.capacities base.now.lattice.now base.now.exploring.now.starts.now }
    requires standing { IsStanding (F.net base.now.exploring.now.net.now) base.now.exploring.now.limits base.now.corner.now.capacities base.now.lattice.now total searching.old }
    requires stops { AreStops (F.net base.now.exploring.now.net.now) base.now.exploring.now.limits base.now.corner.now.capacities base.now.lattice.now searching.old.known.tellings.items total stops.items }
    requires level { AreLevel stops.items }
    ensures standing { OnOk result (IsStanding (F.net base.now.exploring.now.net.now) base.now.exploring.now.limits base.now.corner.now.capacities base.now.lattice.now total searching.new) }
    ensures onward { OnOk result (IsOnward base.now.lattice.now total searching.old searching.new) }
    ensures more { OnOk result (length searching.old.known.tellings.items < length searching.new.known.tellings.items) }
    ensures entered { OnOk result (EntersOn (F.net base.now.exploring.now.net.now) base.now.corner.now.capacities (G.entered gate.now) searching.old.known.tellings.items searching.new.known.tellings.items) }
    ensures count { OnOk result (steps.new.count + loops_in searching.old.known.tellings.items ≡ steps.old.count + loops_in searching.new.known.tellings.items) }
    ensures refused { IfErr result (IsRefusal (F.net base.now.exploring.now.net.now) base.now.exploring.now.limits) }
    ensures most { IfErr result (λ e. (before : ℕ) → steps.old.count ≡ before + loops_in searching.old.known.tellings.items → CountsFew (F.net base.now.exploring.now.net.now) base.now.exploring.now.limits before steps.new.count) }
    ensures rises { steps.old.count ≤ steps.new.count }
    ensures share { steps.new.share ≡ steps.old.share }
{
    let from = searching.known.tellings.len();
    if !has_room(base.exploring.limits.distributions, from, stops.len()) {
        return Err(ExploreError::DistributionsSpent);
    }
    let level = level_of(stops.as_slice());
    let answers = evaluate_stops(
        rt,
        base,
        searching.known.tellings.as_slice(),
        stops.as_slice(),
        level,
        searching.below,
        gate,
        steps,
    )?;
    learn_all(base, answers, &mut searching.known)?;
    searching.absorb(base, from, total)?;
    Ok(())
}

/// Whether so many more are allowed.
fn has_room(most: u64, from: usize, more: usize) -> bool
    ensures { IsTrue result ↔ from + more ≤ most }
{
    let from = from as u64;
    let more = more as u64;
    from <= most && more <= most - from
}

/// The storage of the first stop.
fn level_of(stops: &[Stop]) -> u64
    requires { 0 < length stops.now }
    ensures { (s : AStop) → result ≡ (slice_index_or stops.now 0 s).storage }
{
    stops[0].storage
}

/// Makes a point of what is due, and goes on past its storage.
fn settle<R: Threads + Sync, F: Firing + Sync, G: Gate + Sync, L: Ledger + Send>(
    rt: &R,
    base: &Ground<F>,
    due: Due,
    gate: &G,
    searching: &mut Searching,
    steps: &mut Steps<L>,
) -> Result<(), ExploreError>
    requires base { IsBase (F.net base.now.exploring.now.net.now) base.now.exploring.now.limits base.now.corner.now.capacities base.now.lattice.now base.now.exploring.now.starts.now }
    requires settling { IsSettling (F.net base.now.exploring.now.net.now) base.now.exploring.now.limits base.now.corner.now.capacities base.now.lattice.now due searching.old }
    ensures standing { OnOk result (IsStanding (F.net base.now.exploring.now.net.now) base.now.exploring.now.limits base.now.corner.now.capacities base.now.lattice.now (due.total + 1) searching.new) }
    ensures none { OnOk result (searching.new.due ≡ None) }
    ensures more { OnOk result (length searching.old.known.tellings.items ≤ length searching.new.known.tellings.items) }
    ensures entered { OnOk result (EntersOn (F.net base.now.exploring.now.net.now) base.now.corner.now.capacities (G.entered gate.now) searching.old.known.tellings.items searching.new.known.tellings.items) }
    ensures count { OnOk result (steps.new.count + loops_in searching.old.known.tellings.items ≡ steps.old.count + loops_in searching.new.known.tellings.items) }
    ensures refused { IfErr result (IsRefusal (F.net base.now.exploring.now.net.now) base.now.exploring.now.limits) }
    ensures most { IfErr result (λ e. (before : ℕ) → steps.old.count ≡ before + loops_in searching.old.known.tellings.items → CountsFew (F.net base.now.exploring.now.net.now) base.now.exploring.now.limits before steps.new.count) }
    ensures rises { steps.old.count ≤ steps.new.count }
    ensures share { steps.new.share ≡ steps.old.share }
{
    let place = first_of(rt, base, due, gate, searching, steps)?;
    let point = point_at(base, due, place, &mut searching.known)?;
    searching.points.push(point)?;
    searching.below = due.rate;
    searching.due = None;
    searching.known.loops.clear();
    Ok(())
}
