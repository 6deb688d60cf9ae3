//! Where walks stop.
ghost use Rattle.std.specs.Prelude.{◌≡◌, ◌⊎◌, ◌<◌, ℕ, All, Contains, IfOk, List, MatchOption, OnOk, Option, length, vec_len};
ghost use Rattle.sd_base.specs.declared.limits.Limits.{Limits};
ghost use Rattle.sd_base.specs.Net.{Net};
ghost use Rattle.covers.specs.Lattices.{IsAmong};
ghost use Rattle.walks.specs.Walks.{AreOnLattice};
ghost use Rattle.pareto_search.specs.inside.Grounds.{IsGround};
ghost use Rattle.pareto_search.specs.inside.Knowledge.{IsTold};
ghost use Rattle.pareto_search.specs.inside.Stops.{AreAscending, AreLevel, HasStop, IsGoal, IsMet, IsPlace, IsReach, IsStop, IsStopTowards, IsTakenIn, against};

use covers::{Lattice, storage_within};
use sd_base::{NoMemory, Rows};
use std::alloc::Global;
use std::cmp::Ordering;
use walks::{Telling, Walk, walk};

/// Capacities at which a walk stopped.
#[derive(Drop)]
pub(crate) struct Stop {
    /// By channel of the file its capacity; 0 for a self-loop, which has none.
    pub(crate) capacities: Rows<u64>,
    /// The place of the telling by which the last step was taken; none at the corner.
    pub(crate) by: Option<usize>,
    /// The storage that the capacities need.
    pub(crate) storage: u64,
}

/// Walks to each of the goals. Of the capacities at which the walks stop it gives those that need the least storage, each once,
/// in lexicographic order. Cost: that of `walk` for each goal, and a pass over the stops so far.
pub(crate) fn stops_of(
    alloc: Global,
    lattice: &Lattice,
    tellings: &[Telling],
    goals: &[Rows<u64>],
) -> Result<Vec<Stop>, NoMemory>
    requires some { 0 < length goals.now }
    requires tellings { AreOnLattice lattice.now.axes tellings.now }
    requires goals { All (IsGoal lattice.now tellings.now) goals.now }
    ensures some { IfOk result (λ v. 0 < vec_len v) }
    ensures each { IfOk result (λ v. (net : Net) (limits : Limits) (corner : List (Option ℕ)) → IsGround net limits corner lattice.now →
        All (IsTold net limits corner lattice.now) tellings.now → All (IsStop net limits corner lattice.now tellings.now goals.now) v.items) }
    ensures level { IfOk result (λ v. AreLevel v.items) }
    ensures least { IfOk result (λ v. All (IsMet lattice.now tellings.now v.items) goals.now) }
{
    let mut stops = Vec::new(alloc);
    for goal in goals {
        let stop = stop_towards(alloc, lattice, tellings, goal.as_slice())?;
        keep(&mut stops, stop)?;
    }
    Ok(stops)
}

/// Where the walk towards a goal stops. Cost: that of `walk`.
fn stop_towards(
    alloc: Global,
    lattice: &Lattice,
    tellings: &[Telling],
    goal: &[u64],
) -> Result<Stop, NoMemory>
    requires tellings { AreOnLattice lattice.now.axes tellings.now }
    requires goal { IsGoal lattice.now tellings.now goal.now }
    ensures { IfOk result (IsStopTowards lattice.now tellings.now goal.now) }
{
    match walk_to(alloc, lattice, tellings, goal)? {
        Reach::Stopped(stop) => Ok(stop),
        Reach::Held(_) => unreachable!(),
    }
}

/// Keeps a stop unless it needs more than those that are there: in place of them where it needs less, and beside them where it
/// needs as much. Cost: linear in the stops.
fn keep(stops: &mut Vec<Stop>, stop: Stop) -> Result<(), NoMemory>
    requires { AreLevel stops.old.items }
    ensures taken { OnOk result (IsTakenIn stops.new.items stop) }
    ensures still { OnOk result ((s : Stop) → IsTakenIn stops.old.items s → IsTakenIn stops.new.items s) }
    ensures from { (s : Stop) → Contains stops.new.items s → (s ≡ stop) ⊎ Contains stops.old.items s }
    ensures level { AreLevel stops.new.items }
{
    match compare(stop.storage, stops.as_slice()) {
        Ordering::Less => {
            stops.clear();
            put(stops, stop)
        }
        Ordering::Equal => put(stops, stop),
        Ordering::Greater => Ok(()),
    }
}

/// How a storage compares with that of stops which all need the same; where there are none, as equal.
fn compare(storage: u64, stops: &[Stop]) -> Ordering
    ensures { result ≡ against storage stops.now }
{
    let [first, ..] = stops else {
        return Ordering::Equal;
    };
    storage.cmp(&first.storage)
}

/// Puts a stop at its place in lexicographic order, unless one has its capacities. Cost: linear in the stops.
fn put(stops: &mut Vec<Stop>, stop: Stop) -> Result<(), NoMemory>
    requires { AreAscending stops.old.items }
    ensures has { OnOk result (HasStop stops.new.items stop.capacities) }
    ensures kept { (s : Stop) → Contains stops.old.items s → Contains stops.new.items s }
    ensures from { (s : Stop) → Contains stops.new.items s → (s ≡ stop) ⊎ Contains stops.old.items s }
    ensures ascending { AreAscending stops.new.items }
{
    if let Some(place) = place_of(stops.as_slice(), stop.capacities.as_slice()) {
        stops.insert(place, stop)?;
    }
    Ok(())
}

/// The place of capacities among stops in lexicographic order; none where a stop has them. Cost: linear in the stops.
fn place_of(stops: &[Stop], capacities: &[u64]) -> Option<usize>
    ensures { MatchOption result (HasStop stops.now capacities.now) (IsPlace stops.now capacities.now) }
{
    for (place, stop) in stops.iter().enumerate() {
        match stop.capacities.as_slice().cmp(capacities) {
            Ordering::Less => {}
            Ordering::Equal => return None,
            Ordering::Greater => return Some(place),
        }
    }
    Some(stops.len())
}

/// Where a walk to a goal came to.
#[derive(Drop)]
pub(crate) enum Reach {
    /// Capacities of which nothing is known.
    Stopped(Stop),
    /// What the telling at this place holds back, and the goal has no more on the channels that it shows.
    Held(usize),
}

/// Where the walk to a goal comes to. Cost: that of `walk`.
pub(crate) fn walk_to(
    alloc: Global,
    lattice: &Lattice,
    tellings: &[Telling],
    goal: &[u64],
) -> Result<Reach, NoMemory>
    requires tellings { AreOnLattice lattice.now.axes tellings.now }
    requires goal { IsAmong lattice.now goal.now }
    ensures { IfOk result (IsReach lattice.now tellings.now goal.now) }
{
    match walk(alloc, lattice, tellings, goal)? {
        Walk::Held { place } => Ok(Reach::Held(place)),
        Walk::Stopped { capacities, by } => {
            let Some(storage) = storage_within(lattice, capacities.as_slice()) else {
                unreachable!()
            };
            Ok(Reach::Stopped(Stop {
                capacities,
                by,
                storage,
            }))
        }
    }
}
