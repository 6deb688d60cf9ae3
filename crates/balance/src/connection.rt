ghost use Rattle.std.specs.Prelude.{◌≡◌};
ghost use Rattle.balance.specs.declared.connection.ConnectError.TheVariants.{NoMemory};

use crate::lists::Lists;
use crate::search::{first_unmarked, unmarked};
use std::alloc::{AllocError, AllocFailed, Global};
use thiserror::Error;

/// Why a net isn't strongly connected.
#[derive(Debug, Drop, Error)]
pub enum ConnectError {
    /// No directed path leads from `from` to `to`.
    #[error("no way from actor {from} to actor {to}")]
    OneWay { from: u32, to: u32 },
    #[error("out of memory")]
    NoMemory,
}

impl From<AllocError> for ConnectError {
    ghost from_gives = { λ _ e. e ≡ NoMemory };

    fn from(_error: AllocError) -> ConnectError {
        ConnectError::NoMemory
    }
}

impl<T: Drop> From<AllocFailed<T>> for ConnectError {
    ghost from_gives = { λ _ e. e ≡ NoMemory };

    fn from(_error: AllocFailed<T>) -> ConnectError {
        ConnectError::NoMemory
    }
}

/// The actors that paths lead to: by actor whether it is marked, and the marked ones in the order in which they were
/// found.
#[derive(Drop)]
struct Marked {
    queue: Vec<u32>,
    marks: Vec<bool>,
}

/// Which way paths go.
#[derive(Clone, Copy)]
enum Direction {
    /// From the first actor of a pair to the second.
    Along,
    /// From the second to the first.
    Against,
}

ghost use Rattle.std.specs.Prelude.{◌≡◌, ℕ, ◌<◌, ◌≤◌, ◌↔◌, [], ◌∷◌, All, true, false, length, replicate, slice_set, IfErr, IfOk, IsTrue, MatchOption, OnOk};
ghost use Rattle.sd_base.specs.Connection.{AreStronglyConnected};
ghost use Rattle.balance.specs.ConnectRefusals.{AreActors, HasInput, IsConnectRefusal, IsFirstWithoutInput};
ghost use Rattle.balance.specs.inside.Search.{mark_at};
ghost use Rattle.balance.specs.inside.Reaching.{AreFollowers, AreLed, AreMarked, IsMarked, IsQueue, Leads, pair_from, pair_to};

/// Whether directed paths over the pairs `ends` lead from each actor to each other one. Cost: linear in actors and
/// pairs.
pub fn strongly_connected(
    alloc: Global,
    actors: u32,
    ends: &[(u32, u32)],
) -> Result<(), ConnectError>
    requires some { 1 ≤ actors }
    requires ends { AreActors actors ends.now }
    ensures connected { OnOk result (AreStronglyConnected actors ends.now) }
    ensures refusal { IfErr result (IsConnectRefusal actors ends.now) }
{
    let from_first = reached(alloc, actors, ends, Direction::Along)?;
    if let Some(to) = first_unmarked(&from_first) {
        return Err(ConnectError::OneWay { from: 0, to });
    }
    let to_first = reached(alloc, actors, ends, Direction::Against)?;
    if let Some(from) = first_unmarked(&to_first) {
        return Err(ConnectError::OneWay { from, to: 0 });
    }
    Ok(())
}

/// The least actor that no pair of `ends` enters. It takes no memory. Cost: at most actors times pairs.
pub fn no_input(actors: u32, ends: &[(u32, u32)]) -> Option<u32>
    requires some { 1 ≤ actors }
    requires ends { AreActors actors ends.now }
    ensures { MatchOption result ((a : ℕ) → a < actors → HasInput ends.now a)
        (IsFirstWithoutInput actors ends.now) }
{
    for actor in 0..actors {
        if !has_input(actor, ends) {
            return Some(actor);
        }
    }
    None
}

fn has_input(actor: u32, ends: &[(u32, u32)]) -> bool
    ensures { IsTrue result ↔ HasInput ends.now actor }
{
    ends.iter().any(|pair| pair.1 == actor)
}

/// By actor whether a path leads to it from actor 0, or from it to actor 0. Linear in actors and pairs: each pair is
/// looked at once.
fn reached(
    alloc: Global,
    actors: u32,
    ends: &[(u32, u32)],
    direction: Direction,
) -> Result<Vec<bool>, AllocError>
    requires some { 1 ≤ actors }
    requires ends { AreActors actors ends.now }
    ensures size { IfOk result (λ marks. length marks.items ≡ actors) }
    ensures led { IfOk result (λ marks. AreLed direction ends.now marks.items) }
    ensures all { IfOk result (λ marks. (v : ℕ) → Leads direction ends.now v → mark_at marks.items v ≡ true) }
{
    let next = followers(alloc, actors, ends, direction)?;
    let mut marked = begin(alloc, actors)?;
    for place in 0..actors as usize {
        if place < marked.queue.len() {
            let from = marked.queue[place];
            mark_all(&mut marked, next.at(from as usize))?;
        }
    }
    Ok(marked.marks)
}

/// By actor where the pairs lead that begin at it.
fn followers(
    alloc: Global,
    actors: u32,
    ends: &[(u32, u32)],
    direction: Direction,
) -> Result<Lists, AllocError>
    requires { AreActors actors ends.now }
    ensures { IfOk result (λ lists. AreFollowers direction ends.now (length ends.now) actors lists.rows.items) }
{
    let mut lists = Lists::new(alloc, actors as usize)?;
    for pair in ends {
        let (from, to) = directed(*pair, direction);
        lists.add(from as usize, to)?;
    }
    Ok(lists)
}

/// Where a pair begins and ends.
fn directed(pair: (u32, u32), direction: Direction) -> (u32, u32)
    ensures from { result.0 ≡ pair_from direction pair }
    ensures to { result.1 ≡ pair_to direction pair }
{
    match direction {
        Direction::Along => pair,
        Direction::Against => (pair.1, pair.0),
    }
}

/// Actor 0 alone is marked.
fn begin(alloc: Global, actors: u32) -> Result<Marked, AllocError>
    requires { 1 ≤ actors }
    ensures { IfOk result (λ r. (r.queue.items ≡ 0 ∷ []) × (r.marks.items ≡ slice_set (replicate actors false) 0 true)) }
{
    let mut marks = unmarked(alloc, actors as usize)?;
    marks[0] = true;
    let mut queue = Vec::new(alloc);
    queue.push(0)?;
    Ok(Marked { queue, marks })
}

/// Marks the actors of a list.
fn mark_all(marked: &mut Marked, next: &[u32]) -> Result<(), AllocError>
    requires actors { All (λ v. v < length marked.old.marks.items) next.now }
    requires before { IsQueue marked.old.queue.items marked.old.marks.items }
    ensures { OnOk result (AreMarked next.now (length next.now) marked.old.queue.items marked.old.marks.items
        marked.new.queue.items marked.new.marks.items) }
{
    for to in next {
        mark(marked, *to)?;
    }
    Ok(())
}

/// Marks an actor, and puts it at the end of the queue where it wasn't marked before.
fn mark(marked: &mut Marked, to: u32) -> Result<(), AllocError>
    requires { to < length marked.old.marks.items }
    ensures { OnOk result (IsMarked to marked.old.queue.items marked.old.marks.items
        marked.new.queue.items marked.new.marks.items) }
{
    if !marked.marks[to as usize] {
        marked.queue.push(to)?;
        marked.marks[to as usize] = true;
    }
    Ok(())
}
