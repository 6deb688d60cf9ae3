ghost use Rattle.std.specs.Prelude.{◌≡◌, ℕ, ◌+◌, ◌<◌, ◌≤◌, [], ◌∷◌, ◌++◌, length, slice_get, slice_set, IfOk, OnOk, MatchOption, Some, None, replicate, true, false, ◌^◌};

use crate::lists::Lists;
use crate::walk::{Link, WalkStep};
use std::alloc::{AllocError, Global};

/// The step that led to an actor, from the one that was found at a place.
#[derive(Clone, Copy)]
pub(crate) struct Reach {
    /// The place, from 0, in the order in which actors are found.
    pub place: usize,
    pub step: WalkStep,
}

/// An actor that the search has found. Actor 0 was reached by no step.
#[derive(Clone, Copy)]
pub(crate) struct Found {
    pub actor: usize,
    pub reach: Option<Reach>,
}

/// A breadth-first search: what it has found, in this order, and by actor whether it is found.
#[derive(Drop)]
pub(crate) struct Search {
    pub found: Vec<Found>,
    pub seen: Vec<bool>,
}

ghost use Rattle.balance.specs.inside.Search.{IsIncidence, IsJoined, HasEnds, IsSearching, IsLooked, IsSearched, mark_at};

/// The ways from actor 0 to all actors that walks reach. Breadth first, over the channels in their order, so that
/// ways are found by rising numbers of steps, and of as many steps by rising lists of channels. Linear in actors and
/// channels: it looks at each channel at most twice, and keeps of each way its last step.
pub(crate) fn ways(alloc: Global, actors: usize, links: &[Link]) -> Result<Search, AllocError>
    requires some { 1 ≤ actors }
    requires few { length links.now ≤ 256 }
    requires ends { HasEnds actors links.now }
    ensures { IfOk result (λ s. IsSearched links.now actors s.found.items s.seen.items) }
{
    let incidence = incidence(alloc, actors, links)?;
    let mut search = begin(alloc, actors)?;
    for place in 0..actors {
        if place < search.found.len() {
            visit(&mut search, links, &incidence, place)?;
        }
    }
    Ok(search)
}

/// By actor the channels that join it with another one, in file order. A self-loop leads nowhere new and is in no list.
fn incidence(alloc: Global, actors: usize, links: &[Link]) -> Result<Lists, AllocError>
    requires few { length links.now ≤ 256 }
    requires ends { HasEnds actors links.now }
    ensures { IfOk result (λ lists. IsIncidence links.now (length links.now) actors lists.rows.items) }
{
    let mut lists = Lists::new(alloc, actors)?;
    for channel in 0..links.len() {
        join(&mut lists, channel as u32, links[channel])?;
    }
    Ok(lists)
}

/// Puts a channel on the lists of both its ends, where these are two.
fn join(lists: &mut Lists, channel: u32, link: Link) -> Result<(), AllocError>
    requires source { link.source < length lists.old.rows.items }
    requires target { link.target < length lists.old.rows.items }
    ensures { OnOk result (IsJoined lists.old.rows.items lists.new.rows.items channel link) }
{
    if link.source != link.target {
        lists.add(link.source, channel)?;
        lists.add(link.target, channel)?;
    }
    Ok(())
}

/// Actor 0 alone is found.
fn begin(alloc: Global, actors: usize) -> Result<Search, AllocError>
    requires { 1 ≤ actors }
    ensures { IfOk result (λ s. (x : _) × (s.found.items ≡ x ∷ []) × (x.actor ≡ 0) × (x.reach ≡ None)
        × (s.seen.items ≡ slice_set (replicate actors false) 0 true)) }
{
    let mut seen = unmarked(alloc, actors)?;
    seen[0] = true;
    let mut found = Vec::new(alloc);
    found.push(Found {
        actor: 0,
        reach: None,
    })?;
    Ok(Search { found, seen })
}

/// As many unset marks.
pub(crate) fn unmarked(alloc: Global, actors: usize) -> Result<Vec<bool>, AllocError>
    ensures { IfOk result (λ marks. marks.items ≡ replicate actors false) }
{
    let mut marks = Vec::new(alloc);
    for _actor in 0..actors {
        marks.push(false)?;
    }
    Ok(marks)
}

/// The least actor that isn't marked.
pub(crate) fn first_unmarked(marks: &[bool]) -> Option<u32>
    requires { length marks.now < 2 ^ 32 }
    ensures { MatchOption result ((b : ℕ) → b < length marks.now → mark_at marks.now b ≡ true)
        (λ b. (b < length marks.now) × (mark_at marks.now b ≡ false)
        × ((c : ℕ) → c < b → mark_at marks.now c ≡ true)) }
{
    for actor in 0..marks.len() {
        if !marks[actor] {
            return Some(actor as u32);
        }
    }
    None
}

/// Looks from the actor at a place over the channels that join it with others.
fn visit(
    search: &mut Search,
    links: &[Link],
    incidence: &Lists,
    place: usize,
) -> Result<(), AllocError>
    requires ends { HasEnds (length search.old.seen.items) links.now }
    requires incidence { IsIncidence links.now (length links.now) (length search.old.seen.items) incidence.now.rows.items }
    requires listed { place < length search.old.found.items }
    requires before { IsSearching links.now (length search.old.seen.items)
        search.old.found.items search.old.seen.items place 0 }
    ensures { OnOk result (IsSearching links.now (length search.old.seen.items)
        search.new.found.items search.new.seen.items (place + 1) 0) }
{
    let actor = search.found[place].actor;
    for channel in incidence.at(actor) {
        look(search, place, *channel, links[*channel as usize])?;
    }
    Ok(())
}

/// Looks from the actor at a place over one channel, forward and else backward, and takes a step to an actor that
/// isn't found yet.
fn look(search: &mut Search, place: usize, channel: u32, link: Link) -> Result<(), AllocError>
    requires listed { place < length search.old.found.items }
    requires source { link.source < length search.old.seen.items }
    requires target { link.target < length search.old.seen.items }
    ensures { OnOk result (IsLooked search.old.found.items search.old.seen.items
        search.new.found.items search.new.seen.items place channel link) }
{
    let from = search.found[place].actor;
    if from == link.source && !search.seen[link.target] {
        let forward = WalkStep {
            channel,
            forward: true,
        };
        return take(search, place, forward, link.target);
    }
    if from == link.target && !search.seen[link.source] {
        let backward = WalkStep {
            channel,
            forward: false,
        };
        return take(search, place, backward, link.source);
    }
    Ok(())
}

/// Finds the actor `to` by one step from the actor at a place.
fn take(search: &mut Search, place: usize, step: WalkStep, to: usize) -> Result<(), AllocError>
    requires { to < length search.old.seen.items }
    ensures { OnOk result ((new : _) × (search.new.found.items ≡ search.old.found.items ++ new ∷ []) × (new.actor ≡ to)
        × (new.reach ≡ Some (record { place = place; step = step }))
        × (search.new.seen.items ≡ slice_set search.old.seen.items to true)) }
{
    search.found.push(Found {
        actor: to,
        reach: Some(Reach { place, step }),
    })?;
    search.seen[to] = true;
    Ok(())
}
