//! The shared channels on which more room could raise the worst rate.
ghost use Rattle.std.specs.Prelude.{◌≡◌, ◌↔◌, ◌+◌, ◌/◌, ◌^◌, ◌<◌, ◌≤◌, ◌⊎◌, ℕ, Some, true, false, Contains, IfOk, IsTrue, OnOk, length, slice_index, slice_index_or};
ghost use Rattle.bounded_scenarios.specs.BoundedFiles.{bounded_file};
ghost use Rattle.bounded_scenarios.specs.StorageRates.{AllRun};
ghost use Rattle.entry_ways.specs.declared.marking.EntryPlace.{EntryPlace as SomeEntry};
ghost use Rattle.scenario_storage.specs.inside.Levels.{IsPlan, IsWithin};
ghost use Rattle.scenario_storage.specs.inside.Ratings.{IsBlockedAt, IsGraphOf};
ghost use Rattle.scenario_storage.specs.inside.Shown.{AreShownBlocked, AreShownLive, AreSpaceMarks, AreSpacesWithin, BeginAtStates, HasSpace, HaveWays, IsEntryIn, IsWaitedFor, WaitsFor, place_of, scenario_at, spaces_from};

use crate::plan::Plan;
use crate::scenario::{gamma_at, graph_at};
use automaton::{Edge, TimedGraph};
use entry_ways::{EntryPlace, mark_ways};
use firing::{Firing, SdfNet, can_fire, know_laws, lacks};
use sd_base::{NoMemory, Rows, ScenarioFile, StateRow};
use std::alloc::Global;
use storage::Distribution;

/// The shared channels for whose free space an actor of a blocked scenario waits that lacks no token. Cost: linear in the
/// channels of the scenario, for each shared channel.
pub(crate) fn shown_by_counts(
    plan: &Plan,
    capacities: &Distribution,
    bounded: &ScenarioFile,
    scenario: usize,
    counts: &[u64],
) -> Result<Rows<u32>, NoMemory>
    requires plan { IsPlan plan.now.file.now plan.now.gammas.now plan.now.limits }
    requires fits { IsWithin plan.now.file.now plan.now.limits.total capacities.now.capacities }
    requires bounded { bounded.now ≡ bounded_file plan.now.file.now capacities.now.capacities }
    requires blocked { IsBlockedAt plan.now.file.now plan.now.gammas.now capacities.now.capacities scenario counts.now }
    ensures { IfOk result (AreShownBlocked plan.now.file.now capacities.now.capacities) }
{
    let graph = graph_at(plan.file, scenario);
    let gamma = gamma_at(plan.gammas, scenario);
    let spaces = spaces_of(plan.alloc, graph.channels.len() as u32, capacities)?;
    let net = SdfNet::new(plan.alloc, graph, gamma, false)?;
    let bounded_net = SdfNet::new(plan.alloc, graph_at(bounded, scenario), gamma, false)?;
    know_laws(&bounded_net);
    held_up(plan.alloc, &net, &bounded_net, spaces.as_slice(), counts)
}

/// By shared channel the number of its free space among the channels of a scenario, whose first one has this number.
fn spaces_of(
    alloc: Global,
    first: u32,
    capacities: &Distribution,
) -> Result<Rows<Option<u32>>, NoMemory>
    requires { first + length capacities.now.capacities < 2 ^ 32 }
    ensures { IfOk result (λ spaces. spaces ≡ spaces_from first capacities.now.capacities) }
{
    let mut spaces = Rows::new(alloc);
    let mut next = first;
    for room in capacities.capacities.as_slice() {
        if room.is_some() {
            spaces.push(Some(next))?;
            next += 1;
        } else {
            spaces.push(None)?;
        }
    }
    Ok(spaces)
}

/// The shared channels for whose free space an actor waits after some firings that lacks no token of the net without spaces.
fn held_up<F: Firing>(
    alloc: Global,
    net: &F,
    bounded: &F,
    spaces: &[Option<u32>],
    counts: &[u64],
) -> Result<Rows<u32>, NoMemory>
    requires actors { length (F.net bounded.now).times ≡ length (F.net net.now).times }
    requires counts { length counts.now ≡ length (F.net net.now).times }
    requires few { length spaces.now < 2 ^ 32 }
    requires spaces { AreSpacesWithin (length (F.net bounded.now).channels) spaces.now }
    ensures { IfOk result (λ shown. (c : ℕ) → Contains shown c ↔ IsWaitedFor (F.net net.now) (F.net bounded.now) spaces.now (slice_index counts.now) c) }
{
    let mut shown = Rows::new(alloc);
    for place in 0..spaces.len() {
        if waits_for(net, bounded, spaces[place], counts) {
            shown.push(place as u32)?;
        }
    }
    Ok(shown)
}

/// Whether an actor waits for a free space alone, if there is one.
fn waits_for<F: Firing>(net: &F, bounded: &F, space: Option<u32>, counts: &[u64]) -> bool
    requires actors { length (F.net bounded.now).times ≡ length (F.net net.now).times }
    requires counts { length counts.now ≡ length (F.net net.now).times }
    requires space { (i : ℕ) → space ≡ Some i → i < length (F.net bounded.now).channels }
    ensures { IsTrue result ↔ ((i : ℕ) × (space ≡ Some i) × WaitsFor (F.net net.now) (F.net bounded.now) (slice_index counts.now) i) }
{
    match space {
        Some(space) => waits_at(net, bounded, space, counts),
        None => false,
    }
}

/// Whether the actor that takes a free space is below its round and lacks no token, but space.
fn waits_at<F: Firing>(net: &F, bounded: &F, space: u32, counts: &[u64]) -> bool
    requires actors { length (F.net bounded.now).times ≡ length (F.net net.now).times }
    requires counts { length counts.now ≡ length (F.net net.now).times }
    requires space { space < length (F.net bounded.now).channels }
    ensures { IsTrue result ↔ WaitsFor (F.net net.now) (F.net bounded.now) (slice_index counts.now) space }
{
    know_laws(bounded);
    let actor = bounded.target(space);
    counts[actor as usize] < net.round(actor)
        && can_fire(net, counts, actor)
        && lacks(bounded, counts, space)
}

/// The shared channels whose free space is taken on one way of each edge of a cycle. Cost: that of a round for each
/// scenario on the cycle, and that of a way for each edge.
pub(crate) fn shown_by_cycle(
    plan: &Plan,
    capacities: &Distribution,
    bounded: &ScenarioFile,
    graph: &TimedGraph,
    cycle: &[u32],
) -> Result<Rows<u32>, NoMemory>
    requires plan { IsPlan plan.now.file.now plan.now.gammas.now plan.now.limits }
    requires fits { IsWithin plan.now.file.now plan.now.limits.total capacities.now.capacities }
    requires bounded { bounded.now ≡ bounded_file plan.now.file.now capacities.now.capacities }
    requires graph { IsGraphOf plan.now.file.now capacities.now.capacities graph.now }
    requires runs { AllRun plan.now.file.now capacities.now.capacities }
    requires cycle { (n : ℕ) → Contains cycle.now n → n < length graph.now.edges }
    ensures { IfOk result (AreShownLive plan.now.file.now capacities.now.capacities graph.now cycle.now) }
{
    let mut marks = vec![in plan.alloc; false; plan.file.shared.len()]?;
    for scenario in 0..plan.file.scenarios.len() {
        let entries = entries_of(
            plan.alloc,
            bounded.states.as_slice(),
            graph,
            cycle,
            scenario,
        )?;
        mark_scenario(
            plan,
            capacities,
            bounded,
            scenario,
            entries.as_slice(),
            marks.as_mut_slice(),
        )?;
    }
    listed(plan.alloc, marks.as_slice())
}

/// The entries of a scenario's matrix that edges of a cycle are.
fn entries_of(
    alloc: Global,
    states: &[StateRow],
    graph: &TimedGraph,
    cycle: &[u32],
    scenario: usize,
) -> Result<Vec<EntryPlace>, NoMemory>
    requires tokens { 1 ≤ graph.now.tokens }
    requires states { BeginAtStates states.now graph.now }
    requires cycle { (n : ℕ) → Contains cycle.now n → n < length graph.now.edges }
    ensures { IfOk result (λ entries. (x : SomeEntry) → Contains entries.items x ↔ IsEntryIn states.now graph.now cycle.now scenario x) }
{
    let mut entries = Vec::new(alloc);
    for number in cycle {
        let edge = graph.edges.as_slice()[*number as usize];
        if scenario_of(states, graph.tokens, edge) == scenario {
            entries.push(entry_of(graph.tokens, edge))?;
        }
    }
    Ok(entries)
}

/// The scenario whose matrix gives an edge.
fn scenario_of(states: &[StateRow], tokens: u32, edge: Edge) -> usize
    requires tokens { 1 ≤ tokens }
    requires states { edge.from / tokens < length states.now }
    ensures { result ≡ scenario_at states.now tokens edge }
{
    states[(edge.from / tokens) as usize].scenario as usize
}

/// The entry that an edge is.
fn entry_of(tokens: u32, edge: Edge) -> EntryPlace
    requires { 1 ≤ tokens }
    ensures { result ≡ place_of tokens edge }
{
    EntryPlace {
        column: u64::from(edge.from % tokens),
        row: u64::from(edge.to % tokens),
    }
}

/// Marks the shared channels whose free space is taken on one longest way of each of some entries of a scenario.
fn mark_scenario(
    plan: &Plan,
    capacities: &Distribution,
    bounded: &ScenarioFile,
    scenario: usize,
    entries: &[EntryPlace],
    marks: &mut [bool],
) -> Result<(), NoMemory>
    requires plan { IsPlan plan.now.file.now plan.now.gammas.now plan.now.limits }
    requires fits { IsWithin plan.now.file.now plan.now.limits.total capacities.now.capacities }
    requires bounded { bounded.now ≡ bounded_file plan.now.file.now capacities.now.capacities }
    requires ways { HaveWays plan.now.file.now plan.now.gammas.now capacities.now.capacities scenario entries.now }
    requires long { length marks.old ≡ length plan.now.file.now.shared }
    ensures { OnOk result (AreSpaceMarks plan.now.file.now plan.now.gammas.now capacities.now.capacities scenario entries.now marks.old marks.new) }
{
    if entries.is_empty() {
        return Ok(());
    }
    let graph = graph_at(bounded, scenario);
    let gamma = gamma_at(plan.gammas, scenario);
    let first = graph_at(plan.file, scenario).channels.len();
    let spaces = spaces_of(plan.alloc, first as u32, capacities)?;
    let mut taken = vec![in plan.alloc; false; graph.channels.len()]?;
    mark_ways(
        plan.alloc,
        graph,
        gamma,
        bounded.shared.as_slice(),
        entries,
        taken.as_mut_slice(),
    )?;
    mark_spaces(spaces.as_slice(), taken.as_slice(), marks);
    Ok(())
}

/// Marks the shared channels whose free space is marked among the channels of a scenario.
fn mark_spaces(spaces: &[Option<u32>], taken: &[bool], marks: &mut [bool])
    requires long { length spaces.now ≤ length marks.old }
    requires spaces { AreSpacesWithin (length taken.now) spaces.now }
    ensures long { length marks.new ≡ length marks.old }
    ensures marked { (c : ℕ) → c < length marks.old → (slice_index_or marks.new c false ≡ true) ↔
        ((slice_index_or marks.old c false ≡ true) ⊎ ((i : ℕ) × HasSpace spaces.now c i × (slice_index_or taken.now i false ≡ true))) }
{
    for place in 0..spaces.len() {
        if is_taken(spaces[place], taken) {
            marks[place] = true;
        }
    }
}

/// Whether a free space is marked, if there is one.
fn is_taken(space: Option<u32>, taken: &[bool]) -> bool
    requires { (i : ℕ) → space ≡ Some i → i < length taken.now }
    ensures { IsTrue result ↔ ((i : ℕ) × (space ≡ Some i) × (slice_index_or taken.now i false ≡ true)) }
{
    match space {
        Some(space) => taken[space as usize],
        None => false,
    }
}

/// The places that are marked.
fn listed(alloc: Global, marks: &[bool]) -> Result<Rows<u32>, NoMemory>
    requires { length marks.now < 2 ^ 32 }
    ensures { IfOk result (λ list. (c : ℕ) → Contains list c ↔ (slice_index_or marks.now c false ≡ true)) }
{
    let mut list = Rows::new(alloc);
    for place in 0..marks.len() {
        if marks[place] {
            list.push(place as u32)?;
        }
    }
    Ok(list)
}
