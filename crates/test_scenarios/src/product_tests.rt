ghost use Rattle.std.specs.Prelude.{◌≡◌, [], true, length, slice_index_or};
ghost use Rattle.sd_base.specs.Scenarios.{shared_count};
ghost use Rattle.automaton.specs.TimedGraphs.{AreSized};

use crate::shared::rows_of;
use automaton::{Edge, GraphError, TimedGraph, is_run, leads_on, needed, product, worst_is_shown};
use scenario_rate::products_are_searched;
use sd_base::{GraphFile, Kind, Rows, ScenarioFile, ScenarioRow, SharedRow, StateRow, Text};
use std::alloc::{AllocError, Global};
use std::process::Abort;
use std::test::Fail;
use token_matrix::Matrix;

/// The matrices of the scenarios.
const FAST: [[Option<u32>; 2]; 2] = [[None, Some(0)], [Some(3), Some(4)]];

const SLOW: [[Option<u32>; 2]; 2] = [[Some(7), None], [None, Some(9)]];

/// A file of two scenarios that share two tokens of one channel, with the given scenario and successors of each state.
fn file(alloc: Global, states: &[(u32, &[u32])], initial: u32) -> Result<ScenarioFile, AllocError> {
    let scenarios = scenario_rows(alloc)?;
    let shared = two_tokens(alloc)?;
    let states = state_rows(alloc, states)?;
    Ok(ScenarioFile {
        scenarios,
        shared,
        states,
        initial,
    })
}

fn scenario_rows(alloc: Global) -> Result<Rows<ScenarioRow>, AllocError> {
    let mut rows = Rows::new(alloc);
    for name in ["fast", "slow"] {
        rows.push(ScenarioRow {
            name: Text::of(alloc, name)?,
            graph: GraphFile {
                kind: Kind::Sdf,
                actors: Rows::new(alloc),
                channels: Rows::new(alloc),
            },
        })?;
    }
    Ok(rows)
}

fn two_tokens(alloc: Global) -> Result<Rows<SharedRow>, AllocError> {
    let mut rows = Rows::new(alloc);
    rows.push(SharedRow {
        name: Text::of(alloc, "c")?,
        tokens: 2,
    })?;
    Ok(rows)
}

fn state_rows(alloc: Global, states: &[(u32, &[u32])]) -> Result<Rows<StateRow>, AllocError> {
    let mut rows = Rows::new(alloc);
    for (scenario, next) in states {
        rows.push(state_row(alloc, *scenario, next)?)?;
    }
    Ok(rows)
}

fn state_row(alloc: Global, scenario: u32, next: &[u32]) -> Result<StateRow, AllocError> {
    Ok(StateRow {
        name: Text::of(alloc, "s")?,
        scenario,
        next: Rows::from_vec(Vec::from_slice(alloc, next)?),
    })
}

/// A matrix of two rows and columns.
fn matrix(
    rt: &impl Abort,
    alloc: Global,
    entries: &[[Option<u32>; 2]; 2],
) -> Result<Matrix, AllocError> {
    let rows = rows_of(alloc, &[&entries[0], &entries[1]])?;
    match Matrix::new(rows) {
        Some(matrix) => Ok(matrix),
        None => panic!(rt; "two rows of two entries"),
    }
}

/// The matrices of a file's scenarios, of which those that aren't run have no rows.
fn matrices(
    rt: &impl Abort,
    alloc: Global,
    file: &ScenarioFile,
) -> Result<Vec<Matrix>, AllocError> {
    let mut matrices = Vec::new(alloc);
    matrices.push(needed(alloc, file, 0, matrix(rt, alloc, &FAST)?))?;
    matrices.push(needed(alloc, file, 1, matrix(rt, alloc, &SLOW)?))?;
    Ok(matrices)
}

fn share_two(shared: &[SharedRow]) -> bool
    ensures { result ≡ true → shared_count shared.now ≡ 2 }
{
    match shared {
        [row] => row.tokens == 2,
        _ => false,
    }
}

/// Whether each state runs a scenario whose matrix has two rows.
fn are_two_by_two(matrices: &[Matrix], states: &[StateRow]) -> bool
    ensures { result ≡ true → AreSized 2 matrices.now states.now }
{
    for place in 0..states.len() {
        if !has_two_rows(matrices, states[place].scenario) {
            return false;
        }
    }
    true
}

fn has_two_rows(matrices: &[Matrix], scenario: u32) -> bool
    ensures { result ≡ true → length (slice_index_or matrices.now scenario []) ≡ 2 }
{
    (scenario as usize) < matrices.len() && matrices[scenario as usize].size() == 2
}

fn graph_of(
    rt: &impl Abort,
    alloc: Global,
    file: &ScenarioFile,
    matrices: &[Matrix],
) -> Result<TimedGraph, GraphError> {
    assert!(rt; leads_on(file));
    assert!(rt; share_two(file.shared.as_slice()));
    assert!(rt; are_two_by_two(matrices, file.states.as_slice()));
    assert!(rt; matrices.len() == file.scenarios.len());
    assert!(rt; file.states.len() <= 256);
    product(alloc, file, matrices)
}

fn edge(from: u32, to: u32, weight: u64) -> Edge {
    Edge { from, to, weight }
}

/// Asserts the edges of state 0 to state 1, those back to it, and those of state 1 to state 0.
fn check_two_states(rt: &impl Abort, graph: &TimedGraph) {
    let edges = [
        edge(1, 2, 0),
        edge(0, 3, 3),
        edge(1, 3, 4),
        edge(1, 0, 0),
        edge(0, 1, 3),
        edge(1, 1, 4),
        edge(2, 0, 7),
        edge(3, 1, 9),
    ];
    assert!(rt; graph.tokens == 2);
    assert!(rt; graph.states == 2);
    assert!(rt; graph.initial == 0);
    assert!(rt; graph.edges.as_slice() == edges.as_slice());
}

/// State 0 runs the fast scenario, and either state may come after it; after the slow one, which state 1 runs, state 0
/// comes. Node 2q + i is token i of state q.
#[test]
fn two_states_with_two_tokens(rt: HostRuntime) -> Result<(), Fail> {
    let file = file(rt.alloc(), &[(0, &[1, 0]), (1, &[0])], 0)?;
    let graph = made(&rt, rt.alloc(), &file)?;
    check_two_states(&rt, &graph);
    worst_is_shown();
    products_are_searched();
    Ok(())
}

/// The timed graph of a file.
fn made(rt: &impl Abort, alloc: Global, file: &ScenarioFile) -> Result<TimedGraph, Fail> {
    let matrices = matrices(rt, alloc, file)?;
    Ok(graph_of(rt, alloc, file, &matrices)?)
}

fn check_matrices(rt: &impl Abort, alloc: Global, file: &ScenarioFile) -> Result<(), AllocError> {
    let matrices = matrices(rt, alloc, file)?;
    assert!(rt; matrices.len() == 2);
    assert!(rt; matrices[0].size() == 2);
    assert!(rt; matrices[1].size() == 0);
    Ok(())
}

/// No state runs the slow scenario, whose matrix isn't kept.
#[test]
fn a_scenario_that_is_not_run_has_no_edges(rt: HostRuntime) -> Result<(), Fail> {
    let file = file(rt.alloc(), &[(0, &[0])], 0)?;
    assert!(rt; is_run(&file, 0));
    assert!(rt; !is_run(&file, 1));
    check_matrices(&rt, rt.alloc(), &file)?;
    let graph = made(&rt, rt.alloc(), &file)?;
    assert!(rt; graph.tokens == 2);
    assert!(rt; graph.edges.len() == 3);
    Ok(())
}

/// Whether the states of a file lead on.
fn lead_on(alloc: Global, states: &[(u32, &[u32])], initial: u32) -> Result<bool, AllocError> {
    let file = file(alloc, states, initial)?;
    Ok(leads_on(&file))
}

#[test]
fn states_lead_on(rt: HostRuntime) -> Result<(), Fail> {
    let whole = lead_on(rt.alloc(), &[(0, &[1, 0]), (1, &[0])], 0)?;
    assert!(rt; whole);
    let ends = lead_on(rt.alloc(), &[(0, &[1]), (1, &[])], 0)?;
    assert!(rt; !ends, "state 1 has no successor");
    let leaves = lead_on(rt.alloc(), &[(0, &[2]), (1, &[0])], 0)?;
    assert!(rt; !leaves, "there is no state 2");
    let unknown = lead_on(rt.alloc(), &[(2, &[0])], 0)?;
    assert!(rt; !unknown, "there is no scenario 2");
    let nowhere = lead_on(rt.alloc(), &[(0, &[0])], 1)?;
    assert!(rt; !nowhere, "there is no state 1");
    Ok(())
}
