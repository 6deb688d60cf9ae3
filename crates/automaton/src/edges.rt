//! The edges of a timed graph: state by state, successor by successor, row by row and column by column.
ghost use Rattle.std.specs.Prelude.{◌≡◌, ◌+◌, ◌*◌, ◌++◌, ◌≤◌, ◌<◌, ℕ, OnOk, Some, [], length, slice_get, slice_index_or};
ghost use Rattle.sd_base.specs.declared.limits.TheConstants.{AUTOMATON_STATES, NODES, STAMPS};
ghost use Rattle.sd_base.specs.declared.tables.StateRow.{StateRow};
ghost use Rattle.token_matrix.specs.Matrices.{IsSquare};
ghost use Rattle.automaton.specs.TimedGraphs.{edges_into, edges_between, edges_out, edges_from};
ghost use Rattle.automaton.specs.inside.Adding.{one_edge};

use crate::graph::Edge;
use sd_base::{NoMemory, Rows, StateRow};
use token_matrix::{Entry, Matrix};

/// Adds the edges out of all states.
pub(crate) fn add_states(
    edges: &mut Vec<Edge>,
    tokens: u32,
    matrices: &[Matrix],
    states: &[StateRow],
) -> Result<(), NoMemory>
    requires scenarios { (q : ℕ) → (s : StateRow) → slice_get states.now q ≡ Some s → s.scenario < length matrices.now }
    requires known { (q : ℕ) → (p : ℕ) → (r : ℕ) → (s : StateRow) → slice_get states.now q ≡ Some s → slice_get s.next p ≡ Some r → r < length states.now }
    requires nodes { length states.now * tokens ≤ NODES }
    requires states { length states.now ≤ AUTOMATON_STATES }
    ensures { OnOk result (edges.new.items ≡ edges.old.items ++ edges_from tokens 0 matrices.now states.now) }
{
    for place in 0..states.len() {
        add_state(edges, tokens, place, matrices, &states[place])?;
    }
    Ok(())
}

/// Adds the edges out of a state.
fn add_state(
    edges: &mut Vec<Edge>,
    tokens: u32,
    place: usize,
    matrices: &[Matrix],
    state: &StateRow,
) -> Result<(), NoMemory>
    requires few { place ≤ AUTOMATON_STATES }
    requires place { place * tokens ≤ NODES }
    requires scenario { state.now.scenario < length matrices.now }
    requires known { (p : ℕ) → (r : ℕ) → slice_get state.now.next p ≡ Some r → r * tokens ≤ NODES }
    ensures { OnOk result (edges.new.items ≡ edges.old.items
        ++ edges_out tokens (place * tokens) (slice_index_or matrices.now state.now.scenario []) state.now.next) }
{
    let rows = rows_at(matrices, state.scenario);
    let from = first_node(place as u32, tokens);
    add_successors(edges, tokens, from, rows, state.next.as_slice())
}

/// The first node of a state.
fn first_node(state: u32, tokens: u32) -> u32
    requires { state * tokens ≤ NODES }
    ensures is { result ≡ state * tokens }
    ensures small { result ≤ NODES }
{
    state * tokens
}

/// The rows of a scenario's matrix.
fn rows_at(matrices: &[Matrix], scenario: u32) -> &[Rows<Entry>]
    requires { scenario < length matrices.now }
    ensures is { result.now ≡ slice_index_or matrices.now scenario [] }
    ensures square { IsSquare result.now }
{
    matrices[scenario as usize].rows()
}

/// Adds the edges to each successor.
fn add_successors(
    edges: &mut Vec<Edge>,
    tokens: u32,
    from: u32,
    rows: &[Rows<Entry>],
    next: &[u32],
) -> Result<(), NoMemory>
    requires known { (p : ℕ) → (r : ℕ) → slice_get next.now p ≡ Some r → r * tokens ≤ NODES }
    requires square { IsSquare rows.now }
    requires from { from ≤ NODES }
    ensures { OnOk result (edges.new.items ≡ edges.old.items ++ edges_out tokens from rows.now next.now) }
{
    for place in 0..next.len() {
        let to = first_node(next[place], tokens);
        add_rows(edges, from, to, rows)?;
    }
    Ok(())
}

/// Adds the edges of a matrix, from the nodes from `from` on to those from `to` on.
fn add_rows(edges: &mut Vec<Edge>, from: u32, to: u32, rows: &[Rows<Entry>]) -> Result<(), NoMemory>
    requires square { IsSquare rows.now }
    requires from { from ≤ NODES }
    requires to { to ≤ NODES }
    ensures { OnOk result (edges.new.items ≡ edges.old.items ++ edges_between from to rows.now) }
{
    for row in 0..rows.len() {
        add_row(edges, from, to + row as u32, rows[row].as_slice())?;
    }
    Ok(())
}

/// Adds the edges of a row.
fn add_row(edges: &mut Vec<Edge>, from: u32, to: u32, row: &[Entry]) -> Result<(), NoMemory>
    requires short { length row.now ≤ STAMPS }
    requires from { from ≤ NODES }
    ensures { OnOk result (edges.new.items ≡ edges.old.items ++ edges_into from to row.now) }
{
    for column in 0..row.len() {
        add_entry(edges, from + column as u32, to, row[column].get())?;
    }
    Ok(())
}

/// Adds the edge of an entry, if it is there.
fn add_entry(edges: &mut Vec<Edge>, from: u32, to: u32, entry: Option<u64>) -> Result<(), NoMemory>
    ensures { OnOk result (edges.new.items ≡ edges.old.items ++ one_edge from to entry) }
{
    if let Some(weight) = entry {
        edges.push(Edge { from, to, weight })?;
    }
    Ok(())
}
