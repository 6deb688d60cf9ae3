//! Levels: row k holds at each node the best score of a walk of at most k edges from a node of the initial state.
//! The score of such a walk is its weights times the rounds, and the time for each edge that it has fewer than k.

ghost use Rattle.std.specs.Prelude.{◌≡◌, ◌*◌, ◌+◌, ◌≤◌, ◌<◌, None, IfOk, MatchBool, MatchOption, length, slice_get};
ghost use Rattle.sd_base.specs.declared.limits.TheConstants.{NODES, ROUND, TIME};
ghost use Rattle.automaton.specs.SoundGraphs.{IsSound, AreInside, node_count};
ghost use Rattle.scenario_rate.specs.inside.Levels.{HIGHEST, LONGEST, cell_at, IsBelow, IsAtLeast, IsBrought, IsAged, IsRaised, AreHonoured, IsFirst, IsFirstCell, aged_of, AreSmall, AreSettled, edge_in, IsNoHigher, WasRaised};

use automaton::{Edge, TimedGraph};
use sd_base::{NoMemory, Rows};
use std::alloc::Global;

/// The best score at a node of a level, and the edge that raised it there, if one did.
#[derive(Clone, Copy)]
pub(crate) struct Cell {
    /// In time units times rounds.
    pub score: u128,
    /// The number of the edge.
    pub edge: Option<u32>,
}

/// The row of level 0: the nodes of the initial state have score 0.
pub(crate) fn first_row(alloc: Global, graph: &TimedGraph) -> Result<Vec<Option<Cell>>, NoMemory>
    requires { IsSound graph.now }
    ensures first { IfOk result (λ row. IsFirst graph.now (cell_at row.items)) }
    ensures size { IfOk result (λ row. length row.items ≡ node_count graph.now) }
{
    let nodes = graph.states * graph.tokens;
    let mut row = Vec::with_capacity(alloc, nodes as usize)?;
    for node in 0..nodes {
        row.push_reserved(first_cell(graph, node));
    }
    Ok(row)
}

/// A node's cell in the row of level 0.
fn first_cell(graph: &TimedGraph, node: u32) -> Option<Cell>
    requires sound { IsSound graph.now }
    ensures { IsFirstCell graph.now node result }
{
    if graph.is_start(node) {
        return Some(Cell {
            score: 0,
            edge: None,
        });
    }
    None
}

/// The row of the level after `level`, whose row is given: what it keeps of that, raised over each edge.
pub(crate) fn next_row(
    alloc: Global,
    edges: &[Edge],
    row: &[Option<Cell>],
    level: usize,
    rounds: u64,
    time: u64,
) -> Result<Vec<Option<Cell>>, NoMemory>
    requires inside { AreInside edges.now (length row.now) }
    requires rounds { rounds ≤ NODES }
    requires time { time ≤ LONGEST }
    requires small { AreSmall HIGHEST (cell_at row.now) }
    requires honoured { 1 ≤ level → AreHonoured edges.now rounds time (cell_at row.now) }
    ensures raised { IfOk result (λ next. IsRaised edges.now (length edges.now) rounds time (cell_at row.now) (cell_at next.items)) }
    ensures size { IfOk result (λ next. length next.items ≡ length row.now) }
{
    let mut next = aged(alloc, row, time)?;
    for number in 0..edges.len() {
        let edge = edges[number];
        let from = row[edge.from as usize];
        if brings(from, level) {
            raise(&mut next, from, number as u32, edge, rounds);
        }
    }
    Ok(next)
}

/// Whether an edge from a cell of a level may raise its end. From level 1 on it can't where no edge raised the cell: it
/// brings what it brought a level before, aged.
fn brings(from: Option<Cell>, level: usize) -> bool
    ensures { MatchBool result (Unit {0}) ((1 ≤ level) × (edge_in from ≡ None)) }
{
    edge_of(from).is_some() || level == 0
}

/// A row whose scores are all a time more.
fn aged(alloc: Global, row: &[Option<Cell>], time: u64) -> Result<Vec<Option<Cell>>, NoMemory>
    requires { AreSmall HIGHEST (cell_at row.now) }
    ensures aged { IfOk result (λ next. IsAged time (cell_at row.now) (cell_at next.items)) }
    ensures size { IfOk result (λ next. length next.items ≡ length row.now) }
{
    let mut next = Vec::with_capacity(alloc, row.len())?;
    for node in 0..row.len() {
        next.push_reserved(aged_cell(row[node], time));
    }
    Ok(next)
}

fn aged_cell(cell: Option<Cell>, time: u64) -> Option<Cell>
    requires { MatchOption cell (Unit {0}) (λ c. c.score ≤ HIGHEST) }
    ensures { result ≡ aged_of time cell }
{
    match cell {
        Some(cell) => Some(Cell {
            score: cell.score + time as u128,
            edge: None,
        }),
        None => None,
    }
}

/// Raises the end of an edge to what its start's cell gives, if that is more.
fn raise(next: &mut Vec<Option<Cell>>, from: Option<Cell>, number: u32, edge: Edge, rounds: u64)
    requires end { edge.to < length next.old.items }
    requires light { edge.weight ≤ TIME * ROUND }
    requires rounds { rounds ≤ NODES }
    requires small { MatchOption from (Unit {0}) (λ c. c.score ≤ HIGHEST) }
    ensures brought { IsBrought rounds number edge from next.old.items next.new.items }
    ensures size { length next.new.items ≡ length next.old.items }
{
    if let Some(cell) = from {
        let score = cell.score + edge.weight as u128 * rounds as u128;
        if is_below(next[edge.to as usize], score) {
            next[edge.to as usize] = Some(Cell {
                score,
                edge: Some(number),
            });
        }
    }
}

/// Whether a cell's score is below another one.
fn is_below(cell: Option<Cell>, score: u128) -> bool
    ensures { MatchBool result (IsBelow cell score) (IsAtLeast cell score) }
{
    match cell {
        Some(cell) => cell.score < score,
        None => true,
    }
}

/// Of the nodes that an edge raised the last one with the greatest score: its walk most often closes a cycle that
/// gains much.
pub(crate) fn raised_node(row: &[Option<Cell>]) -> Option<usize>
    ensures { MatchOption result (AreSettled (cell_at row.now))
        (λ v. (v < length row.now) × ((c : Cell) × (cell_at row.now v ≡ Some c) × ((k : _) × (c.edge ≡ Some k)))) }
{
    let mut best = None;
    let mut most = 0u128;
    for node in 0..row.len() {
        if let Some(score) = raised_score(row[node], most) {
            best = Some(node);
            most = score;
        }
    }
    best
}

/// The score of a cell that an edge raised, if it is at least so much.
fn raised_score(cell: Option<Cell>, least: u128) -> Option<u128>
    ensures { MatchOption result (IsNoHigher cell least) (λ _. WasRaised cell) }
{
    match cell {
        None => None,
        Some(cell) => match cell.edge {
            None => None,
            Some(_edge) => {
                if cell.score < least {
                    return None;
                }
                Some(cell.score)
            },
        },
    }
}

/// The edge that raised a cell.
pub(crate) fn edge_of(cell: Option<Cell>) -> Option<u32>
    ensures { result ≡ edge_in cell }
{
    match cell {
        Some(cell) => cell.edge,
        None => None,
    }
}
