//! A search by levels: either no edge raises a node any more, or the walks get as long as they may.

ghost use Rattle.std.specs.Prelude.{◌≡◌, ◌*◌, ◌+◌, ◌≤◌, ◌<◌, ℕ, IfOk, length, slice_index_or, []};
ghost use Rattle.sd_base.specs.declared.limits.TheConstants.{NODES};
ghost use Rattle.scenario_rate.specs.inside.Levels.{LONGEST};
ghost use Rattle.automaton.specs.SoundGraphs.{IsSound, node_count};
ghost use Rattle.scenario_rate.specs.inside.Searches.{AreLevels, IsLastSmall, IsOutcome};

use crate::levels::{Cell, first_row, next_row, raised_node};
use automaton::TimedGraph;
use sd_base::{NoMemory, Rows};
use std::alloc::Global;

/// The rows of a search at a rate of `rounds` per `time`, from level 0 on.
#[derive(Drop)]
pub(crate) struct Levels {
    pub rounds: u64,
    pub time: u64,
    /// By level and then by node; none where no walk of at most so many edges ends.
    pub rows: Vec<Rows<Option<Cell>>>,
}

/// What a search comes to.
#[derive(Drop)]
pub enum Outcome {
    /// No edge raises a node of the last row.
    Settled(Levels),
    /// An edge raised this node at the last level.
    Raised(Levels, u32),
}

/// The row of level 0 alone, which is the same at each rate.
pub(crate) fn first_rows(
    alloc: Global,
    graph: &TimedGraph,
) -> Result<Vec<Rows<Option<Cell>>>, NoMemory>
    requires { IsSound graph.now }
    ensures levels { IfOk result (λ rows. (l w : ℕ) → AreLevels graph.now l w rows.items) }
    ensures one { IfOk result (λ rows. length rows.items ≡ 1) }
    ensures small { IfOk result (λ rows. IsLastSmall rows.items) }
{
    let row = first_row(alloc, graph)?;
    let mut rows = Vec::new(alloc);
    rows.push(Rows::from_vec(row))?;
    Ok(rows)
}

/// Goes on from the rows of a search, level after level up to `most`. Cost: linear in the levels that are made, times
/// the edges.
pub(crate) fn search(
    alloc: Global,
    graph: &TimedGraph,
    rounds: u64,
    time: u64,
    mut rows: Vec<Rows<Option<Cell>>>,
    most: u32,
) -> Result<Outcome, NoMemory>
    requires sound { IsSound graph.now }
    requires most { most ≤ node_count graph.now }
    requires rounds { rounds ≤ NODES }
    requires time { time ≤ LONGEST }
    requires levels { AreLevels graph.now rounds time rows.items }
    requires made { 1 ≤ length rows.items }
    requires below { length rows.items ≤ most }
    requires small { IsLastSmall rows.items }
    ensures { IfOk result (IsOutcome graph.now rounds time most) }
{
    let mut node = 0u32;
    let first = rows.len() - 1;
    for level in first..most as usize {
        let next = next_row(
            alloc,
            graph.edges.as_slice(),
            row_at(&rows, level),
            level,
            rounds,
            time,
        )?;
        match raised_node(next.as_slice()) {
            Some(found) => node = found as u32,
            None => {
                return Ok(Outcome::Settled(Levels { rounds, time, rows }));
            },
        }
        rows.push(Rows::from_vec(next))?;
    }
    Ok(Outcome::Raised(Levels { rounds, time, rows }, node))
}

/// The rows of a search, to go on from.
pub(crate) fn rows_of(levels: Levels) -> Vec<Rows<Option<Cell>>>
    ensures { result.items ≡ levels.rows.items }
{
    let Levels {
        rounds: _rounds,
        time: _time,
        rows,
    } = levels;
    rows
}

/// The row of a level.
pub(crate) fn row_at(rows: &[Rows<Option<Cell>>], level: usize) -> &[Option<Cell>]
    requires { level < length rows.now }
    ensures { result.now ≡ slice_index_or rows.now level [] }
{
    rows[level].as_slice()
}
