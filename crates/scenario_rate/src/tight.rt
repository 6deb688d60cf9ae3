//! The edges on which the condition on potentials holds with equality.
ghost use Rattle.std.specs.Prelude.{◌*◌, ◌≡◌, ◌≤◌, ◌↔◌, IsTrue, IfOk, MatchOption, length};
ghost use Rattle.sd_base.specs.declared.limits.TheConstants.{NODES, ROUND, TIME};
ghost use Rattle.automaton.specs.SoundGraphs.{AreInside};
ghost use Rattle.scenario_rate.specs.inside.Levels.{HIGHEST, LONGEST, cell_at, AreSmall};
ghost use Rattle.scenario_rate.specs.inside.Choosing.{IsEven, AreTight};

use crate::levels::Cell;
use automaton::Edge;
use sd_base::NoMemory;
use std::alloc::Global;

/// The numbers of the tight edges, by the scores of a row at a rate of `rounds` per `time`.
pub(crate) fn tight_edges(
    alloc: Global,
    edges: &[Edge],
    row: &[Option<Cell>],
    rounds: u64,
    time: u64,
) -> Result<Vec<u32>, NoMemory>
    requires inside { AreInside edges.now (length row.now) }
    requires rounds { rounds ≤ NODES }
    requires time { time ≤ LONGEST }
    requires small { AreSmall HIGHEST (cell_at row.now) }
    ensures { IfOk result (λ tight. AreTight edges.now row.now rounds time (length edges.now) tight.items) }
{
    let mut tight = Vec::new(alloc);
    for number in 0..edges.len() {
        let edge = edges[number];
        if is_even(
            edge,
            row[edge.from as usize],
            row[edge.to as usize],
            rounds,
            time,
        ) {
            tight.push(number as u32)?;
        }
    }
    Ok(tight)
}

/// Whether two cells are as far apart as an edge brings them.
fn is_even(edge: Edge, from: Option<Cell>, to: Option<Cell>, rounds: u64, time: u64) -> bool
    requires light { edge.weight ≤ TIME * ROUND }
    requires rounds { rounds ≤ NODES }
    requires time { time ≤ LONGEST }
    requires from { MatchOption from (Unit {0}) (λ c. c.score ≤ HIGHEST) }
    requires to { MatchOption to (Unit {0}) (λ c. c.score ≤ HIGHEST) }
    ensures { IsTrue result ↔ IsEven rounds time edge from to }
{
    match from {
        None => false,
        Some(from) => match to {
            None => false,
            Some(to) => {
                from.score + edge.weight as u128 * rounds as u128 == to.score + time as u128
            },
        },
    }
}
