//! The walk that gave a node its score at a level.

ghost use Rattle.std.specs.Prelude.{◌≡◌, ◌*◌, ◌+◌, ◌≤◌, ◌<◌, ℕ, IfOk, length, Option, Some, slice_get, slice_index_or, List};
ghost use Rattle.automaton.specs.SoundGraphs.{IsSound, node_count};
ghost use Rattle.scenario_rate.specs.inside.Levels.{cell_at, edge_in};
ghost use Rattle.scenario_rate.specs.inside.Searches.{AreLevels, IsScored, HasCell, IsScoredAt, cell_of};
ghost use Rattle.scenario_rate.specs.declared.levels.Cell.{Cell};

use crate::levels::{Cell, edge_of};
use crate::search::Levels;
use automaton::TimedGraph;
use sd_base::NoMemory;
use std::alloc::Global;

/// The walk, edge by edge: that of the level before, and the edge that raised the node here, if one did.
/// Cost: linear in the level.
pub(crate) fn walk_to(
    alloc: Global,
    graph: &TimedGraph,
    levels: &Levels,
    level: usize,
    node: u32,
) -> Result<Vec<u32>, NoMemory>
    requires sound { IsSound graph.now }
    requires levels { AreLevels graph.now levels.now.rounds levels.now.time levels.now.rows.items }
    requires there { HasCell levels.now.rows.items level node }
    ensures { IfOk result (λ walk. IsScoredAt graph.now levels.now.rounds levels.now.time levels.now.rows.items level walk.items node) }
{
    if level == 0 {
        return Ok(Vec::new(alloc));
    }
    match raising_edge(levels, level, node) {
        None => {
            let walk = walk_to(alloc, graph, levels, level - 1, node)?;
            Ok(walk)
        },
        Some(number) => {
            let from = graph.edges.as_slice()[number as usize].from;
            let mut walk = walk_to(alloc, graph, levels, level - 1, from)?;
            walk.push(number)?;
            Ok(walk)
        },
    }
}

/// The edge that raised a node at a level.
fn raising_edge(levels: &Levels, level: usize, node: u32) -> Option<u32>
    requires there { HasCell levels.now.rows.items level node }
    ensures { result ≡ edge_in (cell_of levels.now.rows.items level node) }
{
    edge_of(levels.rows[level].as_slice()[node as usize])
}
