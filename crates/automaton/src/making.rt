//! The timed graph of a file and its matrices.
ghost use Rattle.std.specs.Prelude.{◌≡◌, ◌*◌, ◌≤◌, ◌<◌, Err, IfOk, length};
ghost use Rattle.sd_base.specs.declared.limits.TheConstants.{AUTOMATON_STATES, EDGES, NODES};
ghost use Rattle.sd_base.specs.Scenarios.{shared_count, LeadsOn};
ghost use Rattle.automaton.specs.TimedGraphs.{AreSized, IsProduct, edges_from};
ghost use Rattle.automaton.specs.declared.making.GraphError.TheVariants.{NoMemory};

use crate::edges::add_states;
use crate::graph::TimedGraph;
use sd_base::limits::EDGES;
use sd_base::{NoMemory, Rows, ScenarioFile};
use std::alloc::Global;
use thiserror::Error;
use token_matrix::Matrix;

/// Why there is no timed graph.
#[derive(Clone, Copy, Debug, PartialEq, Eq, Error)]
pub enum GraphError {
    /// There are more edges than a timed graph may have.
    #[error("the edges pass their limit")]
    Limit,
    #[error("out of memory")]
    NoMemory,
}

impl From<NoMemory> for GraphError {
    ghost from_gives = { λ _ e. e ≡ NoMemory };

    fn from(_error: NoMemory) -> GraphError {
        GraphError::NoMemory
    }
}

/// The timed graph of a file by the matrices of its scenarios, one for each, in order; that of a scenario that no state
/// runs isn't looked at. Cost: linear in the entries of the matrices over all pairs of a state and its successor; the
/// edges are made before their number is tested.
pub fn product(
    alloc: Global,
    file: &ScenarioFile,
    matrices: &[Matrix],
) -> Result<TimedGraph, GraphError>
    requires leads_on { LeadsOn file.now }
    requires all { length matrices.now ≡ length file.now.scenarios }
    requires sized { AreSized (shared_count file.now.shared) matrices.now file.now.states }
    requires states { length file.now.states ≤ AUTOMATON_STATES }
    requires nodes { length file.now.states * shared_count file.now.shared ≤ NODES }
    ensures product { IfOk result (IsProduct file.now matrices.now) }
    ensures few { IfOk result (λ g. length g.edges ≤ EDGES) }
    ensures limit { result ≡ Err GraphError.Limit → EDGES < length (edges_from (shared_count file.now.shared) 0 matrices.now file.now.states) }
{
    let tokens = token_count(file, matrices);
    let mut edges = Vec::new(alloc);
    add_states(&mut edges, tokens, matrices, file.states.as_slice())?;
    if edges.len() > EDGES as usize {
        return Err(GraphError::Limit);
    }
    Ok(TimedGraph {
        tokens,
        initial: file.initial,
        states: file.states.len() as u32,
        edges: Rows::from_vec(edges),
    })
}

/// How many tokens the scenarios share: as many as the rows of the matrix of the initial state's scenario.
fn token_count(file: &ScenarioFile, matrices: &[Matrix]) -> u32
    requires leads_on { LeadsOn file.now }
    requires all { length matrices.now ≡ length file.now.scenarios }
    requires sized { AreSized (shared_count file.now.shared) matrices.now file.now.states }
    requires nodes { length file.now.states * shared_count file.now.shared ≤ NODES }
    ensures is { result ≡ shared_count file.now.shared }
    ensures few { result ≤ NODES }
{
    let initial = &file.states.as_slice()[file.initial as usize];
    matrices[initial.scenario as usize].size()
}
