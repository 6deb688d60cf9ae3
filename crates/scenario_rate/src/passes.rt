//! The worst rate: the rate of a cycle, raised until no cycle gains on it.

ghost use Rattle.std.specs.Prelude.{◌≡◌, ◌*◌, ◌+◌, ◌-◌, ◌≤◌, ◌<◌, ◌≤ℤ◌, ℕ, ℤ, IfOk, MatchOption, Option, Some, length, map};
ghost use Rattle.sd_base.specs.declared.tables.ScenarioFile.{ScenarioFile};
ghost use Rattle.sd_base.specs.declared.limits.TheConstants.{NODES};
ghost use Rattle.automaton.specs.WorstRates.{IsWorst};
ghost use Rattle.automaton.specs.TimedGraphs.{IsTimedGraph};
ghost use Rattle.automaton.specs.CriticalCycles.{AreLeast, IsCritical, IsReachedNode, Fit, weights};
ghost use Rattle.automaton.specs.SoundGraphs.{Grows, IsSound, AreInside, node_count};
ghost use Rattle.scenario_rate.specs.inside.Levels.{HIGHEST, LONGEST, cell_at, AreSmall};
ghost use Rattle.scenario_rate.specs.inside.Searches.{AreLevels, IsRaisedAt, AreNumbers, IsLastOf, potential_of};
ghost use Rattle.scenario_rate.specs.ChosenCycles.{IsChosen};
ghost use Rattle.scenario_rate.specs.Answers.{IsApart, potential_at};
ghost use Rattle.scenario_rate.specs.inside.Bests.{IsBest, ShowsWorst, IsTurn};

use crate::answer::Worst;
use crate::chosen::chosen_cycle;
use crate::levels::Cell;
use crate::repeat::{edges_of, first_return};
use crate::search::{Levels, Outcome, first_rows, row_at, rows_of, search};
use crate::tight::tight_edges;
use crate::trace::walk_to;
use automaton::{Edge, TimedGraph, worst_is_shown};
use sd_base::{Fraction, NoMemory, Rows};
use std::alloc::Global;

/// A cycle and its rate.
#[derive(Drop)]
struct Best {
    rate: Fraction,
    cycle: Vec<u32>,
}

/// What a rate comes to.
#[derive(Drop)]
enum Turn {
    /// No cycle gains on it.
    Settled(Levels),
    /// A cycle gains on it.
    Gains(Best),
}

/// How many levels a search makes before it first looks for a cycle.
const FIRST_LEVELS: u32 = 4;

/// The worst rate of a timed graph, which is that of each file whose timed graph it is: least of all rounds per time
/// unit around cycles that the initial state reaches. From the rate of some cycle on, a search by levels (Bellman and
/// Ford) finds a cycle that gains on it, or potentials. Cost: for each cycle that gains on the one before, at most
/// nodes times edges, and memory of nodes squared; mostly a few times the edges. What `product` gives by the
/// matrices of `matrix_of` meets both conditions, by `products_are_searched`.
pub fn worst(alloc: Global, graph: &TimedGraph) -> Result<Worst, NoMemory>
    requires sound { IsSound graph.now }
    requires grows { Grows graph.now }
    ensures critical { IfOk result (λ r. IsCritical graph.now r.rate.num r.rate.den r.cycle) }
    ensures chosen { IfOk result (λ r. IsChosen graph.now r.rate.num r.rate.den (potential_at r.potentials) r.cycle) }
    ensures apart { IfOk result (λ r. IsApart graph.now.edges r.cycle) }
    ensures fit { IfOk result (λ r. Fit graph.now r.rate.num r.rate.den (potential_at r.potentials)) }
    ensures count { IfOk result (λ r. length r.potentials ≡ node_count graph.now) }
    ensures reached { IfOk result (λ r. (v : ℕ) → (x : ℤ) → potential_at r.potentials v ≡ Some x → IsReachedNode graph.now v) }
    ensures least { IfOk result (λ r. AreLeast graph.now r.rate.num r.rate.den (potential_at r.potentials)) }
    ensures shows { IfOk result (λ r. (file : ScenarioFile) → IsTimedGraph file graph.now → IsWorst file r.rate.num r.rate.den) }
{
    worst_is_shown();
    let mut best = first_cycle(alloc, graph)?;
    'passes: loop {
        match search_at(alloc, graph, best.rate.num, best.rate.den)? {
            Turn::Settled(levels) => {
                let answer = finish(alloc, graph, best, &levels)?;
                return Ok(answer);
            },
            Turn::Gains(next) => {
                best = next;
            },
        }
    }
}

/// A cycle to begin with: the first that a search without time finds.
fn first_cycle(alloc: Global, graph: &TimedGraph) -> Result<Best, NoMemory>
    requires sound { IsSound graph.now }
    requires grows { Grows graph.now }
    ensures { IfOk result (IsBest graph.now) }
{
    match search_at(alloc, graph, 1, 0)? {
        Turn::Settled(_levels) => unreachable!(),
        Turn::Gains(best) => Ok(best),
    }
}

/// Levels that settle at a rate, or a cycle that gains on it. Few levels most often show one of them; where they don't,
/// the search goes on to twice as many.
fn search_at(alloc: Global, graph: &TimedGraph, rounds: u64, time: u64) -> Result<Turn, NoMemory>
    requires sound { IsSound graph.now }
    requires rounds { rounds ≤ NODES }
    requires time { time ≤ LONGEST }
    ensures { IfOk result (IsTurn graph.now rounds time) }
{
    let nodes = graph.states * graph.tokens;
    let mut most = FIRST_LEVELS.min(nodes);
    let mut rows = first_rows(alloc, graph)?;
    'searches: loop {
        match search(alloc, graph, rounds, time, rows, most)? {
            Outcome::Settled(levels) => return Ok(Turn::Settled(levels)),
            Outcome::Raised(levels, node) => {
                if let Some(best) = better_cycle(alloc, graph, &levels, node)? {
                    return Ok(Turn::Gains(best));
                }
                rows = rows_of(levels);
                most = (2 * most).min(nodes);
            },
        }
    }
}

/// A cycle that gains on the rate of a search, if the walk of a node that was raised at the last level closes one. It
/// does where it has as many edges as there are nodes.
fn better_cycle(
    alloc: Global,
    graph: &TimedGraph,
    levels: &Levels,
    node: u32,
) -> Result<Option<Best>, NoMemory>
    requires sound { IsSound graph.now }
    requires levels { AreLevels graph.now levels.now.rounds levels.now.time levels.now.rows.items }
    requires some { 2 ≤ length levels.now.rows.items }
    requires few { length levels.now.rows.items ≤ node_count graph.now + 1 }
    requires node { node < node_count graph.now }
    requires raised { IsRaisedAt levels.now.rows.items (length levels.now.rows.items - 1) node }
    ensures { IfOk result (λ o. MatchOption o (length levels.now.rows.items ≤ node_count graph.now)
        (λ b. IsBest graph.now b × (levels.now.time * b.rate.num < b.rate.den * levels.now.rounds))) }
{
    let last = levels.rows.len() - 1;
    let walk = walk_to(alloc, graph, levels, last, node)?;
    let edges = graph.edges.as_slice();
    match first_return(edges, walk.as_slice(), node) {
        None => Ok(None),
        Some(part) => {
            let cycle = edges_of(alloc, walk.as_slice(), part)?;
            let best = best_of(edges, cycle);
            Ok(Some(best))
        },
    }
}

/// A cycle with its rate.
fn best_of(edges: &[Edge], cycle: Vec<u32>) -> Best
    requires inside { AreInside edges.now NODES }
    requires numbers { AreNumbers edges.now cycle.items }
    requires some { 1 ≤ length cycle.items }
    requires few { length cycle.items ≤ NODES }
    requires heavy { 1 ≤ weights edges.now cycle.items }
    ensures cycle { result.cycle.items ≡ cycle.items }
    ensures rate { result.rate.num * weights edges.now cycle.items ≡ length cycle.items * result.rate.den }
{
    let rate = Fraction::new(cycle.len() as u64, weight_of(edges, cycle.as_slice()));
    Best { rate, cycle }
}

/// The sum of the weights of edges.
fn weight_of(edges: &[Edge], numbers: &[u32]) -> u64
    requires inside { AreInside edges.now NODES }
    requires numbers { AreNumbers edges.now numbers.now }
    requires few { length numbers.now ≤ NODES }
    ensures { result ≡ weights edges.now numbers.now }
{
    let mut sum = 0u64;
    for number in numbers {
        sum += edges[*number as usize].weight;
    }
    sum
}

/// The answer of a search that has settled at the rate of a cycle.
fn finish(alloc: Global, graph: &TimedGraph, best: Best, levels: &Levels) -> Result<Worst, NoMemory>
    requires sound { IsSound graph.now }
    requires best { IsBest graph.now best }
    requires levels { AreLevels graph.now best.rate.num best.rate.den levels.now.rows.items }
    requires time { levels.now.time ≡ best.rate.den }
    requires last { IsLastOf graph.now best.rate.num best.rate.den levels.now.rows.items }
    ensures { IfOk result (ShowsWorst graph.now) }
{
    let level = levels.rows.len() - 1;
    let row = row_at(levels.rows.as_slice(), level);
    let potentials = potentials(alloc, row, level as u128 * levels.time as u128)?;
    let edges = graph.edges.as_slice();
    let tight = tight_edges(alloc, edges, row, best.rate.num, levels.time)?;
    let cycle = chosen_cycle(alloc, edges, tight.as_slice(), graph.states * graph.tokens)?;
    Ok(Worst {
        rate: best.rate,
        cycle: Rows::from_vec(cycle),
        potentials: Rows::from_vec(potentials),
    })
}

/// What scores stand for after levels that took a time.
fn potentials(
    alloc: Global,
    row: &[Option<Cell>],
    before: u128,
) -> Result<Vec<Option<i128>>, NoMemory>
    requires small { AreSmall HIGHEST (cell_at row.now) }
    requires before { before ≤ HIGHEST }
    ensures { IfOk result (λ list. list.items ≡ map (potential_of before) row.now) }
{
    let mut list = Vec::with_capacity(alloc, row.len())?;
    for place in 0..row.len() {
        list.push_reserved(potential(row[place], before));
    }
    Ok(list)
}

fn potential(cell: Option<Cell>, before: u128) -> Option<i128>
    requires small { MatchOption cell (Unit {0}) (λ c. c.score ≤ HIGHEST) }
    requires before { before ≤ HIGHEST }
    ensures { result ≡ potential_of before cell }
{
    match cell {
        Some(cell) => Some(cell.score as i128 - before as i128),
        None => None,
    }
}
