//! Balance of dataflow graphs: repetition vectors or the walk that shows there is none, and connection.
#![tactic(auto)]

mod closed;
mod connection;
mod lists;
mod ratio;
mod refusal;
mod round;
mod search;
mod walk;
mod way;

ghost use Rattle.std.specs.Prelude.{◌≡◌, ℕ, ◌<◌, IfOk, IfErr, length, true};
ghost use Rattle.sd_base.specs.Tables.{KeepsRules};
ghost use Rattle.balance.specs.Walks.{links_of};
ghost use Rattle.balance.specs.inside.Search.{IsSearched, mark_at};
ghost use Rattle.balance.specs.Repetition.{IsRound, IsRefusal, HasOneAnswer};

use closed::all_kept;
pub use connection::{ConnectError, no_input, strongly_connected};
use ratio::ratios;
pub use refusal::BalanceError;
use round::round;
use sd_base::{GraphFile, Rows};
use search::{Search, first_unmarked, ways};
use std::alloc::Global;
pub use walk::WalkStep;
use walk::{Link, links};

/// The repetition vector: by actor, in file order, its firings in a round. They make as many tokens on every channel as
/// they take, and no such vector is smaller (Lee and Messerschmitt, 1987). The answer is one, up to want of memory, by
/// `one_answer`.
///
/// Cost: linear in actors, channels and phases but for greatest common divisors, of which there are two for each
/// actor.
pub fn repetition(alloc: Global, graph: &GraphFile) -> Result<Rows<u64>, BalanceError>
    requires { KeepsRules graph.now }
    ensures round { IfOk result (IsRound graph.now) }
    ensures refusal { IfErr result (IsRefusal graph.now) }
{
    let links = links(alloc, graph)?;
    let search = ways(alloc, graph.actors.len(), &links)?;
    if let Some(b) = first_unmarked(&search.seen) {
        return Err(BalanceError::Apart { a: 0, b });
    }
    within_limits(alloc, graph, &links, &search)
}

/// The repetition vector of a connected graph.
fn within_limits(
    alloc: Global,
    graph: &GraphFile,
    links: &[Link],
    search: &Search,
) -> Result<Rows<u64>, BalanceError>
    requires rules { KeepsRules graph.now }
    requires links { links.now ≡ links_of graph.now }
    requires tree { IsSearched links.now (length graph.now.actors) search.now.found.items search.now.seen.items }
    requires connected { (b : ℕ) → b < length search.now.seen.items → mark_at search.now.seen.items b ≡ true }
    ensures round { IfOk result (IsRound graph.now) }
    ensures refusal { IfErr result (IsRefusal graph.now) }
{
    let ratios = ratios(alloc, links, search)?;
    all_kept(alloc, links, search, &ratios)?;
    round(alloc, graph, &ratios)
}

/// At most one of the answers of `repetition` but want of memory fits a graph.
pub fn one_answer()
    ensures { HasOneAnswer }
{}
