ghost use Rattle.std.specs.Prelude.{◌≤◌};
ghost use Rattle.sd_base.specs.Tables.{KeepsRules};

use crate::chain::chain;
use anyhow::Result;
use balance::{BalanceError, repetition};
use sd_base::GraphFile;
use std::alloc::Global;

/// So many calls on a graph of so many actors and channels.
#[derive(Drop)]
struct Plan {
    actors: u32,
    channels: u32,
    repeats: u32,
    ghost some_actor: { 1 ≤ actors },
    ghost few_actors: { actors ≤ 128 },
    ghost few_channels: { channels ≤ 256 },
}

/// Solves one graph as often as the words say, and tells how many firings a round has.
pub(crate) fn line_of(alloc: Global, words: &[String]) -> Result<Option<String>> {
    let Some(plan) = plan_of(words) else {
        return Ok(None);
    };
    let firings = firings(alloc, &plan)?;
    Ok(Some(format!(in alloc; "{firings}")?))
}

/// The plan of these words: 1 to 128 actors, at most 256 channels.
fn plan_of(words: &[String]) -> Option<Plan> {
    let [actors, channels, repeats] = words else {
        return None;
    };
    let actors = number(actors.as_str())?;
    let channels = number(channels.as_str())?;
    let repeats = number(repeats.as_str())?;
    if actors < 1 || actors > 128 || channels > 256 {
        return None;
    }
    Some(Plan {
        actors,
        channels,
        repeats,
    })
}

fn number(word: &str) -> Option<u32> {
    word.parse::<u32>().ok()
}

/// How many firings a round has, by the last call; 0 without a call.
fn firings(alloc: Global, plan: &Plan) -> Result<u64, BalanceError> {
    let graph = chain(alloc, plan.actors, plan.channels)?;
    let mut firings = 0;
    for _call in 0..plan.repeats {
        firings = once(alloc, &graph)?;
    }
    Ok(firings)
}

fn once(alloc: Global, graph: &GraphFile) -> Result<u64, BalanceError>
    requires { KeepsRules graph.now }
{
    let round = repetition(alloc, graph)?;
    Ok(round.as_slice().iter().sum())
}
