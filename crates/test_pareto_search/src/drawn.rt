ghost use Rattle.std.specs.Prelude.{◌≤◌, ◌<◌};

use crate::draws::Draws;
use firing::SdfNet;
use std::alloc::{AllocFailed, Global};
use std::cmp::Ordering;
use test_nets::{Line, TableError, table_net};

/// How much storage is searched beyond what the least capacities need.
const MORE: u64 = 12;

/// A net of 3 to 6 actors drawn from a seed, and the storage up to which it is searched. A channel leads from each actor to the
/// next one, and up to three more lead from any actor to any. Rates are 1 to 3, times 1 to 9, sizes of tokens 1 and 2. Where the seed
/// is even, firings of an actor overlap only by a channel from it to itself.
pub(crate) fn drawn_net(alloc: Global, seed: u64) -> Result<(SdfNet, u64), TableError> {
    let mut draws = Draws::new(seed);
    let actors = 3 + draws.draw(4) as u32;
    let weights = draws.six(3);
    let times = draws.six(9);
    let lines = drawn_lines(alloc, &mut draws, actors, &weights)?;
    let net = table_net(
        alloc,
        &times[..actors as usize],
        lines.as_slice(),
        seed % 2 == 0,
    )?;
    Ok((net, storage_for(lines.as_slice())))
}

/// The channels between neighbours, and the others. Rates are the weights of the actors at the other ends.
fn drawn_lines(
    alloc: Global,
    draws: &mut Draws,
    actors: u32,
    weights: &[u64; 6],
) -> Result<Vec<Line>, AllocFailed<Line>>
    requires some { 1 ≤ actors }
    requires few { actors ≤ 6 }
{
    let mut lines = Vec::new(alloc);
    for actor in 1..actors {
        lines.push(drawn_line(draws, weights, actor - 1, actor))?;
    }
    push_others(draws, actors, weights, &mut lines)?;
    Ok(lines)
}

fn push_others(
    draws: &mut Draws,
    actors: u32,
    weights: &[u64; 6],
    lines: &mut Vec<Line>,
) -> Result<(), AllocFailed<Line>>
    requires some { 1 ≤ actors }
    requires few { actors ≤ 6 }
{
    let others = draws.draw(4);
    for _ in 0..others {
        let source = draws.draw(u64::from(actors)) as u32;
        let target = draws.draw(u64::from(actors)) as u32;
        lines.push(drawn_line(draws, weights, source, target))?;
    }
    Ok(())
}

fn drawn_line(draws: &mut Draws, weights: &[u64; 6], source: u32, target: u32) -> Line
    requires source { source < 6 }
    requires target { target < 6 }
{
    let (made, taken) = if source == target {
        (1, 1)
    } else {
        (weights[target as usize], weights[source as usize])
    };
    let tokens = match source.cmp(&target) {
        Ordering::Less => draws.draw(2),
        Ordering::Equal => 1 + draws.draw(2),
        Ordering::Greater => made.saturating_mul(taken).saturating_add(draws.draw(4)),
    };
    Line {
        source,
        made,
        taken,
        target,
        tokens,
        size: 1 + draws.draw(2),
    }
}

/// What lets each firing have room for its tokens beside those that are there at first, and a little more.
fn storage_for(lines: &[Line]) -> u64 {
    let mut storage = MORE;
    for line in lines {
        if line.source != line.target {
            let capacity = line.made.max(line.taken).saturating_add(line.tokens);
            storage = storage.saturating_add(capacity.saturating_mul(line.size));
        }
    }
    storage
}
