ghost use Rattle.std.specs.Prelude.{◌<◌};

use crate::draws::Draws;
use crate::table::{Line, TableError, channel, table_net};
use firing::SdfNet;
use std::alloc::{AllocFailed, Global};

/// A net of 2 to 4 actors drawn from a seed. Between neighbours a channel leads on and one leads back, so that each
/// actor has an input; some actors have a self-loop. Times are 1 to 5, rates 1 to 3. There may be too few tokens
/// for a round.
pub fn drawn_net(alloc: Global, seed: u64) -> Result<SdfNet, TableError> {
    let mut draws = Draws::new(seed);
    let mut times = Vec::new(alloc);
    let mut lines = Vec::new(alloc);
    let last = 1 + draws.draw(3) as u32;
    let mut weight = draw_weight(&mut draws);
    times.push(1 + draws.draw(5))?;
    push_self_loop(&mut draws, &mut lines, 0)?;
    for actor in 0..last {
        let next = draw_weight(&mut draws);
        times.push(1 + draws.draw(5))?;
        push_pair(&mut draws, &mut lines, actor, weight, next)?;
        push_self_loop(&mut draws, &mut lines, actor + 1)?;
        weight = next;
    }
    table_net(alloc, times.as_slice(), lines.as_slice(), false)
}

/// What an actor's firings in a round are divided by: neighbours' rates are each other's weights.
fn draw_weight(draws: &mut Draws) -> u32 {
    1 + draws.draw(3) as u32
}

/// A channel from an actor to the next one, and one back.
fn push_pair(
    draws: &mut Draws,
    lines: &mut Vec<Line>,
    actor: u32,
    weight: u32,
    next: u32,
) -> Result<(), AllocFailed<Line>>
    requires { actor < 1000 }
{
    let made = next as u64;
    let taken = weight as u64;
    lines.push(channel(actor, made, taken, actor + 1, draws.draw(3)))?;
    let back = draws.draw(2 * (made + taken) + 1);
    lines.push(channel(actor + 1, taken, made, actor, back))
}

/// In half of the cases a channel from an actor to itself, with one or two tokens.
fn push_self_loop(
    draws: &mut Draws,
    lines: &mut Vec<Line>,
    actor: u32,
) -> Result<(), AllocFailed<Line>> {
    if draws.draw(2) == 0 {
        return Ok(());
    }
    lines.push(channel(actor, 1, 1, actor, 1 + draws.draw(2)))
}
