ghost use Rattle.std.specs.Prelude.{◌≡◌, ◌<◌, IfOk, All, None, Some, length, slice_index, slice_index_or};
ghost use Rattle.sd_base.specs.Net.{channel_at};
ghost use Rattle.sd_base.specs.Untimed.{Blocks, IsFirstLacking, NamesLacks};
ghost use Rattle.circular_waits.specs.CircularWaits.{IsCircularWait, WaitOnce};
ghost use Rattle.circular_waits.specs.inside.Following.{after, awaited, AreNamedFrom, ComesBack, IsNamed, IsRoundFrom, IsShort};

use firing::{Firing, know_laws};
use sd_base::{NoMemory, Rows};
use std::alloc::Global;

/// The channels of a circular wait of a blocked net: from the first actor below its round, the first to which the way from
/// each actor to the source of the first channel on which it lacks tokens comes back. `counts` are the firings by actor
/// that block the net, and `lacks` those channels. Cost: linear in the actors.
pub fn circular_wait<F: Firing>(
    alloc: Global,
    net: &F,
    counts: &[u64],
    lacks: &[Option<u32>],
) -> Result<Rows<u32>, NoMemory>
    requires actors { length counts.now ≡ length (F.net net.now).times }
    requires blocks { Blocks (F.net net.now) (slice_index counts.now) }
    requires names { NamesLacks (F.net net.now) (slice_index counts.now) lacks.now }
    ensures wait { IfOk result (λ channels. IsCircularWait (F.net net.now) (slice_index counts.now) channels) }
    ensures first { IfOk result (λ channels. All (λ i. IsFirstLacking (F.net net.now) (slice_index counts.now) (channel_at (F.net net.now) i).target i) channels) }
    ensures once { IfOk result (λ channels. WaitOnce (F.net net.now) channels) }
{
    know_laws(net);
    let short = first_short(net, counts);
    let start = far_on(net, lacks, short);
    round_from(alloc, net, lacks, start)
}

/// The first actor below its round.
fn first_short<F: Firing>(net: &F, counts: &[u64]) -> u32
    requires actors { length counts.now ≡ length (F.net net.now).times }
    requires blocks { Blocks (F.net net.now) (slice_index counts.now) }
    ensures { IsShort (F.net net.now) (slice_index counts.now) result }
{
    for actor in 0..net.actors() {
        if counts[actor as usize] < net.round(actor) {
            return actor;
        }
    }
    unreachable!()
}

/// The actor that is reached from one by as many steps as there are actors, each from an actor to the one that it waits
/// for. Such a way comes back to where it has been, so this one stands on what it goes round.
fn far_on<F: Firing>(net: &F, lacks: &[Option<u32>], short: u32) -> u32
    requires { AreNamedFrom (F.net net.now) lacks.now short }
    ensures { result ≡ after (F.net net.now) lacks.now (length (F.net net.now).times) short }
{
    let mut actor = short;
    for _step in 0..net.actors() {
        actor = awaited(net, lacks, actor);
    }
    actor
}

/// The actor that an actor waits for.
fn awaited<F: Firing>(net: &F, lacks: &[Option<u32>], actor: u32) -> u32
    requires { IsNamed (F.net net.now) lacks.now actor }
    ensures { result ≡ awaited (F.net net.now) lacks.now actor }
{
    net.source(lacks[actor as usize].unwrap())
}

/// The channels that are named on the way from an actor back to it.
fn round_from<F: Firing>(
    alloc: Global,
    net: &F,
    lacks: &[Option<u32>],
    start: u32,
) -> Result<Rows<u32>, NoMemory>
    requires named { AreNamedFrom (F.net net.now) lacks.now start }
    requires back { ComesBack (F.net net.now) lacks.now start }
    ensures { IfOk result (λ channels. IsRoundFrom (F.net net.now) lacks.now start channels) }
{
    let mut channels = Vec::new(alloc);
    let mut actor = start;
    'round: loop {
        let channel = lacks[actor as usize].unwrap();
        channels.push(channel)?;
        actor = net.source(channel);
        if actor == start {
            return Ok(Rows::from_vec(channels));
        }
    }
}
