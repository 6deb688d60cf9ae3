ghost use Rattle.std.specs.Prelude.{◌≡◌, ◌+◌, ◌*◌, ◌≤◌, ◌<◌, IfOk, length, slice_index};
ghost use Rattle.sd_base.specs.declared.limits.TheConstants.{RATE};
ghost use Rattle.sd_base.specs.Net.{Net, channel_at, total};
ghost use Rattle.sd_base.specs.Lawful.{Lawful};
ghost use Rattle.sd_base.specs.Untimed.{IsLive};
ghost use Rattle.firing.specs.Ports.{rates_at};
ghost use Rattle.firing.specs.Wiring.{IsLevel};
ghost use Rattle.liveness.specs.RoundAnswers.{IsEnding, AreReachedCounts};

use crate::note::NoNote;
use crate::round::run_to_end;
use firing::{Firing, Port, Wired, know_laws, made_sum, port_phases, span_sum, taken_sum};
use sd_base::{NoMemory, Rows};
use std::alloc::Global;

/// What it comes to to fire one actor after another, none more often than in a round, without the order.
#[derive(Debug, Drop)]
pub enum Ending {
    /// Each actor can fire its round.
    Whole,
    /// No round can be completed. By actor the firings after which none can go on, and the first channel
    /// in the net's order on which an actor below its round lacks tokens.
    Blocked {
        counts: Rows<u64>,
        lacks: Rows<Option<u32>>,
    },
}

/// Fires a round, or as much of it as can fire, from counts by actor on that some order of firings reaches. Where it
/// ends doesn't depend on where it began. Cost: as of `fire_round` for the firings that are left, and linear in
/// the actors and channels; no list of the firings is made.
pub fn finish_round<F: Firing>(
    alloc: Global,
    wired: &Wired<F>,
    counts: &[u64],
) -> Result<Ending, NoMemory>
    requires { AreReachedCounts (F.net wired.now.net.now) counts.now }
    ensures { IfOk result (IsEnding (F.net wired.now.net.now)) }
{
    let net = wired.net;
    know_laws(net);
    let mut tokens = tokens_after(alloc, net, counts)?;
    let mut counts = Vec::from_slice(alloc, counts)?;
    let end = run_to_end(
        alloc,
        wired,
        counts.as_mut_slice(),
        tokens.as_mut_slice(),
        &mut NoNote,
    )?;
    match end {
        None => Ok(Ending::Whole),
        Some(lacks) => Ok(Ending::Blocked {
            counts: Rows::from_vec(counts),
            lacks,
        }),
    }
}

/// The counts by actor with which a round begins: none has fired. They are reached in each net of so many actors.
pub fn no_counts<F: Firing>(alloc: Global, net: &F) -> Result<Rows<u64>, NoMemory>
    ensures { IfOk result (λ v. (other : Net) → length other.times ≡ length (F.net net.now).times → AreReachedCounts other v) }
{
    let counts = vec![in alloc; 0u64; net.actors() as usize]?;
    Ok(Rows::from_vec(counts))
}

/// The counts by actor with which a round ends: those of the repetition vector. They are reached in each live net of that round.
pub fn whole_counts<F: Firing>(alloc: Global, net: &F) -> Result<Rows<u64>, NoMemory>
    ensures round { IfOk result (λ v. v ≡ (F.net net.now).round) }
    ensures reached { IfOk result (λ v. (other : Net) → Lawful other → other.round ≡ (F.net net.now).round → IsLive other → AreReachedCounts other v) }
{
    know_laws(net);
    let mut counts = Vec::with_capacity(alloc, net.actors() as usize)?;
    for actor in 0..net.actors() {
        counts.push(net.round(actor))?;
    }
    Ok(Rows::from_vec(counts))
}

/// By channel the tokens after so many firings of each actor.
fn tokens_after<F: Firing>(alloc: Global, net: &F, counts: &[u64]) -> Result<Vec<u128>, NoMemory>
    requires { AreReachedCounts (F.net net.now) counts.now }
    ensures { IfOk result (λ v. IsLevel (F.net net.now) (slice_index counts.now) (slice_index counts.now) v.items) }
{
    let mut tokens = Vec::with_capacity(alloc, net.channels() as usize)?;
    for channel in 0..net.channels() {
        tokens.push(tokens_at(net, channel, counts))?;
    }
    Ok(tokens)
}

/// The tokens on a channel after so many firings of each actor.
fn tokens_at<F: Firing>(net: &F, channel: u32, counts: &[u64]) -> u128
    requires channel { channel < length (F.net net.now).channels }
    requires reached { AreReachedCounts (F.net net.now) counts.now }
    ensures { result + total (channel_at (F.net net.now) channel).taken (slice_index counts.now (channel_at (F.net net.now) channel).target)
        ≡ (channel_at (F.net net.now) channel).tokens + total (channel_at (F.net net.now) channel).made (slice_index counts.now (channel_at (F.net net.now) channel).source) }
{
    know_laws(net);
    let made = counts[net.source(channel) as usize];
    let taken = counts[net.target(channel) as usize];
    u128::from(net.tokens(channel)) + moved_sum(net, channel, Port::Made, made)
        - moved_sum(net, channel, Port::Taken, taken)
}

/// The tokens that so many firings of the actor at an end of a channel make or take there. Cost: constant where the actor
/// has one phase, else that of `made_sum`.
pub fn moved_sum<F: Firing>(net: &F, channel: u32, port: Port, firings: u64) -> u128
    requires { channel < length (F.net net.now).channels }
    ensures sum { result ≡ total (rates_at port (channel_at (F.net net.now) channel)) firings }
    ensures small { result ≤ firings * RATE }
{
    know_laws(net);
    if port_phases(net, channel, port) == 1 {
        return span_sum(net, channel, port, 0, firings);
    }
    match port {
        Port::Made => made_sum(net, channel, u128::from(firings)),
        Port::Taken => taken_sum(net, channel, u128::from(firings)),
    }
}
