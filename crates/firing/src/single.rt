//! A copy of a net of which each actor has one phase.
ghost use Rattle.std.specs.Prelude.{◌≡◌, ◌↔◌, ◌<◌, ℕ, [], ◌∷◌, IfOk, IsTrue, length, map};
ghost use Rattle.sd_base.specs.Net.{channel_at};
ghost use Rattle.sd_base.specs.Schedules.{phases_at};
ghost use Rattle.firing.specs.Sdf.{plain_channel, plain_net};

use crate::net::{Firing, know_laws};
use crate::sdf::{SdfChannel, SdfNet, net_of_tables};
use sd_base::NoMemory;
use std::alloc::Global;

/// A copy of a net of which each actor has one phase. It is quicker to read than a net that stands over another.
/// Cost: linear in the actors and channels.
pub fn single_phase_copy<F: Firing>(alloc: Global, net: &F) -> Result<SdfNet, NoMemory>
    requires { (a : ℕ) → a < length (F.net net.now).times → phases_at (F.net net.now) a ≡ 1 }
    ensures { IfOk result (λ n. ⟦<SdfNet as Firing>⟧.net n ≡ F.net net.now) }
{
    know_laws(net);
    let times = times_of(alloc, net)?;
    let channels = channels_of(alloc, net)?;
    let rounds = rounds_of(alloc, net)?;
    Ok(net_of_tables(times, channels, rounds))
}

/// By actor its time.
fn times_of<F: Firing>(alloc: Global, net: &F) -> Result<Vec<u64>, NoMemory>
    requires { (a : ℕ) → a < length (F.net net.now).times → phases_at (F.net net.now) a ≡ 1 }
    ensures { IfOk result (λ v. map (λ t. t ∷ []) v.items ≡ (F.net net.now).times) }
{
    let mut times = Vec::with_capacity(alloc, net.actors() as usize)?;
    for actor in 0..net.actors() {
        times.push(net.time(actor, 0))?;
    }
    Ok(times)
}

/// By channel its ends, rates, tokens, size and role.
fn channels_of<F: Firing>(alloc: Global, net: &F) -> Result<Vec<SdfChannel>, NoMemory>
    requires { (a : ℕ) → a < length (F.net net.now).times → phases_at (F.net net.now) a ≡ 1 }
    ensures { IfOk result (λ v. map plain_channel v.items ≡ (F.net net.now).channels) }
{
    let mut channels = Vec::with_capacity(alloc, net.channels() as usize)?;
    for channel in 0..net.channels() {
        channels.push(channel_of(net, channel))?;
    }
    Ok(channels)
}

/// A channel's ends, rates, tokens, size and role.
fn channel_of<F: Firing>(net: &F, channel: u32) -> SdfChannel
    requires channel { channel < length (F.net net.now).channels }
    requires single { (a : ℕ) → a < length (F.net net.now).times → phases_at (F.net net.now) a ≡ 1 }
    ensures { plain_channel result ≡ channel_at (F.net net.now) channel }
{
    know_laws(net);
    SdfChannel {
        source: net.source(channel),
        target: net.target(channel),
        made: net.made(channel, 0),
        taken: net.taken(channel, 0),
        tokens: net.tokens(channel),
        size: net.size(channel),
        role: net.role(channel),
    }
}

/// By actor its firings in a round.
fn rounds_of<F: Firing>(alloc: Global, net: &F) -> Result<Vec<u64>, NoMemory>
    ensures { IfOk result (λ v. v.items ≡ (F.net net.now).round) }
{
    know_laws(net);
    let mut rounds = Vec::with_capacity(alloc, net.actors() as usize)?;
    for actor in 0..net.actors() {
        rounds.push(net.round(actor))?;
    }
    Ok(rounds)
}

/// Whether each actor of a net has one phase.
pub fn is_single_phase<F: Firing>(net: &F) -> bool
    ensures { IsTrue result ↔ ((a : ℕ) → a < length (F.net net.now).times → phases_at (F.net net.now) a ≡ 1) }
{
    for actor in 0..net.actors() {
        if net.phases(actor) != 1 {
            return false;
        }
    }
    true
}
