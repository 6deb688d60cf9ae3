//! Connection of a net.
ghost use Rattle.std.specs.Prelude.{◌≡◌, ◌↔◌, ℕ, ◌<◌, IfOk, IsTrue, length};
ghost use Rattle.sd_base.specs.Net.{channel_at};
ghost use Rattle.sd_base.specs.Connection.{IsStronglyConnected};
ghost use Rattle.sd_base.specs.Schedules.{HasInputs};
ghost use Rattle.cert_checker.specs.RateCertificates.{IsJoined};

use balance::{ConnectError, strongly_connected};
use firing::{Firing, ends, know_laws};
use sd_base::NoMemory;
use std::alloc::Global;

/// Whether a path leads from each actor to each, and a channel into each.
pub(crate) fn is_joined<F: Firing>(alloc: Global, net: &F) -> Result<bool, NoMemory>
    ensures { IfOk result (λ b. IsTrue b ↔ IsJoined (F.net net.now)) }
{
    let strong = is_strongly_connected(alloc, net)?;
    Ok(strong && has_inputs(net))
}

fn is_strongly_connected<F: Firing>(alloc: Global, net: &F) -> Result<bool, NoMemory>
    ensures { IfOk result (λ b. IsTrue b ↔ IsStronglyConnected (F.net net.now)) }
{
    know_laws(net);
    let ends = ends(alloc, net)?;
    match strongly_connected(alloc, net.actors(), &ends) {
        Ok(()) => Ok(true),
        Err(ConnectError::OneWay { .. }) => Ok(false),
        Err(ConnectError::NoMemory) => Err(NoMemory),
    }
}

/// Whether a channel leads into each actor.
pub(crate) fn has_inputs<F: Firing>(net: &F) -> bool
    ensures { IsTrue result ↔ HasInputs (F.net net.now) }
{
    for actor in 0..net.actors() {
        if !has_input(net, actor) {
            return false;
        }
    }
    true
}

fn has_input<F: Firing>(net: &F, actor: u32) -> bool
    ensures { IsTrue result ↔ ((i : ℕ) × (i < length (F.net net.now).channels) × ((channel_at (F.net net.now) i).target ≡ actor)) }
{
    for channel in 0..net.channels() {
        if net.target(channel) == actor {
            return true;
        }
    }
    false
}
