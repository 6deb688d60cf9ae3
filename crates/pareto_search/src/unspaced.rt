//! Which rates a need cycle on no free space can have at all.
ghost use Rattle.std.specs.Prelude.{◌<◌, length};

use firing::{Firing, know_laws};
use sd_base::{Fraction, Role};

/// Whether a need cycle on no free space may have a rate. Where each channel but the own ones leads on to an actor with a
/// greater number, such a cycle goes round one actor along its own channel, so it takes the time of the actor's firings in
/// a round; else any rate may be one. Nothing rests on the answer but which searches are left out. Cost: linear in channels
/// and phases.
pub(crate) fn may_bound<F: Firing>(net: &F, rate: Fraction) -> bool {
    !leads_on(net) || u128::from(rate.num) * u128::from(busiest(net)) >= u128::from(rate.den)
}

/// Whether each channel is an own one, or leads on to an actor with a greater number.
fn leads_on<F: Firing>(net: &F) -> bool {
    for channel in 0..net.channels() {
        let is_own = matches!(net.role(channel), Role::Own(_));
        if !is_own && net.target(channel) <= net.source(channel) {
            return false;
        }
    }
    true
}

/// The greatest time that the firings of one actor in a round take one after another, of the actors with an own channel.
fn busiest<F: Firing>(net: &F) -> u64 {
    know_laws(net);
    let mut most: u64 = 0;
    for channel in 0..net.channels() {
        if let Role::Own(_) = net.role(channel) {
            most = most.max(round_time(net, net.source(channel)));
        }
    }
    most
}

/// The time of the firings of an actor in a round together, or the greatest number where it is greater.
fn round_time<F: Firing>(net: &F, actor: u32) -> u64
    requires { actor < length (F.net net.now).times }
{
    let phases = net.phases(actor);
    let mut sum: u64 = 0;
    for phase in 0..phases {
        sum = sum.saturating_add(net.time(actor, phase));
    }
    sum.saturating_mul(net.round(actor) / u64::from(phases.max(1)))
}
