ghost use Rattle.std.specs.Prelude.{◌≡◌, ◌⊎◌, ◌+◌, ◌*◌, ◌≤◌, ◌<◌, ℕ, suc, true, false, length};
ghost use Rattle.sd_base.specs.declared.limits.TheConstants.{NET_CHANNELS};
ghost use Rattle.sd_base.specs.Net.{channel_at};
ghost use Rattle.sd_base.specs.Lawful.{is_token_role, is_space_role};
ghost use Rattle.storage.specs.Distributions.{IsPlain};
ghost use Rattle.explore.specs.Reachable.{IsExplorable};
ghost use Rattle.test_explore.specs.Neighbours.{AreJoined, JoinsAt, NeighboursAreJoined};

use explore::laws::incident_nets_are_explorable;
use explore::{Exploration, ExploreError, explore};
use fanout::Gate;
use firing::{Firing, know_laws};
use sd_base::limits::{
    DISTRIBUTIONS, LEAST_DISTRIBUTIONS, LEAST_STATES, NET_CHANNELS, STATES, STORAGE,
};
use sd_base::{Ledger, Limits, Role, Steps};
use std::alloc::Global;
use std::process::Abort;
use std::thread::Threads;

/// Loops that were run.
pub(crate) struct Loops;

impl Ledger for Loops {}

/// Explores a net whose neighbouring actors are joined.
pub(crate) fn explored<R: Threads + Abort + Sync, F: Firing + Sync, G: Gate + Sync>(
    rt: &R,
    alloc: Global,
    net: &F,
    limits: Limits,
    gate: &G,
) -> Result<Exploration, ExploreError> {
    assert!(rt; limits.total <= STORAGE);
    assert!(rt; LEAST_STATES <= limits.states && limits.states <= STATES);
    assert!(rt;
        LEAST_DISTRIBUTIONS <= limits.distributions && limits.distributions <= DISTRIBUTIONS
    );
    assert!(rt; is_explorable(net));
    let mut steps = Steps::new(Loops);
    let found = explore(rt, alloc, net, limits, gate, &mut steps);
    let Loops = steps.finish();
    found
}

/// Whether a net has a few plain channels that join neighbouring actors, of which there are two at least.
pub(crate) fn is_explorable<F: Firing>(net: &F) -> bool
    ensures { result ≡ true → IsExplorable (F.net net.now) }
{
    know_laws(net);
    incident_nets_are_explorable();
    if net.actors() < 2 || 2 * u64::from(net.channels()) > NET_CHANNELS {
        return false;
    }
    let plain = is_plain(net);
    let joined = are_joined(net);
    plain && joined
}

/// Whether each channel is one of the file, or a self-loop that is no free space.
fn is_plain<F: Firing>(net: &F) -> bool
    ensures { result ≡ true → IsPlain (F.net net.now) }
{
    for channel in 0..net.channels() {
        if !is_plain_at(net, channel) {
            return false;
        }
    }
    true
}

fn is_plain_at<F: Firing>(net: &F, channel: u32) -> bool
    requires { channel < length (F.net net.now).channels }
    ensures { result ≡ true → (is_token_role (channel_at (F.net net.now) channel).role ≡ true)
        ⊎ ((is_space_role (channel_at (F.net net.now) channel).role ≡ false) × ((channel_at (F.net net.now) channel).source ≡ (channel_at (F.net net.now) channel).target)) }
{
    match net.role(channel) {
        Role::Token(_) => true,
        Role::Own(_) => net.source(channel) == net.target(channel),
        Role::Space(_) | Role::Order(_, _) => false,
    }
}

/// Whether a channel joins each actor and the next one.
fn are_joined<F: Firing>(net: &F) -> bool
    requires { 1 ≤ length (F.net net.now).times }
    ensures { result ≡ true → NeighboursAreJoined (F.net net.now) }
{
    for actor in 0..net.actors() - 1 {
        if !is_joined(net, actor) {
            return false;
        }
    }
    true
}

/// Whether a channel joins an actor and the next one.
fn is_joined<F: Firing>(net: &F, actor: u32) -> bool
    requires { actor + 1 < length (F.net net.now).times }
    ensures { result ≡ true → AreJoined (F.net net.now) actor (suc actor) }
{
    for channel in 0..net.channels() {
        if joins_at(net, actor, channel) {
            return true;
        }
    }
    false
}

fn joins_at<F: Firing>(net: &F, actor: u32, channel: u32) -> bool
    requires actor { actor + 1 < length (F.net net.now).times }
    requires channel { channel < length (F.net net.now).channels }
    ensures { result ≡ true → JoinsAt (F.net net.now) actor (suc actor) channel }
{
    let source = net.source(channel);
    let target = net.target(channel);
    if source == actor {
        target == actor + 1
    } else {
        source == actor + 1 && target == actor
    }
}
