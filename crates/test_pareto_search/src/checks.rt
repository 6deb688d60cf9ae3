ghost use Rattle.std.specs.Prelude.{◌≡◌, ◌⊎◌, ◌≤◌, ◌<◌, true, false, length};
ghost use Rattle.sd_base.specs.declared.limits.TheConstants.{DISTRIBUTIONS, LEAST_DISTRIBUTIONS, LEAST_STATES, STATES, STORAGE};
ghost use Rattle.sd_base.specs.Net.{channel_at};
ghost use Rattle.sd_base.specs.Lawful.{is_token_role, is_space_role};
ghost use Rattle.storage.specs.Distributions.{IsPlain};
ghost use Rattle.explore.specs.Reachable.{IsExplorable};

use explore::laws::incident_nets_are_explorable;
use firing::{Firing, know_laws};
use sd_base::limits::{
    DISTRIBUTIONS, LEAST_DISTRIBUTIONS, LEAST_STATES, NET_CHANNELS, STATES, STORAGE,
};
use sd_base::{Limits, Role};
use std::process::Abort;
use test_nets::is_joined;

/// Asserts that a net can be searched within these limits.
pub(crate) fn require_searchable<F: Firing>(rt: &impl Abort, net: &F, limits: Limits)
    ensures net { IsExplorable (F.net net.now) }
    ensures total { limits.total ≤ STORAGE }
    ensures some_states { LEAST_STATES ≤ limits.states }
    ensures few_states { limits.states ≤ STATES }
    ensures some { LEAST_DISTRIBUTIONS ≤ limits.distributions }
    ensures few { limits.distributions ≤ DISTRIBUTIONS }
{
    assert!(rt; limits.total <= STORAGE);
    assert!(rt; LEAST_STATES <= limits.states && limits.states <= STATES);
    assert!(rt;
        LEAST_DISTRIBUTIONS <= limits.distributions && limits.distributions <= DISTRIBUTIONS
    );
    assert!(rt; is_explorable(net));
}

/// Whether a net has a few plain channels, by which each of its actors but the first one is joined to one before it, and has two
/// actors at least.
fn is_explorable<F: Firing>(net: &F) -> bool
    ensures { result ≡ true → IsExplorable (F.net net.now) }
{
    know_laws(net);
    incident_nets_are_explorable();
    if net.actors() < 2 || 2 * u64::from(net.channels()) > NET_CHANNELS {
        return false;
    }
    if !is_joined(net) {
        return false;
    }
    is_plain(net)
}

/// Whether each channel is one of the file, or a self-loop that is no free space.
fn is_plain<F: Firing>(net: &F) -> bool
    ensures { result ≡ true → IsPlain (F.net net.now) }
{
    for channel in 0..net.channels() {
        if !is_plain_at(net, channel) {
            return false;
        }
    }
    true
}

fn is_plain_at<F: Firing>(net: &F, channel: u32) -> bool
    requires { channel < length (F.net net.now).channels }
    ensures { result ≡ true → (is_token_role (channel_at (F.net net.now) channel).role ≡ true)
        ⊎ ((is_space_role (channel_at (F.net net.now) channel).role ≡ false) × ((channel_at (F.net net.now) channel).source ≡ (channel_at (F.net net.now) channel).target)) }
{
    match net.role(channel) {
        Role::Token(_) => true,
        Role::Own(_) => net.source(channel) == net.target(channel),
        Role::Space(_) | Role::Order(_, _) => false,
    }
}
