ghost use Rattle.std.specs.Prelude.{◌≡◌, ◌≤◌, ◌<◌, ℕ, true, length, slice_get};
ghost use Rattle.sd_base.specs.declared.limits.TheConstants.{NET_TOKENS};
ghost use Rattle.sd_base.specs.Net.{channel_at};
ghost use Rattle.sd_base.specs.Lawful.{is_token_role};
ghost use Rattle.storage.specs.Distributions.{IsDistribution, storage_of};
ghost use Rattle.guide.specs.Evaluations.{IsEvaluable};
ghost use Rattle.test_explore.specs.Fitting.{FitsAt};

use crate::checks::{Loops, is_explorable};
use firing::{Firing, know_laws};
use guide::{Evaluation, evaluate};
use lasso::RunError;
use sd_base::limits::NET_TOKENS;
use sd_base::{Role, Steps};
use std::alloc::Global;
use std::process::Abort;
use storage::Distribution;

/// What is evaluated of a distribution of a net whose neighbouring actors are joined.
pub(crate) fn evaluated<F: Firing>(
    rt: &impl Abort,
    alloc: Global,
    net: &F,
    capacities: &Distribution,
) -> Result<Evaluation, RunError> {
    assert!(rt; is_evaluable(net, capacities));
    let mut steps = Steps::new(Loops);
    let found = evaluate(alloc, net, capacities, 1000, &mut steps);
    let Loops = steps.finish();
    found
}

fn is_evaluable<F: Firing>(net: &F, capacities: &Distribution) -> bool
    ensures { result ≡ true → IsEvaluable (F.net net.now) capacities.now.capacities }
{
    know_laws(net);
    if !is_explorable(net) {
        return false;
    }
    if !is_distribution(net, capacities) {
        return false;
    }
    is_small(net, capacities)
}

fn is_small<F: Firing>(net: &F, capacities: &Distribution) -> bool
    requires { length capacities.now.capacities ≤ length (F.net net.now).channels }
    ensures { result ≡ true → storage_of (F.net net.now).channels capacities.now.capacities ≤ NET_TOKENS }
{
    capacities.total_within(net, NET_TOKENS).is_some()
}

/// Whether each channel of the file has a capacity that covers its tokens, or none where it is a self-loop, and all other
/// channels are self-loops.
fn is_distribution<F: Firing>(net: &F, capacities: &Distribution) -> bool
    ensures few { result ≡ true → length capacities.now.capacities ≤ length (F.net net.now).channels }
    ensures is { result ≡ true → IsDistribution (F.net net.now).channels capacities.now.capacities }
{
    if capacities.capacities.len() > net.channels() as usize {
        return false;
    }
    for channel in 0..net.channels() {
        let entry = entry_at(capacities.capacities.as_slice(), channel as usize);
        if !fits_at(net, channel, entry) {
            return false;
        }
    }
    true
}

fn entry_at(capacities: &[Option<u64>], channel: usize) -> Option<Option<u64>>
    ensures { result ≡ slice_get capacities.now channel }
{
    if channel < capacities.len() {
        Some(capacities[channel])
    } else {
        None
    }
}

fn fits_at<F: Firing>(net: &F, channel: u32, entry: Option<Option<u64>>) -> bool
    requires { channel < length (F.net net.now).channels }
    ensures { result ≡ true → FitsAt (channel_at (F.net net.now) channel) entry }
{
    let is_loop = net.source(channel) == net.target(channel);
    let in_file = is_token(net.role(channel));
    match entry {
        None => !in_file && is_loop,
        Some(None) => in_file && is_loop,
        Some(Some(room)) => in_file && !is_loop && net.tokens(channel) <= room,
    }
}

fn is_token(role: Role) -> bool
    ensures { result ≡ is_token_role role }
{
    match role {
        Role::Token(_) => true,
        Role::Own(_) | Role::Space(_) | Role::Order(_, _) => false,
    }
}
