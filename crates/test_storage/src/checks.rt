ghost use Rattle.std.specs.Prelude.{◌≡◌, ◌≢◌, ◌+◌, ◌^◌, ◌<◌, ◌≤◌, ℕ, true, Some, length};
ghost use Rattle.sd_base.specs.declared.limits.TheConstants.{NET_TOKENS};
ghost use Rattle.sd_base.specs.Net.{channel_at};
ghost use Rattle.storage.specs.BoundedNets.{HasNoSpaces};
ghost use Rattle.sd_base.specs.Lawful.{is_space_role};
ghost use Rattle.storage.specs.Distributions.{CanHold, capacity_at};

use firing::Firing;
use sd_base::Role;
use sd_base::limits::{NET_CHANNELS, NET_TOKENS};
use std::alloc::Global;
use std::process::Abort;
use std::test::Fail;
use storage::{Bounded, Distribution, step};

/// The net bounded by capacities that it can hold.
pub(crate) fn bounded<'a, F: Firing>(
    rt: &impl Abort,
    alloc: Global,
    net: &'a F,
    capacities: &Distribution,
) -> Result<Bounded<'a, F>, Fail> {
    assert!(rt; has_no_spaces(net));
    assert!(rt; can_hold(net, capacities));
    assert!(rt; u64::from(net.channels()) + capacities.capacities.len() as u64 <= NET_CHANNELS);
    Ok(Bounded::new(alloc, net, capacities)?)
}

/// Whether no channel of a net stands for free space.
fn has_no_spaces<F: Firing>(net: &F) -> bool
    ensures { result ≡ true → HasNoSpaces (F.net net.now) }
{
    for channel in 0..net.channels() {
        if is_space(net.role(channel)) {
            return false;
        }
    }
    true
}

fn is_space(role: Role) -> bool
    ensures { result ≡ is_space_role role }
{
    match role {
        Role::Space(_) => true,
        Role::Token(_) | Role::Own(_) | Role::Order(_, _) => false,
    }
}

/// Whether a net can hold capacities: only channels between two actors have one, and it is no less than the channel's tokens.
fn can_hold<F: Firing>(net: &F, capacities: &Distribution) -> bool
    ensures long { result ≡ true → length capacities.now.capacities ≤ length (F.net net.now).channels }
    ensures can { result ≡ true → CanHold (F.net net.now).channels capacities.now.capacities }
{
    if capacities.capacities.len() > net.channels() as usize {
        return false;
    }
    for channel in 0..capacities.capacities.len() {
        if !entry_fits(
            net,
            channel as u32,
            capacities.capacities.as_slice()[channel],
        ) {
            return false;
        }
    }
    true
}

fn entry_fits<F: Firing>(net: &F, channel: u32, entry: Option<u64>) -> bool
    requires { channel < length (F.net net.now).channels }
    ensures { result ≡ true → (k : ℕ) → entry ≡ Some k → ((channel_at (F.net net.now) channel).source ≢ (channel_at (F.net net.now) channel).target)
        × ((channel_at (F.net net.now) channel).tokens ≤ k) × (k ≤ NET_TOKENS) }
{
    match entry {
        Some(room) => {
            net.source(channel) != net.target(channel)
                && net.tokens(channel) <= room
                && room <= NET_TOKENS
        }
        None => true,
    }
}

/// Whether a channel's capacity can grow by so much.
fn has_room(capacities: &Distribution, channel: u32, by: u64) -> bool
    ensures { result ≡ true → (k : ℕ) → capacity_at capacities.now.capacities channel ≡ Some k → k + by < 2 ^ 64 }
{
    let entries = capacities.capacities.as_slice();
    let place = channel as usize;
    if place >= entries.len() {
        return true;
    }
    can_grow(entries[place], by)
}

fn can_grow(entry: Option<u64>, by: u64) -> bool
    ensures { result ≡ true → (k : ℕ) → entry ≡ Some k → k + by < 2 ^ 64 }
{
    match entry {
        Some(room) => room < u64::MAX - by,
        None => true,
    }
}

/// The distribution with so much more room on a channel.
pub(crate) fn enlarged(
    rt: &impl Abort,
    alloc: Global,
    capacities: &Distribution,
    channel: u32,
    by: u64,
) -> Result<Distribution, Fail> {
    assert!(rt; has_room(capacities, channel, by));
    Ok(capacities.enlarge(alloc, channel, by)?)
}

/// The storage that a distribution needs, which must be at most a million.
pub(crate) fn total_of<F: Firing>(rt: &impl Abort, net: &F, capacities: &Distribution) -> u64 {
    assert!(rt; capacities.capacities.len() <= net.channels() as usize);
    let within = capacities.total_within(net, 1_000_000);
    match within {
        Some(total) => {
            assert_eq!(rt; capacities.total(net), total);
            total
        }
        None => 0,
    }
}

/// Whether a distribution needs more storage than a limit.
pub(crate) fn needs_more<F: Firing>(
    rt: &impl Abort,
    net: &F,
    capacities: &Distribution,
    limit: u64,
) -> bool {
    assert!(rt; capacities.capacities.len() <= net.channels() as usize);
    capacities.total_within(net, limit).is_none()
}

/// The step of a channel.
pub(crate) fn step_at<F: Firing>(rt: &impl Abort, net: &F, channel: u32) -> u64 {
    assert!(rt; channel < net.channels());
    step(net, channel)
}
