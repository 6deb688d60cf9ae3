//! The channels that counts show which block a bounded net.
ghost use Rattle.std.specs.Prelude.{◌≡◌, ◌↔◌, ◌+◌, ◌-◌, ◌*◌, ◌≤◌, ◌<◌, Contains, ℕ, None, IfOk, IsTrue, MatchOption, length, slice_index};
ghost use Rattle.sd_base.specs.Net.{channel_at, total};
ghost use Rattle.sd_base.specs.Schedules.{Needs};
ghost use Rattle.sd_base.specs.Untimed.{CanFire, NamesLacks};
ghost use Rattle.critical.specs.Spaces.{IsRising};
ghost use Rattle.storage.specs.ShownSpaces.{ShowsSpace};
ghost use Rattle.storage.specs.BoundedNets.{bound, space_of};

use firing::{Firing, Port, know_laws, made_sum};
use liveness::moved_sum;
use sd_base::{NoMemory, Rows};
use std::alloc::Global;
use storage::Distribution;

/// The channels whose free space holds an actor up that is below its round and lacks no token, ascending. An actor whose
/// first lacking channel in the bounded net is a space channel lacks no token, since these come last. Cost: linear in
/// the channels.
pub(crate) fn shown_channels<F: Firing>(
    alloc: Global,
    net: &F,
    capacities: &Distribution,
    counts: &[u64],
    lacks: &[Option<u32>],
) -> Result<Rows<u32>, NoMemory>
    requires actors { length counts.now ≡ length (F.net net.now).times }
    requires names { NamesLacks (bound (F.net net.now) capacities.now.capacities) (slice_index counts.now) lacks.now }
    ensures rising { IfOk result IsRising }
    ensures shown { IfOk result (λ xs. (c : ℕ) → Contains xs c ↔ ShowsSpace (F.net net.now) capacities.now.capacities (slice_index counts.now) c) }
{
    let mut shown = Rows::new(alloc);
    for channel in 0..net.channels() {
        if shows_space(net, capacities, counts, lacks, channel) {
            shown.push(channel)?;
        }
    }
    Ok(shown)
}

/// Whether the source of a channel is below its round and lacks no token, but space on the channel.
fn shows_space<F: Firing>(
    net: &F,
    capacities: &Distribution,
    counts: &[u64],
    lacks: &[Option<u32>],
    channel: u32,
) -> bool
    requires channel { channel < length (F.net net.now).channels }
    requires actors { length counts.now ≡ length (F.net net.now).times }
    requires names { NamesLacks (bound (F.net net.now) capacities.now.capacities) (slice_index counts.now) lacks.now }
    ensures { IsTrue result ↔ ShowsSpace (F.net net.now) capacities.now.capacities (slice_index counts.now) channel }
{
    know_laws(net);
    match capacities.capacity_of(channel) {
        Some(room) => {
            lacks_space_alone(net, capacities, counts, lacks, net.source(channel))
                && lacks_space(net, counts, channel, room)
        }
        None => false,
    }
}

/// Whether an actor is below its round and no channel of the net lacks tokens for its next firing.
fn lacks_space_alone<F: Firing>(
    net: &F,
    capacities: &Distribution,
    counts: &[u64],
    lacks: &[Option<u32>],
    actor: u32,
) -> bool
    requires actor { actor < length (F.net net.now).times }
    requires actors { length counts.now ≡ length (F.net net.now).times }
    requires names { NamesLacks (bound (F.net net.now) capacities.now.capacities) (slice_index counts.now) lacks.now }
    ensures { IsTrue result ↔ ((slice_index counts.now actor < slice_index (F.net net.now).round actor) × CanFire (F.net net.now) (slice_index counts.now) actor) }
{
    match lacks[actor as usize] {
        Some(first) => first >= net.channels(),
        None => false,
    }
}

/// Whether the free space of a channel lacks tokens for the next firing of its source.
fn lacks_space<F: Firing>(net: &F, counts: &[u64], channel: u32, room: u64) -> bool
    requires channel { channel < length (F.net net.now).channels }
    requires actors { length counts.now ≡ length (F.net net.now).times }
    ensures { IsTrue result ↔ Needs (space_of channel (channel_at (F.net net.now) channel) room) (slice_index counts.now (channel_at (F.net net.now) channel).source) (slice_index counts.now (channel_at (F.net net.now) channel).target) }
{
    know_laws(net);
    let made = counts[net.source(channel) as usize];
    let taken = counts[net.target(channel) as usize];
    let free = u128::from(room.saturating_sub(net.tokens(channel)));
    free + moved_sum(net, channel, Port::Taken, taken) < made_with_next(net, channel, made)
}

/// The tokens that the first firings of the source make on a channel, so many of them and one more. Cost: that of
/// `moved_sum`.
fn made_with_next<F: Firing>(net: &F, channel: u32, firings: u64) -> u128
    requires { channel < length (F.net net.now).channels }
    ensures { result ≡ total (channel_at (F.net net.now) channel).made (firings + 1) }
{
    if firings < u64::MAX {
        moved_sum(net, channel, Port::Made, firings + 1)
    } else {
        made_sum(net, channel, u128::from(firings) + 1)
    }
}
