//! Whether counts of firings allow one more, looked at channel by channel without a wiring.
ghost use Rattle.std.specs.Prelude.{◌≡◌, ◌↔◌, ◌<◌, IsTrue, length, slice_index};
ghost use Rattle.sd_base.specs.Net.{channel_at};
ghost use Rattle.sd_base.specs.Schedules.{Needs};
ghost use Rattle.sd_base.specs.Untimed.{CanFire};

use crate::net::{Firing, know_laws};
use crate::sums::{made_sum, taken_sum};

/// Whether an actor lacks tokens on no channel for its next firing. Cost: the channels.
pub fn can_fire<F: Firing>(net: &F, counts: &[u64], actor: u32) -> bool
    requires actors { length counts.now ≡ length (F.net net.now).times }
    requires actor { actor < length (F.net net.now).times }
    ensures { IsTrue result ↔ CanFire (F.net net.now) (slice_index counts.now) actor }
{
    for channel in 0..net.channels() {
        if net.target(channel) == actor && lacks(net, counts, channel) {
            return false;
        }
    }
    true
}

/// Whether a channel lacks tokens for the next firing of its target.
pub fn lacks<F: Firing>(net: &F, counts: &[u64], channel: u32) -> bool
    requires channel { channel < length (F.net net.now).channels }
    requires actors { length counts.now ≡ length (F.net net.now).times }
    ensures { IsTrue result ↔ Needs (channel_at (F.net net.now) channel) (slice_index counts.now (channel_at (F.net net.now) channel).target) (slice_index counts.now (channel_at (F.net net.now) channel).source) }
{
    know_laws(net);
    let later = counts[net.target(channel) as usize];
    let made = counts[net.source(channel) as usize];
    needs(net, channel, later, made)
}

/// Whether a channel has too few tokens for a firing of its target after so many firings of its source.
fn needs<F: Firing>(net: &F, channel: u32, later: u64, made: u64) -> bool
    requires channel { channel < length (F.net net.now).channels }
    ensures { IsTrue result ↔ Needs (channel_at (F.net net.now) channel) later made }
{
    know_laws(net);
    net.tokens(channel) as u128 + made_sum(net, channel, made as u128)
        < taken_sum(net, channel, later as u128 + 1)
}
