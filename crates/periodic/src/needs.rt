ghost use Rattle.std.specs.Prelude.{◌≡◌, ◌+◌, ◌-◌, ◌*◌, ◌≤◌, ◌<◌, ◌^◌, length, slice_index};
ghost use Rattle.sd_base.specs.Ranges.{WIDE_FIRING_BOUND};
ghost use Rattle.sd_base.specs.declared.limits.TheConstants.{NET_TOKENS};
ghost use Rattle.sd_base.specs.Net.{channel_at, total};
ghost use Rattle.sd_base.specs.Schedules.{Needs, LastNeed};
ghost use Rattle.periodic.specs.inside.FiniteTests.{FirstNeedy};

use firing::{Firing, know_laws, made_sum, taken_sum};

/// After how many turns the firing `place` of the target of a channel needs a firing of the source first.
pub(crate) fn first_needy<F: Firing>(
    net: &F,
    channel: u32,
    place: u128,
    rounds: u64,
    turn: u128,
) -> u128
    requires channel { channel < length (F.net net.now).channels }
    requires turns { 1 ≤ rounds }
    requires turn { turn ≡ rounds * slice_index (F.net net.now).round (channel_at (F.net net.now) channel).target }
    requires few { turn < 2 ^ 64 }
    requires place { place < turn }
    ensures first { FirstNeedy (channel_at (F.net net.now) channel) turn place result }
    ensures near { result ≤ NET_TOKENS + 1 }
{
    know_laws(net);
    let first = taken_sum(net, channel, place + 1);
    let tokens = net.tokens(channel) as u128;
    if tokens < first {
        return 0;
    }
    (tokens - first) / taken_sum(net, channel, turn) + 1
}

/// The last firing of the source of a channel that a firing of its target needs. Cost: that of
/// `Firing::made_before` times the logarithm of the source's phases.
pub(crate) fn last_need<F: Firing>(net: &F, channel: u32, firing: u128) -> u128
    requires channel { channel < length (F.net net.now).channels }
    requires few { firing < WIDE_FIRING_BOUND }
    requires needs { Needs (channel_at (F.net net.now) channel) firing 0 }
    ensures { LastNeed (channel_at (F.net net.now) channel) firing result }
{
    know_laws(net);
    let lack = taken_sum(net, channel, firing + 1) - net.tokens(channel) as u128;
    let phases = net.phases(net.source(channel));
    let turn = made_sum(net, channel, phases as u128);
    let turns = (lack - 1) / turn;
    let rest = last_short(net, channel, phases, lack - turns * turn);
    turns * phases as u128 + rest as u128
}

/// The last of the phases of the source before which so many tokens aren't made yet, found by halves.
fn last_short<F: Firing>(net: &F, channel: u32, phases: u32, wanted: u128) -> u32
    requires channel { channel < length (F.net net.now).channels }
    requires phases { phases ≡ length (channel_at (F.net net.now) channel).made }
    requires some { 1 ≤ wanted }
    requires enough { wanted ≤ total (channel_at (F.net net.now) channel).made phases }
    ensures within { result < phases }
    ensures short { total (channel_at (F.net net.now) channel).made result < wanted }
    ensures enough { wanted ≤ total (channel_at (F.net net.now) channel).made (result + 1) }
{
    let mut short: u32 = 0;
    let mut enough = phases;
    while enough - short > 1 {
        let middle = short + (enough - short) / 2;
        if (net.made_before(channel, middle) as u128) < wanted {
            short = middle;
        } else {
            enough = middle;
        }
    }
    short
}
