//! Tight needs: needs that end just when the firing that has them starts.
ghost use Rattle.std.specs.Prelude.{◌≡◌, ◌↔◌, ◌+◌, ◌*◌, ◌<◌, ◌≤◌, IfSome, IsTrue, MatchOption, length};
ghost use Rattle.sd_base.specs.Ranges.{FIRING_BOUND};
ghost use Rattle.sd_base.specs.Net.{channel_at};
ghost use Rattle.sd_base.specs.Schedules.{count_of, time_of, IsNeed, LastNeed};
ghost use Rattle.firing.specs.declared.sums.Port.TheVariants.{Taken};
ghost use Rattle.firing.specs.Wiring.{IsListed};
ghost use Rattle.critical.specs.inside.Trails.{IsShort, IsShortLoop, IsSecond, IsTightNeed, IsReadFrom, IsSlackOn, IsSlackBefore, listed_at};

use crate::cycle::{FiringNo, time_at};
use crate::pass::{listed, pass_of, passes_on};
use firing::{Firing, LoopTable, Port, know_laws, need, port_phases};

/// A firing that another one needs on a channel, as the one of the second pass, `passes` passes later.
#[derive(Clone, Copy)]
pub(crate) struct ReadNeed {
    pub(crate) channel: u32,
    pub(crate) firing: FiringNo,
    pub(crate) passes: u64,
}

/// The first tight need of a firing of the second pass, in the order of the channels into its actor.
pub(crate) fn tight_need<F: Firing>(
    net: &F,
    table: &LoopTable,
    inputs: &[u32],
    later: FiringNo,
) -> ReadNeed
    requires table { IsShortLoop (F.net net.now) table.now }
    requires second { IsSecond table.now later }
    requires listed { IsListed (F.net net.now) Taken later.actor inputs.now }
    ensures need { IsTightNeed (F.net net.now) table.now later result }
    ensures first { IsSlackBefore (F.net net.now) table.now later result.channel }
{
    for channel in inputs {
        if let Some(need) = tight_on(net, table, *channel, later) {
            return need;
        }
    }
    unreachable!()
}

/// The last need of a firing of the second pass on a channel, where it is tight.
pub(crate) fn tight_on<F: Firing>(
    net: &F,
    table: &LoopTable,
    channel: u32,
    later: FiringNo,
) -> Option<ReadNeed>
    requires table { IsShortLoop (F.net net.now) table.now }
    requires second { IsSecond table.now later }
    requires place { channel < length (F.net net.now).channels }
    requires target { (channel_at (F.net net.now) channel).target ≡ later.actor }
    ensures need { MatchOption result (IsSlackOn (F.net net.now) table.now later channel) (IsTightNeed (F.net net.now) table.now later) }
    ensures channel { IfSome result (λ n. n.channel ≡ channel) }
{
    let firings = need_of(net, channel, later.number);
    if firings == 0 {
        return None;
    }
    let read = read_need(net, table, channel, firings - 1, later);
    if is_tight(net, table, read, later) {
        Some(read)
    } else {
        None
    }
}

/// What `need` answers. Cost: one division of narrow numbers where both ends of the channel have one phase, else that of
/// `need`.
fn need_of<F: Firing>(net: &F, channel: u32, firing: u64) -> u64
    requires channel { channel < length (F.net net.now).channels }
    requires few { firing ≤ FIRING_BOUND }
    ensures { IsNeed (channel_at (F.net net.now) channel) firing result }
{
    if port_phases(net, channel, Port::Made) == 1 && port_phases(net, channel, Port::Taken) == 1 {
        single_need(net, channel, firing)
    } else {
        need(net, channel, firing)
    }
}

/// The same where both ends of the channel have one phase.
fn single_need<F: Firing>(net: &F, channel: u32, firing: u64) -> u64
    requires channel { channel < length (F.net net.now).channels }
    requires few { firing ≤ FIRING_BOUND }
    requires made { length (channel_at (F.net net.now) channel).made ≡ 1 }
    requires taken { length (channel_at (F.net net.now) channel).taken ≡ 1 }
    ensures { IsNeed (channel_at (F.net net.now) channel) firing result }
{
    know_laws(net);
    let taken = (firing + 1) * net.taken(channel, 0);
    let tokens = net.tokens(channel);
    if taken <= tokens {
        return 0;
    }
    (taken - tokens).div_ceil(net.made(channel, 0))
}

/// The last need of a firing of the second pass on a channel, read in the second pass.
fn read_need<F: Firing>(
    net: &F,
    table: &LoopTable,
    channel: u32,
    number: u64,
    later: FiringNo,
) -> ReadNeed
    requires table { IsShortLoop (F.net net.now) table.now }
    requires second { IsSecond table.now later }
    requires place { channel < length (F.net net.now).channels }
    requires target { (channel_at (F.net net.now) channel).target ≡ later.actor }
    requires last { LastNeed (channel_at (F.net net.now) channel) later.number number }
    ensures { IsReadFrom (F.net net.now) table.now channel number result }
{
    let actor = net.source(channel);
    let passes = passes_on(table, actor, number);
    ReadNeed {
        channel,
        firing: FiringNo {
            actor,
            number: number + passes * pass_of(table, actor),
        },
        passes,
    }
}

/// Whether a needed firing ends just when a firing of the second pass starts.
fn is_tight<F: Firing>(net: &F, table: &LoopTable, need: ReadNeed, later: FiringNo) -> bool
    requires short { IsShort table.now }
    requires actors { length table.now.starts ≡ length (F.net net.now).times }
    requires need { IsSecond table.now need.firing }
    requires later { IsSecond table.now later }
    ensures { IsTrue result ↔ (listed_at table.now need.firing + time_of (F.net net.now) need.firing.actor need.firing.number
        ≡ listed_at table.now later + need.passes * table.now.period) }
{
    let end = listed(table, need.firing) as u128 + time_at(net, need.firing) as u128;
    end == listed(table, later) as u128 + need.passes as u128 * table.period as u128
}
