//! The channels that members show.
ghost use Rattle.std.specs.Prelude.{◌↔◌, ◌<◌, List, IsTrue, length};
ghost use Rattle.sd_base.specs.Net.{channel_at};
ghost use Rattle.sd_base.specs.Schedules.{Needs};
ghost use Rattle.storage.specs.BoundedNets.{space_of};
ghost use Rattle.cert_text.specs.declared.certificates.LinkCycle.{LinkCycle};
ghost use Rattle.cert_checker.specs.ShownChannels.{IsShownBy};
ghost use Rattle.cert_checker.specs.inside.ShownAt.{IsFullAt};
ghost use Rattle.cert_checker.specs.inside.Spaces.{AreSpaces};

use crate::spaces::Spaces;
use cert_text::{MemberLine, MemberShown};
use firing::{Firing, can_fire, know_laws, made_sum, taken_sum};

/// Whether a member shows a channel, where its capacities are right. Cost: a search among the spaces, or the channels.
pub(crate) fn is_shown<F: Firing>(
    net: &F,
    spaces: &Spaces,
    member: &MemberLine,
    channel: u32,
) -> bool
    requires channel { channel < length (F.net net.now).channels }
    ensures { (cycles : List LinkCycle) → AreSpaces cycles spaces.now → IsTrue result ↔ IsShownBy (F.net net.now) cycles member.now.capacities.capacities member.now.shown channel }
{
    let Some(room) = member.capacities.capacity_of(channel) else {
        return false;
    };
    match &member.shown {
        MemberShown::Cycle { cycle, .. } => spaces.has(*cycle, channel),
        MemberShown::Blocked { counts } => { is_full(net, counts.as_slice(), channel, room) }
    }
}

/// Whether there is a count for each actor, and the source of a channel is below its round, lacks no token, and lacks space.
fn is_full<F: Firing>(net: &F, counts: &[u64], channel: u32, room: u64) -> bool
    requires channel { channel < length (F.net net.now).channels }
    ensures { IsTrue result ↔ IsFullAt (F.net net.now) counts.now channel room }
{
    know_laws(net);
    if counts.len() != net.actors() as usize {
        return false;
    }
    let source = net.source(channel);
    let made = counts[source as usize];
    let taken = counts[net.target(channel) as usize];
    made < net.round(source)
        && lacks_space(net, channel, room, made, taken)
        && can_fire(net, counts, source)
}

/// Whether the free space of a channel has too few tokens for a firing of its source after so many firings of its target.
fn lacks_space<F: Firing>(net: &F, channel: u32, room: u64, later: u64, taken: u64) -> bool
    requires channel { channel < length (F.net net.now).channels }
    ensures { IsTrue result ↔ Needs (space_of channel (channel_at (F.net net.now) channel) room) later taken }
{
    know_laws(net);
    room.saturating_sub(net.tokens(channel)) as u128 + taken_sum(net, channel, taken as u128)
        < made_sum(net, channel, later as u128 + 1)
}
