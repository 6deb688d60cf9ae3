//! A step more room on one channel.
ghost use Rattle.std.specs.Prelude.{◌≡◌, ◌+◌, ◌*◌, ◌≤◌, ◌<◌, ◌⊎◌, Some, MatchOption, slice_set};

use crate::channel::ChannelStep;
use sd_base::Rows;
use storage::Distribution;

/// A capacity with a step more, and the storage that is needed with it.
#[derive(Clone, Copy, Debug)]
pub(crate) struct Raised {
    pub(crate) room: u64,
    pub(crate) total: u64,
}

/// A capacity with a step more, if the storage that is needed with it is within a limit. A capacity that doesn't fit its type
/// isn't.
pub(crate) fn stepped_up(channel: ChannelStep, room: u64, total: u64, limit: u64) -> Option<Raised>
    requires { total ≤ limit }
    ensures { MatchOption result ((limit < total + channel.step * channel.size) ⊎ (limit < room + channel.step))
        (λ r. (r.room ≡ room + channel.step) × (r.total ≡ total + channel.step * channel.size) × (r.total ≤ limit)) }
{
    let more = u128::from(channel.step) * u128::from(channel.size);
    if more > u128::from(limit - total) {
        return None;
    }
    match room.checked_add(channel.step) {
        Some(room) => Some(Raised {
            room,
            total: total + more as u64,
        }),
        None => None,
    }
}

/// The distribution with another capacity on one channel, in the same memory.
pub(crate) fn with_room(distribution: Distribution, channel: u32, room: u64) -> Distribution
    ensures { result.capacities ≡ slice_set distribution.capacities channel (Some room) }
{
    let Distribution { capacities } = distribution;
    let mut entries = capacities.into_vec();
    let place = channel as usize;
    if place < entries.len() {
        entries[place] = Some(room);
    }
    Distribution {
        capacities: Rows::from_vec(entries),
    }
}
