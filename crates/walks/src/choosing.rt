//! Which channel a walk takes its next step on.
ghost use Rattle.std.specs.Prelude.{◌≡◌, ◌≤◌, MatchOption};
ghost use Rattle.walks.specs.Walks.{step_at};
ghost use Rattle.walks.specs.inside.Lacks.{LacksMost, LacksNone, lack_of};

use covers::{Lattice, capacity_at};

/// Of the channels the one on which most steps lack to the goal, the first of several; none where no step lacks on any. Cost:
/// linear in the channels.
pub(crate) fn most_lacking(
    lattice: &Lattice,
    channels: &[u32],
    capacities: &[u64],
    goal: &[u64],
) -> Option<u32>
    ensures { MatchOption result (LacksNone lattice.now.axes goal.now capacities.now channels.now) (LacksMost lattice.now.axes goal.now capacities.now channels.now) }
{
    let mut found = None;
    let mut most = 0;
    for channel in channels {
        let lack = lack_on(lattice, *channel, capacities, goal);
        if lack > most {
            most = lack;
            found = Some(*channel);
        }
    }
    found
}

/// How many steps lack to the goal on a channel.
fn lack_on(lattice: &Lattice, channel: u32, capacities: &[u64], goal: &[u64]) -> u64
    ensures { result ≡ lack_of lattice.now.axes goal.now capacities.now channel }
{
    let more = capacity_at(goal, channel).saturating_sub(capacity_at(capacities, channel));
    more / step_of(lattice, channel)
}

/// The step of a channel; past the last one 1.
pub(crate) fn step_of(lattice: &Lattice, channel: u32) -> u64
    ensures step { result ≡ step_at lattice.now.axes channel }
    ensures some { 1 ≤ result }
{
    let axes = lattice.axes.as_slice();
    let place = channel as usize;
    if place < axes.len() {
        axes[place].step
    } else {
        1
    }
}
