ghost use Rattle.std.specs.Prelude.{◌≡◌, ◌+◌, ◌^◌, ◌<◌, IfOk, slice_index};
ghost use Rattle.covers.specs.Lattices.{IsOnLattice};
ghost use Rattle.walks.specs.Walks.{AreOnLattice, IsEnd, step_at, with_step};

use crate::choosing::{most_lacking, step_of};
use crate::ends::Walk;
use crate::holding::held_by;
use crate::starting::{newest_under, start};
use crate::telling::Telling;
use covers::{Lattice, capacity_at, set_capacity};
use sd_base::{NoMemory, Rows};
use std::alloc::Global;

/// Walks towards the goal, from the newest told capacities that have no more than it on any channel, and from the corner where
/// none have: while a telling holds back what the walk has come to, it takes a step on the channel on which most steps lack to
/// the goal, of those that the telling shows. Cost: a pass over the tellings (`held_by`) for each step, of which there are at
/// most as many as lie between where it begins and the goal on all channels together.
pub fn walk(
    alloc: Global,
    lattice: &Lattice,
    tellings: &[Telling],
    goal: &[u64],
) -> Result<Walk, NoMemory>
    requires tellings { AreOnLattice lattice.now.axes tellings.now }
    requires goal { IsOnLattice lattice.now.axes goal.now }
    ensures { IfOk result (IsEnd lattice.now.axes tellings.now goal.now) }
{
    let mut by = newest_under(tellings, goal);
    let mut capacities = start(alloc, lattice, tellings, by)?;
    'steps: while let Some(place) = held_by(tellings, capacities.as_slice()) {
        let shown = tellings[place].enlarge.as_slice();
        let Some(channel) = most_lacking(lattice, shown, capacities.as_slice(), goal) else {
            return Ok(Walk::Held { place });
        };
        enlarge(lattice, capacities.as_mut_slice(), channel);
        by = Some(place);
    }
    Ok(Walk::Stopped {
        capacities: Rows::from_vec(capacities),
        by,
    })
}

/// Gives a channel a step more.
fn enlarge(lattice: &Lattice, capacities: &mut [u64], channel: u32)
    requires { slice_index capacities.old channel + step_at lattice.now.axes channel < 2 ^ 64 }
    ensures { capacities.new ≡ with_step lattice.now.axes capacities.old channel }
{
    let capacity = capacity_at(capacities, channel) + step_of(lattice, channel);
    set_capacity(capacities, channel, capacity);
}
