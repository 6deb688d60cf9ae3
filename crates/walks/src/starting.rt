//! Where walks begin.
ghost use Rattle.std.specs.Prelude.{◌≡◌, ◌<◌, IfOk, IfSome, MatchOption, length};
ghost use Rattle.covers.specs.Lattices.{corner_of};
ghost use Rattle.walks.specs.Tellings.{IsUnderAt};
ghost use Rattle.walks.specs.inside.Starts.{HasUnder, IsStart};

use crate::telling::{Telling, is_under};
use covers::Lattice;
use sd_base::NoMemory;
use std::alloc::Global;

/// The place of the newest telling whose capacities are no more than the goal on any channel, if one's are. Cost: a comparison
/// with the goal for each telling that is newer.
pub(crate) fn newest_under(tellings: &[Telling], goal: &[u64]) -> Option<usize>
    ensures { MatchOption result (HasUnder tellings.now goal.now → ⊥) (IsUnderAt tellings.now goal.now) }
{
    tellings
        .iter()
        .rposition(|telling| is_under(telling.capacities.as_slice(), goal))
}

/// The capacities of the telling at a place, or the corner.
pub(crate) fn start(
    alloc: Global,
    lattice: &Lattice,
    tellings: &[Telling],
    by: Option<usize>,
) -> Result<Vec<u64>, NoMemory>
    requires { IfSome by (λ place. place < length tellings.now) }
    ensures { IfOk result (λ v. IsStart lattice.now.axes tellings.now by v.items) }
{
    match by {
        Some(place) => Ok(tellings[place].capacities.as_slice().to_vec(alloc)?),
        None => corner(alloc, lattice),
    }
}

/// The least capacities of the lattice. Cost: linear in the channels.
fn corner(alloc: Global, lattice: &Lattice) -> Result<Vec<u64>, NoMemory>
    ensures { IfOk result (λ v. v.items ≡ corner_of lattice.now.axes) }
{
    let axes = lattice.axes.as_slice();
    Ok(axes.iter().map(|axis| axis.corner).collect(alloc)?)
}
