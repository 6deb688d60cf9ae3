//! Lattices and tellings from literals.
ghost use Rattle.std.specs.Prelude.{IsTrue};
ghost use Rattle.covers.specs.Lattices.{IsOnAxis, IsOnLattice};
ghost use Rattle.walks.specs.Walks.{AreOnLattice};

use covers::{Axis, Lattice};
use sd_base::{Fraction, NoMemory, Rows};
use std::alloc::Global;
use std::process::Abort;
use walks::Telling;

/// A lattice from corners and steps; tokens have the size 1.
pub(crate) fn lattice(
    rt: &impl Abort,
    alloc: Global,
    axes: &[(u64, u64)],
) -> Result<Lattice, NoMemory> {
    let mut rows = Rows::new(alloc);
    for (corner, step) in axes {
        assert!(rt; 1 <= *step);
        rows.push(Axis {
            corner: *corner,
            step: *step,
            size: 1,
        })?;
    }
    Ok(Lattice {
        axes: rows,
        limit: 100,
    })
}

/// A telling from capacities and the channels that it shows, on all of which it bounds.
pub(crate) fn telling(
    alloc: Global,
    capacities: &[u64],
    enlarge: &[u32],
) -> Result<Telling, NoMemory> {
    let capacities = Rows::from_vec(capacities.to_vec(alloc)?);
    let bounding = Rows::from_vec(enlarge.to_vec(alloc)?);
    let enlarge = Rows::from_vec(enlarge.to_vec(alloc)?);
    Ok(Telling {
        capacities,
        enlarge,
        bounding,
        rate: Fraction::new(0, 1),
        blocked: None,
    })
}

/// Whether each telling is of capacities of the lattice.
pub(crate) fn are_on(lattice: &Lattice, tellings: &[Telling]) -> bool
    ensures { IsTrue result → AreOnLattice lattice.now.axes tellings.now }
{
    tellings
        .iter()
        .all(|telling| is_on(lattice, telling.capacities.as_slice()))
}

/// Whether the capacities are on the lattice.
pub(crate) fn is_on(lattice: &Lattice, capacities: &[u64]) -> bool
    ensures { IsTrue result → IsOnLattice lattice.now.axes capacities.now }
{
    let axes = lattice.axes.as_slice();
    if axes.len() != capacities.len() {
        return false;
    }
    for (place, capacity) in capacities.iter().enumerate() {
        if !is_on_axis(&axes[place], *capacity) {
            return false;
        }
    }
    true
}

fn is_on_axis(axis: &Axis, capacity: u64) -> bool
    ensures { IsTrue result → IsOnAxis axis.now capacity }
{
    if capacity < axis.corner {
        return false;
    }
    (capacity - axis.corner) % axis.step == 0
}
