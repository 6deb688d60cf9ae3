//! Lattices and bounds from literals.
use covers::{Axis, Bound, Cap, Lattice};
use sd_base::{Fraction, NoMemory, Rows};
use std::alloc::Global;
use std::process::Abort;

/// A lattice from corners, steps and sizes.
pub(crate) fn lattice(
    rt: &impl Abort,
    alloc: Global,
    axes: &[(u64, u64, u64)],
    limit: u64,
) -> Result<Lattice, NoMemory> {
    let mut rows = Rows::new(alloc);
    for (corner, step, size) in axes {
        assert!(rt; 1 <= *step && 1 <= *size);
        rows.push(Axis {
            corner: *corner,
            step: *step,
            size: *size,
        })?;
    }
    Ok(Lattice { axes: rows, limit })
}

/// What a bound is made of: by channels its capacities, and its rate.
#[derive(Clone, Copy)]
pub(crate) struct BoundRow<'a> {
    pub(crate) caps: &'a [(u32, u64)],
    pub(crate) rate: Fraction,
}

impl BoundRow<'_> {
    pub(crate) fn bound(&self, alloc: Global) -> Result<Bound, NoMemory> {
        let mut rows = Rows::new(alloc);
        for (channel, capacity) in self.caps {
            rows.push(Cap {
                channel: *channel,
                capacity: *capacity,
            })?;
        }
        Ok(Bound {
            caps: rows,
            rate: self.rate,
        })
    }
}

/// A bound that holds vectors for dead.
pub(crate) fn dead<'a>(caps: &'a [(u32, u64)]) -> BoundRow<'a> {
    BoundRow {
        caps,
        rate: Fraction::new(0, 1),
    }
}
