//! What no bound in force covers, by a loop over all vectors of three channels.
use crate::texts::push_vector;
use covers::{Axis, Bound, Lattice};
use sd_base::{Fraction, NoMemory};
use std::alloc::Global;
use std::cmp::Ordering;

/// A lattice, and what is known of it.
#[derive(Clone, Copy)]
pub(crate) struct Plain<'a> {
    pub(crate) lattice: &'a Lattice,
    pub(crate) bounds: &'a [Bound],
    pub(crate) best: Fraction,
}

impl Plain<'_> {
    /// Writes the uncovered vectors that need a storage from the least to the most, in lexicographic order.
    pub(crate) fn push_uncovered(
        &self,
        alloc: Global,
        text: &mut String,
        least: u64,
        most: u64,
    ) -> Result<(), NoMemory> {
        for first in 0..=most {
            for second in 0..=most {
                for third in 0..=most {
                    let vector = [first, second, third];
                    if self.is_asked(vector, least, most) {
                        text.push_str(" ")?;
                        push_vector(alloc, text, &vector)?;
                    }
                }
            }
        }
        Ok(())
    }

    /// Whether a vector needs a storage from the least to the most and isn't covered.
    fn is_asked(&self, vector: [u64; 3], least: u64, most: u64) -> bool {
        let storage = storage_of(self.lattice, vector);
        least <= storage && storage <= most && !is_covered(self.bounds, &self.best, vector)
    }
}

/// The storage that a vector needs, if it is on the lattice; else the greatest number.
fn storage_of(lattice: &Lattice, vector: [u64; 3]) -> u64 {
    let mut sum = 0u64;
    for (axis, capacity) in lattice.axes.as_slice().iter().zip(vector.as_slice()) {
        if !is_on(axis, *capacity) {
            return u64::MAX;
        }
        sum = sum.saturating_add(capacity.saturating_mul(axis.size));
    }
    sum
}

fn is_on(axis: &Axis, capacity: u64) -> bool {
    axis.corner <= capacity && (capacity - axis.corner) % axis.step == 0
}

fn is_covered(bounds: &[Bound], best: &Fraction, vector: [u64; 3]) -> bool {
    for bound in bounds {
        if !matches!(bound.rate.compare(best), Ordering::Greater) && covers(bound, vector) {
            return true;
        }
    }
    false
}

fn covers(bound: &Bound, vector: [u64; 3]) -> bool {
    for cap in bound.caps.as_slice() {
        let place = cap.channel as usize;
        if place < 3 && vector[place] > cap.capacity {
            return false;
        }
    }
    true
}
