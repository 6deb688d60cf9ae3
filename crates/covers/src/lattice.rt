ghost use Rattle.std.specs.Prelude.{ℕ, ◌≤◌, MatchOption};

use sd_base::Rows;

/// A bounded channel: the least capacity that is looked at, the step in which capacities are worth changing, and the size of
/// a token, each in tokens but for the size.
#[derive(Clone, Copy)]
pub struct Axis {
    pub corner: u64,
    pub step: u64,
    pub size: u64,
    pub ghost steps: { 1 ≤ step },
    pub ghost some_size: { 1 ≤ size },
}

/// The capacities that are looked at: by bounded channel an axis, and the storage within which they are.
#[derive(Drop)]
pub struct Lattice {
    pub axes: Rows<Axis>,
    pub limit: u64,
}

impl Axis {
    ghost use Rattle.covers.specs.Lattices.{IsOnAxis};
    ghost use Rattle.covers.specs.inside.Ways.{IsNextOn};

    /// The least capacity of the axis that is above `capacity`, if it is at most `high`.
    pub(crate) fn next(&self, capacity: u64, high: u64) -> Option<u64>
        ensures { MatchOption result ((k : ℕ) → IsOnAxis self.now k → k ≤ high → k ≤ capacity) (λ v. IsNextOn self.now capacity v × (v ≤ high)) }
    {
        if capacity < self.corner {
            return if self.corner <= high {
                Some(self.corner)
            } else {
                None
            };
        }
        let more = self.step - (capacity - self.corner) % self.step;
        if high < capacity || high - capacity < more {
            return None;
        }
        Some(capacity + more)
    }
}
