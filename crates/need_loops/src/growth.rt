//! Rows of starts that grow by needs.
ghost use Rattle.std.specs.Prelude.{◌≡◌, ℕ, ◌≤◌, ◌<◌, IfOk, OnOk, length};
ghost use Rattle.sd_base.specs.Ranges.{MOMENT_BOUND, ROUND_BOUND};
ghost use Rattle.sd_base.specs.Schedules.{phases_at};
ghost use Rattle.need_loops.specs.inside.Growing.{IsGrowth};

use crate::feeds::{NextFiring, first_firings};
use crate::needs::{Reach, extend_all};
use firing::{Firing, Wired};
use loops::empty_rows;
use sd_base::{NoMemory, Rows};
use std::alloc::Global;

/// Starts of self-timed execution, as far as needs have told them.
pub(crate) struct Growth {
    /// By actor its starts, ascending.
    pub(crate) starts: Vec<Rows<u64>>,
    /// By actor what the firing after these needs.
    pub(crate) firings: Vec<NextFiring>,
    /// By actor whether the rows may tell more of its starts.
    pub(crate) flags: Vec<bool>,
}

// By hand, so that what drops one calls this, and does not drop each of its parts.
impl Drop for Growth {
    fn drop(self) {
        let Growth {
            starts: _starts,
            firings: _firings,
            flags: _flags,
        } = self;
    }
}

impl Growth {
    /// No starts. Cost: linear in the channels, and in the firings that all first firings need.
    pub(crate) fn new<F: Firing>(alloc: Global, wired: &Wired<F>) -> Result<Growth, NoMemory>
        requires single { (a : ℕ) → a < length (F.net wired.now.net.now).times → phases_at (F.net wired.now.net.now) a ≡ 1 }
        ensures { IfOk result (λ growth. (until : ℕ) → IsGrowth (F.net wired.now.net.now) until growth) }
    {
        let firings = first_firings(alloc, wired)?;
        let starts = empty_rows(alloc, wired.net)?;
        let flags = no_flags(alloc, wired.net)?;
        Ok(Growth {
            starts,
            firings,
            flags,
        })
    }

    /// Adds all starts within a reach that the rows tell, as `extend_all` does.
    #[inline(always)]
    pub(crate) fn extend<F: Firing>(
        &mut self,
        wired: &Wired<F>,
        reach: Reach,
    ) -> Result<(), NoMemory>
        requires grown { IsGrowth (F.net wired.now.net.now) reach.until self.old }
        requires soon { reach.until ≤ MOMENT_BOUND }
        requires few { reach.rounds ≤ ROUND_BOUND }
        ensures { OnOk result (IsGrowth (F.net wired.now.net.now) reach.until self.new) }
    {
        extend_all(
            wired,
            self.firings.as_mut_slice(),
            self.starts.as_mut_slice(),
            self.flags.as_mut_slice(),
            reach,
        )?;
        Ok(())
    }
}

/// By actor no flag.
fn no_flags<F: Firing>(alloc: Global, net: &F) -> Result<Vec<bool>, NoMemory>
    ensures { IfOk result (λ flags. length flags.items ≡ length (F.net net.now).times) }
{
    let mut flags = Vec::with_capacity(alloc, net.actors() as usize)?;
    for _actor in 0..net.actors() {
        flags.push(false)?;
    }
    Ok(flags)
}
