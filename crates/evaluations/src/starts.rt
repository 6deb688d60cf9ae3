ghost use Rattle.std.specs.Prelude.{◌≡◌, IfOk};
ghost use Rattle.evaluations.specs.Starts.{AreStarts, counts_at};

use crate::shown::Shown;
use firing::Firing;
use liveness::{no_counts, whole_counts};
use sd_base::{NoMemory, Rows};
use std::alloc::Global;

/// Counts by actor from which the test for a round may begin: none, and those of a whole round.
pub struct Starts {
    pub none: Rows<u64>,
    pub whole: Rows<u64>,
}

// By hand, so that what drops one calls this, and does not drop each of its parts.
impl Drop for Starts {
    fn drop(self) {
        let Starts {
            none: _none,
            whole: _whole,
        } = self;
    }
}

impl Starts {
    /// The counts of a net's actors. Cost: linear in the actors.
    pub fn of<F: Firing>(alloc: Global, net: &F) -> Result<Starts, NoMemory>
        ensures { IfOk result (AreStarts (F.net net.now)) }
    {
        let none = no_counts(alloc, net)?;
        let whole = whole_counts(alloc, net)?;
        Ok(Starts { none, whole })
    }

    /// The counts that a distribution with no less room than an evaluated one reaches, by what shows the rate of that one:
    /// those at which it is blocked, or those of a whole round where it is live.
    pub fn at<'a>(&'a self, shown: &'a Shown) -> &'a [u64]
        ensures { result.now ≡ counts_at self.now shown.now }
    {
        match shown {
            Shown::Cycle(_) => self.whole.as_slice(),
            Shown::Blocked { counts } => counts.as_slice(),
        }
    }
}
