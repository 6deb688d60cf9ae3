//! Blocked distributions that were evaluated, and what they hold back.
ghost use Rattle.std.specs.Prelude.{◌↔◌, Contains, IsTrue, MatchOption, OnOk};
ghost use Rattle.storage.specs.ClosedLists.{AgreesOn};
ghost use Rattle.storage.specs.Distributions.{AtMost};
ghost use Rattle.scenario_storage.specs.declared.blocked.Blocked.{Blocked as SomeBlocked};
ghost use Rattle.scenario_storage.specs.inside.Blocked.{FitsIn, HoldsBack, IsKept};

use sd_base::{NoMemory, Rows};
use storage::Distribution;

/// How many are kept, so that to look for one costs little beside an evaluation.
const KEPT: usize = 64;

/// A blocked distribution that was evaluated, and the shared channels on which more room could change that.
#[derive(Drop)]
pub(crate) struct Blocked {
    pub(crate) capacities: Distribution,
    pub(crate) enlarge: Rows<u32>,
}

impl Blocked {
    /// Whether a distribution has as much room on the channels that this one shows, and no less on the others. Cost: that up to
    /// the first channel that tells.
    fn holds_back(&self, other: &Distribution) -> bool
        ensures { IsTrue result ↔ HoldsBack self.now.capacities.capacities self.now.enlarge other.now.capacities }
    {
        self.shows_same(other)
            && is_at_most(
                self.capacities.capacities.as_slice(),
                other.capacities.as_slice(),
            )
    }

    /// Whether both have as much room on the channels that this one shows.
    fn shows_same(&self, other: &Distribution) -> bool
        ensures { IsTrue result ↔ AgreesOn self.now.enlarge self.now.capacities.capacities other.now.capacities }
    {
        for channel in self.enlarge.as_slice() {
            if self.capacities.capacity_of(*channel) != other.capacity_of(*channel) {
                return false;
            }
        }
        true
    }
}

/// Whether both bound the same channels, the first by capacities that are at most the second's.
fn is_at_most(first: &[Option<u64>], second: &[Option<u64>]) -> bool
    ensures { IsTrue result ↔ AtMost first.now second.now }
{
    if first.len() != second.len() {
        return false;
    }
    for place in 0..first.len() {
        if !fits_in(first[place], second[place]) {
            return false;
        }
    }
    true
}

/// Whether both are capacities, the first at most the second, or neither is.
fn fits_in(first: Option<u64>, second: Option<u64>) -> bool
    ensures { IsTrue result ↔ FitsIn first second }
{
    match (first, second) {
        (None, None) => true,
        (Some(first), Some(second)) => first <= second,
        _ => false,
    }
}

/// One that holds a distribution back, if there is one.
pub(crate) fn held_by<'a>(blocked: &'a [Blocked], other: &Distribution) -> Option<&'a Blocked>
    ensures { MatchOption result ((b : SomeBlocked) → Contains blocked.now b → ¬ HoldsBack b.capacities.capacities b.enlarge other.now.capacities)
        (λ b. Contains blocked.now b.now × HoldsBack b.now.capacities.capacities b.now.enlarge other.now.capacities) }
{
    blocked.iter().find(|one| one.holds_back(other))
}

/// Keeps one more, in place of the oldest if enough are kept: what is rated later is seldom above one of much less storage that
/// has as much room on what it shows.
pub(crate) fn keep(one: Blocked, blocked: &mut Vec<Blocked>) -> Result<(), NoMemory>
    ensures { OnOk result (IsKept one blocked.old.items blocked.new.items) }
{
    if blocked.len() >= KEPT {
        blocked.remove(0);
    }
    blocked.push(one)?;
    Ok(())
}
