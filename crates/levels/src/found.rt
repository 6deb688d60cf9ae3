ghost use Rattle.std.specs.Prelude.{◌≡◌, IfOk};
ghost use Rattle.std.specs.Cmp.{partial_equiv_from_equiv, po, eq_by_cmp_equiv};
ghost use Rattle.std.specs.Ordering.{eq_by_cmp, as_partial_cmp};
ghost use Rattle.std.proofs.Common.{refl};
ghost use Rattle.std.specs.List.{flat_map};
ghost use Rattle.levels.specs.WaitingOrder.{capacities_cmp, waiting_cmp, waiting_total};
ghost use Rattle.levels.specs.inside.Heads.{head_of};
ghost use Rattle.levels.specs.inside.Hashes.{capacity_input, same_input};

use crate::head::code;
use sd_base::NoMemory;
use std::alloc::Global;
use std::cmp::Ordering;
use std::hash::{Hash, Hasher};
use storage::Distribution;

/// A distribution that was found, with the hint with which it was led to. Those that wait are found again by their hash, and
/// are visited by rising storage, and lexicographically where that is equal; the head of the capacities tells most of these
/// apart.
#[derive(Debug, Drop)]
pub struct Found<H> {
    pub capacities: Distribution,
    pub hint: H,
    pub(crate) total: u64,
    pub(crate) head: u64,
    ghost headed: { head ≡ head_of capacities.capacities },
}

/// All distributions that waited with the least storage, in lexicographic order.
#[derive(Debug, Drop)]
pub struct Level<H> {
    pub total: u64,
    pub visits: Vec<Found<H>>,
}

impl<H: Copy> Found<H> {
    /// The same again. Cost: linear in the channels.
    pub(crate) fn copy(&self, alloc: Global) -> Result<Found<H>, NoMemory>
        ensures capacities { IfOk result (λ f. f.capacities ≡ self.now.capacities) }
        ensures hint { IfOk result (λ f. f.hint ≡ self.now.hint) }
        ensures total { IfOk result (λ f. f.total ≡ self.now.total) }
    {
        let capacities = self.capacities.copy(alloc)?;
        Ok(Found {
            capacities,
            hint: self.hint,
            total: self.total,
            head: self.head,
        })
    }
}

impl<H: Drop> Found<H> {
    /// Hands the distribution out, without memory.
    pub fn into_capacities(self) -> Distribution
        ensures { result ≡ self.capacities }
    {
        let Found {
            capacities,
            hint: _,
            total: _,
            head: _,
        } = self;
        capacities
    }
}

impl<H> PartialEq for Found<H> {
    ghost eq = { eq_by_cmp (waiting_cmp (λ w. w.total) (λ w. w.capacities.capacities)) };

    ghost laws = { partial_equiv_from_equiv (eq_by_cmp_equiv (waiting_total (λ w. w.total) (λ w. w.capacities.capacities))) };

    fn eq(&self, other: &Found<H>) -> bool {
        matches!(compare(self, other), Ordering::Equal)
    }
}

impl<H> Eq for Found<H> {
    ghost laws = { eq_by_cmp_equiv (waiting_total (λ w. w.total) (λ w. w.capacities.capacities)) };
}

impl<H> PartialOrd for Found<H> {
    ghost partial_cmp = { as_partial_cmp (waiting_cmp (λ w. w.total) (λ w. w.capacities.capacities)) };

    ghost laws = { po (waiting_total (λ w. w.total) (λ w. w.capacities.capacities)) (λ x y. refl) };

    fn partial_cmp(&self, other: &Found<H>) -> Option<Ordering> {
        Some(compare(self, other))
    }
}

impl<H> Ord for Found<H> {
    ghost cmp = { waiting_cmp (λ w. w.total) (λ w. w.capacities.capacities) };

    ghost total = { waiting_total (λ w. w.total) (λ w. w.capacities.capacities) };

    ghost matches_partial_cmp = { λ x y. refl };

    ghost matches_eq = { λ x y. refl };

    fn cmp(&self, other: &Found<H>) -> Ordering {
        compare(self, other)
    }
}

impl<H> Hash for Found<H> {
    ghost hash_input = { λ f. flat_map capacity_input f.capacities.capacities };

    ghost respects_eq = { same_input (λ w. w.total) (λ w. w.capacities.capacities) };

    fn hash<S: Hasher>(&self, state: &mut S) {
        for capacity in self.capacities.capacities.as_slice() {
            state.write_u64(code(*capacity));
        }
    }
}

/// The order of two distributions that wait.
fn compare<H>(first: &Found<H>, second: &Found<H>) -> Ordering
    ensures { result ≡ waiting_cmp (λ w. w.total) (λ w. w.capacities.capacities) first.now second.now }
{
    match first.total.cmp(&second.total) {
        Ordering::Equal => compare_capacities(first, second),
        apart => apart,
    }
}

/// The lexicographic order of two distributions that wait.
fn compare_capacities<H>(first: &Found<H>, second: &Found<H>) -> Ordering
    ensures { result ≡ capacities_cmp first.now.capacities.capacities second.now.capacities.capacities }
{
    match first.head.cmp(&second.head) {
        Ordering::Equal => first
            .capacities
            .capacities
            .as_slice()
            .cmp(second.capacities.capacities.as_slice()),
        apart => apart,
    }
}
