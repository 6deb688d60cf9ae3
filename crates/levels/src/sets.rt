//! The distributions that wait, in a set for each storage.
ghost use Rattle.std.specs.Prelude.{◌≡◌, [], ◌∷◌, IfOk, MatchOption, OnOk, None, Some, false};
ghost use Rattle.std.specs.BTreeMap.{get};
ghost use Rattle.std.specs.List.{IsDistinct, list_any};
ghost use Rattle.std.specs.List.Sorted.{IsPermutation, IsStrictlySortedBy};
ghost use Rattle.std.specs.Ordering.{nat_cmp};
ghost use Rattle.levels.specs.Frontiers.{IsLevelTaken, found_order};
ghost use Rattle.levels.specs.inside.Sets.{AreSets, found_eq, waiting_in};

use crate::found::{Found, Level};
use indexmap::IndexSet;
use sd_base::NoMemory;
use std::alloc::Global;
use std::collections::BTreeMap;
use std::marker::Model;

/// Those that were found and aren't visited yet: by storage a set, in which a distribution is found again by its hash. Contracts
/// see them as a list by rising storage.
#[derive(Drop)]
pub struct Waiting<H> {
    sets: BTreeMap<u64, IndexSet<Found<H>>>,
}

impl<H> Model for Waiting<H> {
    ghost use Rattle.std.specs.Prelude.{List};
    ghost use Rattle.levels.specs.declared.found.Found.{Found};
    ghost use Rattle.levels.specs.inside.Sets.{AreSets, waiting_in};

    ghost Value = { List (Found H) };

    ghost view = { λ w. waiting_in w.sets.entries };

    ghost invariant = { λ w. AreSets w.sets.entries };
}

impl<H: Copy + Drop> Waiting<H> {
    /// None waits, without memory.
    pub(crate) fn new(alloc: Global) -> Waiting<H>
        ensures { result ≡ [] }
    {
        Waiting {
            sets: BTreeMap::new(alloc),
        }
    }

    /// Whether the distribution waits. Cost: a hash, and a logarithm of the levels that wait.
    pub(crate) fn has(&self, found: &Found<H>) -> bool
        ensures there { result ≡ list_any (found_eq found.now) self.now }
        ensures differ { IsDistinct found_eq self.now }
    {
        match self.sets.get(&found.total) {
            Some(set) => set.contains(found),
            None => false,
        }
    }

    /// Lets one wait whose distribution doesn't do so. Cost: that of `has`.
    pub(crate) fn put(&mut self, alloc: Global, found: Found<H>) -> Result<(), NoMemory>
        requires new { list_any (found_eq found) self.old ≡ false }
        ensures { OnOk result (IsPermutation (found ∷ self.old) self.new) }
    {
        put_in(&mut self.sets, alloc, found)
    }

    /// Takes off all that wait with the least storage, if any waits, in lexicographic order. Cost: that of a sort.
    pub(crate) fn next(&mut self, alloc: Global) -> Result<Option<Level<H>>, NoMemory>
        ensures { IfOk result (λ found. MatchOption found (self.old ≡ []) (λ level. IsLevelTaken level.total level.visits.items self.old self.new)) }
    {
        let Some((total, set)) = self.sets.pop_first() else {
            return Ok(None);
        };
        let visits = in_order(alloc, set)?;
        Ok(Some(Level { total, visits }))
    }
}

/// Lets one wait in the set of its storage.
fn put_in<H: Copy + Drop>(
    sets: &mut BTreeMap<u64, IndexSet<Found<H>>>,
    alloc: Global,
    found: Found<H>,
) -> Result<(), NoMemory>
    requires sets { AreSets sets.old.entries }
    requires new { list_any (found_eq found) (waiting_in sets.old.entries) ≡ false }
    ensures sets { AreSets sets.new.entries }
    ensures put { OnOk result (IsPermutation (found ∷ waiting_in sets.old.entries) (waiting_in sets.new.entries)) }
{
    if let Some(set) = sets.get_mut(&found.total) {
        set.insert(found)?;
        return Ok(());
    }
    put_first(sets, alloc, found)
}

/// Lets one wait as the first with its storage.
fn put_first<H: Copy + Drop>(
    sets: &mut BTreeMap<u64, IndexSet<Found<H>>>,
    alloc: Global,
    found: Found<H>,
) -> Result<(), NoMemory>
    requires sets { AreSets sets.old.entries }
    requires none { get nat_cmp sets.old found.total ≡ None }
    ensures sets { AreSets sets.new.entries }
    ensures put { OnOk result (IsPermutation (found ∷ waiting_in sets.old.entries) (waiting_in sets.new.entries)) }
{
    let total = found.total;
    let set = set_of(alloc, found)?;
    sets.insert(total, set)?;
    Ok(())
}

/// A set of one.
fn set_of<H: Copy + Drop>(alloc: Global, found: Found<H>) -> Result<IndexSet<Found<H>>, NoMemory>
    ensures keys { IfOk result (λ s. s.keys ≡ found ∷ []) }
    ensures differ { IfOk result (λ s. IsDistinct found_eq s.keys) }
{
    let mut set = IndexSet::new(alloc);
    set.insert(found)?;
    Ok(set)
}

/// Those of a set in lexicographic order.
fn in_order<H: Copy + Drop>(
    alloc: Global,
    set: IndexSet<Found<H>>,
) -> Result<Vec<Found<H>>, NoMemory>
    requires { IsDistinct found_eq set.keys }
    ensures same { IfOk result (λ v. IsPermutation set.keys v.items) }
    ensures sorted { IfOk result (λ v. IsStrictlySortedBy found_order v.items) }
{
    let mut visits = listed(alloc, set)?;
    visits.sort_unstable();
    Ok(visits)
}

/// Those of a set in the order in which they were put in.
fn listed<H: Copy + Drop>(alloc: Global, set: IndexSet<Found<H>>) -> Result<Vec<Found<H>>, NoMemory>
    ensures { IfOk result (λ v. v.items ≡ set.keys) }
{
    Ok(set.into_iter().collect(alloc)?)
}
