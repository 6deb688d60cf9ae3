//! Cycles that are listed each once.
ghost use Rattle.std.specs.Prelude.{◌≡◌, ◌==◌, ◌&&◌, ◌++◌, ◌<◌, ◌≤◌, ◌∷◌, [], List, IfOk, OnOk, map, length, slice_get, Some};
ghost use Rattle.std.specs.Hash as fed;
ghost use Rattle.sd_base.specs.contracts.role.RolePartialEq.TheImpl as roles;
ghost use Rattle.cert_text.specs.contracts.certificates.LinkStepPartialEq.TheImpl as steps;
ghost use Rattle.cert_text.specs.Orderly.{Differ};
ghost use Rattle.cert_maker.specs.inside.Listing.{IsEntered, firing_alike, firing_input, steps_alike};

use cert_text::{LinkCycle, LinkStep};
use critical::FiringNo;
use indexmap::IndexSet;
use sd_base::{NoMemory, Rows};
use std::alloc::Global;
use std::hash::{Hash, Hasher};
use std::marker::Model;

/// A cycle that an equal one finds.
#[derive(PartialEq, Eq, Drop)]
pub(crate) struct ListedCycle {
    time: u64,
    rounds: u64,
    first: FiringNo,
    steps: Rows<LinkStep>,
}

impl Hash for ListedCycle {
    ghost hash_input = { λ c. fed.slice firing_input c.steps };

    ghost respects_eq = { λ x y. steps_alike (steps.ghosts).eq (λ s t. firing_alike s t ((roles.ghosts).eq s.link t.link)) (x.time == y.time) (x.rounds == y.rounds) (x.first.actor == y.first.actor && x.first.number == y.first.number) x.steps y.steps };

    fn hash<H: Hasher>(&self, state: &mut H) {
        state.write_usize(self.steps.len());
        for step in self.steps.as_slice() {
            state.write_u32(step.to.actor);
            state.write_u64(step.to.number);
        }
    }
}

/// Cycles in the order in which they were entered, each once. Contracts see them as a list.
#[derive(Drop)]
pub(crate) struct Cycles {
    listed: IndexSet<ListedCycle>,
}

impl Model for Cycles {
    ghost use Rattle.std.specs.Prelude.{List, map};
    ghost use Rattle.cert_text.specs.declared.certificates.LinkCycle.{LinkCycle};
    ghost use Rattle.cert_text.specs.Orderly.{Differ};
    ghost use Rattle.cert_maker.specs.inside.Listing.{cycle_of};

    ghost Value = { List LinkCycle };

    ghost view = { λ c. map cycle_of c.listed.keys };

    ghost invariant = { λ c. Differ (map cycle_of c.listed.keys) };
}

impl Cycles {
    pub(crate) fn new(alloc: Global) -> Cycles
        ensures { result ≡ [] }
    {
        Cycles {
            listed: IndexSet::new(alloc),
        }
    }

    /// Enters a cycle, if it isn't there, and gives its number.
    pub(crate) fn enter(&mut self, cycle: LinkCycle) -> Result<usize, NoMemory>
        ensures there { IfOk result (λ i. slice_get self.new i ≡ Some cycle) }
        ensures once { IfOk result (λ i. IsEntered self.old cycle i self.new) }
    {
        let (number, _) = self.listed.insert_full(ListedCycle {
            time: cycle.time,
            rounds: cycle.rounds,
            first: cycle.first,
            steps: cycle.steps,
        })?;
        Ok(number)
    }

    /// The cycles in their order.
    pub(crate) fn into_vec(self, alloc: Global) -> Result<Vec<LinkCycle>, NoMemory>
        ensures same { IfOk result (λ v. v.items ≡ self) }
        ensures differ { Differ self }
    {
        let Cycles { listed } = self;
        let mut cycles = Vec::new(alloc);
        for cycle in listed {
            cycles.push(LinkCycle {
                time: cycle.time,
                rounds: cycle.rounds,
                first: cycle.first,
                steps: cycle.steps,
            })?;
        }
        Ok(cycles)
    }
}
