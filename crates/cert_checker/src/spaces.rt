//! The channels along whose free space steps of cycles are.
ghost use Rattle.std.specs.Prelude.{◌≡◌, ◌↔◌, ◌⊎◌, ℕ, IfOk, IsTrue, OnOk, length};
ghost use Rattle.sd_base.specs.declared.role.Role.TheVariants.{Space};
ghost use Rattle.cert_checker.specs.inside.ShownAt.{HasSpaceLink};
ghost use Rattle.cert_checker.specs.inside.Spaces.{AreSpaces, HasSpace};

use cert_text::{LinkCycle, LinkStep};
use sd_base::{NoMemory, Role};
use std::alloc::Global;
use std::collections::BTreeSet;

/// By the number of a cycle the channels along whose free space a step of it is. One is found in the logarithm of the steps of
/// all cycles, however many members show a cycle.
#[derive(Drop)]
pub(crate) struct Spaces {
    links: BTreeSet<(u64, u32)>,
}

impl Spaces {
    /// Those of listed cycles. Cost: the steps, each times the logarithm of their number.
    pub(crate) fn of(alloc: Global, cycles: &[LinkCycle]) -> Result<Spaces, NoMemory>
        ensures { IfOk result (AreSpaces cycles.now) }
    {
        let mut spaces = Spaces {
            links: BTreeSet::new(alloc),
        };
        for number in 0..cycles.len() {
            spaces.add_all(number as u64, cycles[number].steps.as_slice())?;
        }
        Ok(spaces)
    }

    fn add_all(&mut self, number: u64, steps: &[LinkStep]) -> Result<(), NoMemory>
        ensures { OnOk result ((k c : ℕ) → HasSpace self.new k c ↔ (HasSpace self.old k c ⊎ ((number ≡ k) × HasSpaceLink steps.now c))) }
    {
        for step in steps {
            self.add(number, step.link)?;
        }
        Ok(())
    }

    fn add(&mut self, number: u64, link: Role) -> Result<(), NoMemory>
        ensures { OnOk result ((k c : ℕ) → HasSpace self.new k c ↔ (HasSpace self.old k c ⊎ ((number ≡ k) × (link ≡ Space c)))) }
    {
        if let Role::Space(channel) = link {
            self.links.insert((number, channel))?;
        }
        Ok(())
    }

    /// Whether a step of a cycle is along the free space of a channel.
    pub(crate) fn has(&self, number: u64, channel: u32) -> bool
        ensures { IsTrue result ↔ HasSpace self.now number channel }
    {
        self.links.contains(&(number, channel))
    }
}
