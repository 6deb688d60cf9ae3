//! Rates by phase.

ghost use Rattle.std.specs.Prelude.{◌≡◌, ◌≤◌, ◌<◌, ℕ, IfOk, length, replicate, slice_index};
ghost use Rattle.sd_base.specs.Net.{total};
ghost use Rattle.firing.specs.Csdf.{AreRates};
ghost use Rattle.firing.specs.inside.PhaseSums.{AreSums};

use sd_base::NoMemory;
use std::alloc::Global;
use std::marker::Model;

/// Rates by phase, with their sums: number k of `sums` is that of the first k rates.
#[derive(Debug, Drop)]
pub struct PhaseRates {
    rates: Vec<u64>,
    sums: Vec<u64>,
    ghost summed: { AreSums rates.items sums.items },
}

impl Model for PhaseRates {
    ghost use Rattle.std.specs.Prelude.{List, ℕ};

    ghost Value = { List ℕ };

    ghost view = { λ r. r.rates.items };
}

impl PhaseRates {
    /// A list of its own with these rates.
    pub fn of(alloc: Global, rates: &[u64]) -> Result<PhaseRates, NoMemory>
        requires { AreRates rates.now }
        ensures { IfOk result (λ r. r ≡ rates.now) }
    {
        let sums = sums_of(alloc, rates)?;
        let rates = Vec::from_slice(alloc, rates)?;
        Ok(PhaseRates { rates, sums })
    }

    /// The rate of a phase.
    pub fn at(&self, phase: u32) -> u64
        requires { phase < length self.now }
        ensures { result ≡ slice_index self.now phase }
    {
        self.rates[phase as usize]
    }

    /// The sum of the rates of the phases below `phases`.
    pub fn before(&self, phases: u32) -> u64
        requires { phases ≤ length self.now }
        ensures { result ≡ total self.now phases }
    {
        self.sums[phases as usize]
    }
}

/// The sums of the first numbers of a list, from none of them to all.
fn sums_of(alloc: Global, rates: &[u64]) -> Result<Vec<u64>, NoMemory>
    requires { AreRates rates.now }
    ensures { IfOk result (λ v. AreSums rates.now v.items) }
{
    let mut sums = Vec::new(alloc);
    let mut sum: u64 = 0;
    sums.push(sum)?;
    for rate in rates {
        sum += *rate;
        sums.push(sum)?;
    }
    Ok(sums)
}

/// The rate 1 for each phase.
pub fn ones(alloc: Global, phases: u32) -> Result<Vec<u64>, NoMemory>
    ensures { IfOk result (λ v. v.items ≡ replicate phases 1) }
{
    let mut rates = Vec::new(alloc);
    for _phase in 0..phases {
        rates.push(1)?;
    }
    Ok(rates)
}
