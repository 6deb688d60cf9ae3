//! The greatest rates of points by their storage.
ghost use Rattle.std.specs.Prelude.{◌≡◌, ◌↔◌, ◌⊎◌, ℕ, ◌*◌, ◌≤◌, ◌<◌, List, IfOk, IsTrue, length};
ghost use Rattle.std.specs.List.Sorted.{IsNonDecreasingBy, IsPermutation};
ghost use Rattle.cert_text.specs.declared.certificates.PointLine.{PointLine};
ghost use Rattle.cert_checker.specs.inside.BelowPoints.{HasBelow};
ghost use Rattle.cert_checker.specs.inside.Bests.{AreBest, AreBestRates, ArePositive, HasUpTo, IsAtMost, IsSplit};

use cert_text::PointLine;
use sd_base::NoMemory;
use std::alloc::Global;

/// A storage and a rate, in rounds by time units.
#[derive(Clone, Copy, Debug, Drop)]
pub(crate) struct Best {
    pub(crate) storage: u64,
    pub(crate) rate: (u64, u64),
}

/// The storage of each point, in order, with the greatest rate of the points up to there.
#[derive(Drop)]
pub(crate) struct BestRates {
    pub(crate) steps: Vec<Best>,
}

impl BestRates {
    /// Those of points. Cost: the points, each times the logarithm of their number.
    pub(crate) fn of(alloc: Global, points: &[PointLine]) -> Result<BestRates, NoMemory>
        ensures { IfOk result (AreBestRates points.now) }
    {
        let mut rates = rates_of(alloc, points)?;
        rates.sort_by_key(|rate| rate.storage)?;
        let steps = raised(alloc, &rates)?;
        Ok(BestRates { steps })
    }

    /// Whether some point has no more than a storage, and no less than a rate. Cost: the logarithm of the points.
    pub(crate) fn has(&self, storage: u64, rate: (u64, u64)) -> bool
        ensures { (points : List PointLine) → AreBestRates points self.now → IsTrue result ↔ HasBelow points storage rate }
    {
        let count = count_within(&self.steps, storage);
        count != 0 && is_at_most(rate, self.steps[count - 1].rate)
    }
}

/// The storage and the rate of each point that has one.
fn rates_of(alloc: Global, points: &[PointLine]) -> Result<Vec<Best>, NoMemory>
    ensures positive { IfOk result (λ v. ArePositive v.items) }
    ensures same { IfOk result (λ v. (storage : ℕ) (rate : ℕ × ℕ) → HasUpTo v.items storage rate ↔ HasBelow points.now storage rate) }
{
    let mut rates = Vec::new(alloc);
    for point in points {
        if point.rate.1 != 0 {
            rates.push(Best {
                storage: point.total,
                rate: point.rate,
            })?;
        }
    }
    Ok(rates)
}

/// The same with the greatest rate of all up to there in place of each.
fn raised(alloc: Global, rates: &[Best]) -> Result<Vec<Best>, NoMemory>
    requires { ArePositive rates.now }
    ensures { IfOk result (λ v. AreBest rates.now v.items) }
{
    let mut steps = Vec::new(alloc);
    let mut greatest = (0, 1);
    for rate in rates {
        greatest = greater(greatest, rate.rate);
        steps.push(Best {
            storage: rate.storage,
            rate: greatest,
        })?;
    }
    Ok(steps)
}

/// The greater one of two rates, the second where they are equal.
fn greater(first: (u64, u64), second: (u64, u64)) -> (u64, u64)
    ensures first { IsAtMost first result }
    ensures second { IsAtMost second result }
    ensures one { (IsAtMost first second × (result ≡ second)) ⊎ ((IsAtMost first second → ⊥) × (result ≡ first)) }
{
    if is_at_most(first, second) {
        second
    } else {
        first
    }
}

fn is_at_most(first: (u64, u64), second: (u64, u64)) -> bool
    ensures { IsTrue result ↔ IsAtMost first second }
{
    first.0 as u128 * second.1 as u128 <= second.0 as u128 * first.1 as u128
}

/// How many of them have no more than a storage.
fn count_within(steps: &[Best], storage: u64) -> usize
    ensures within { result ≤ length steps.now }
    ensures split { IsNonDecreasingBy (λ step. step.storage) steps.now → IsSplit steps.now storage result result }
{
    let mut few = 0;
    let mut enough = steps.len();
    while few < enough {
        let middle = few + (enough - few) / 2;
        if steps[middle].storage <= storage {
            few = middle + 1;
        } else {
            enough = middle;
        }
    }
    few
}
