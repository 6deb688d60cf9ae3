ghost use Rattle.std.specs.Prelude.{◌≡◌, ℕ, ◌<◌, ◌≤◌, ◌^◌, List, All, IfOk, IfErr, MatchOption, Some, length, slice_get, sum};
ghost use Rattle.sd_base.specs.declared.limits.TheConstants.{ROUND};
ghost use Rattle.sd_base.specs.Tables.{KeepsRules, phases_of};
ghost use Rattle.sd_base.specs.Net.{IsRepetitionOf};
ghost use Rattle.balance.specs.Walks.{links_of};
ghost use Rattle.balance.specs.inside.Ratios.{IsSmall, AreRatios, Keeps, DivideAll, IsCommon, IsRoundBy, IsRoundRefusal};

use crate::ratio::Ratio;
use crate::refusal::BalanceError;
use crate::walk::Link;
use sd_base::limits::ROUND;
use sd_base::{GraphFile, Rows, lcm_within};
use std::alloc::{AllocError, Global};

/// The repetition vector of a graph whose channels keep the ratios, where its sum is within the limit.
pub fn round(alloc: Global, graph: &GraphFile, ratios: &[Ratio]) -> Result<Rows<u64>, BalanceError>
    requires rules { KeepsRules graph.now }
    requires rated { AreRatios (links_of graph.now) (length graph.now.actors) ratios.now }
    requires kept { (k : ℕ) (l : Link) → slice_get (links_of graph.now) k ≡ Some l → Keeps ratios.now l }
    ensures ok { IfOk result (λ v. IsRepetitionOf graph.now v × (sum v ≤ ROUND)) }
    ensures refusal { IfErr result (IsRoundRefusal graph.now) }
{
    let Some(cycles) = common_den(ratios) else {
        return Err(BalanceError::RoundTooLarge);
    };
    let round = firings(alloc, graph, ratios, cycles)?;
    if total(&round) > ROUND {
        return Err(BalanceError::RoundTooLarge);
    }
    Ok(Rows::from_vec(round))
}

fn total(round: &[u64]) -> u64
    requires { sum round.now < 2 ^ 64 }
    ensures { result ≡ sum round.now }
{
    round.iter().sum()
}

/// The least common multiple of the denominators, where it is within the limit: the cycles of actor 0.
fn common_den(ratios: &[Ratio]) -> Option<u64>
    requires { All IsSmall ratios.now }
    ensures { MatchOption result ((n : ℕ) → 0 < n → DivideAll ratios.now n → ROUND < n)
        (λ m. IsCommon ratios.now m × (m ≤ ROUND)) }
{
    let mut common = 1;
    for ratio in ratios {
        common = lcm_within(common, ratio.den as u64, ROUND)?;
    }
    Some(common)
}

/// By actor its ratio times the cycles of actor 0, times its phases: at most 100,000 times 100,000 times 4,096.
fn firings(
    alloc: Global,
    graph: &GraphFile,
    ratios: &[Ratio],
    cycles: u64,
) -> Result<Vec<u64>, AllocError>
    requires rules { KeepsRules graph.now }
    requires size { length ratios.now ≡ length graph.now.actors }
    requires small { All IsSmall ratios.now }
    requires within { cycles ≤ ROUND }
    ensures { IfOk result (λ v. IsRoundBy (phases_of graph.now) ratios.now cycles v.items) }
{
    let actors = graph.actors.as_slice();
    let mut round = Vec::new(alloc);
    for actor in 0..actors.len() {
        let ratio = ratios[actor];
        let own = cycles / ratio.den as u64 * ratio.num as u64;
        round.push(own * u64::from(actors[actor].phases))?;
    }
    Ok(round)
}
