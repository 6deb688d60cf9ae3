use crate::refusal::BalanceError;
use crate::search::{Found, Search};
use crate::walk::{Link, WalkStep};
use crate::way::way_at;
use sd_base::limits::RATIO;
use sd_base::{Rows, gcd_wide};
use std::alloc::Global;

/// The ratio of a walk in lowest terms.
#[derive(Clone, Copy)]
pub(crate) struct Ratio {
    /// The cycles of the last actor's phases for `den` of the first's.
    pub num: u128,
    /// The cycles of the first actor's phases for `num` of the last's.
    pub den: u128,
}

ghost use Rattle.std.specs.Prelude.{◌≡◌, ℕ, ◌*◌, ◌<◌, ◌≤◌, ◌↔◌, ◌∷◌, ◌++◌, [], List, true, Some, IsTrue, IfOk, IfErr, MatchOption, length, slice_get, replicate};
ghost use Rattle.std.specs.Int.{IsGcd};
ghost use Rattle.sd_base.specs.declared.limits.TheConstants.{PHASES, RATE, RATIO};
ghost use Rattle.balance.specs.declared.refusal.BalanceError.TheVariants.{NoMemory};
ghost use Rattle.balance.specs.Walks.{IsLowest, step_from, step_num, step_den};
ghost use Rattle.balance.specs.inside.Search.{HasEnds, HasSums, IsSearched, mark_at};
ghost use Rattle.balance.specs.inside.Ratios.{one, ratio_at, IsSmall, AreRatios, Keeps, IsRatedStep, IsLimitRefusal, IsSummed};

/// The greatest part of a ratio.
const RATIO_LIMIT: u128 = RATIO as u128;

/// By actor the ratio of its way. The search finds ways in their order, so that the first one with a ratio above the
/// limit is the one to refuse, and the ratios before it, from which the others are made, are within the limit.
pub fn ratios(alloc: Global, links: &[Link], search: &Search) -> Result<Vec<Ratio>, BalanceError>
    requires sums { HasSums links.now }
    requires ends { HasEnds (length search.now.seen.items) links.now }
    requires tree { IsSearched links.now (length search.now.seen.items) search.now.found.items search.now.seen.items }
    requires connected { (b : ℕ) → b < length search.now.seen.items → mark_at search.now.seen.items b ≡ true }
    ensures ok { IfOk result (λ rs. AreRatios links.now (length search.now.seen.items) rs.items) }
    ensures refusal { IfErr result (IsLimitRefusal links.now) }
{
    let mut ratios = ones(alloc, search.seen.len())?;
    for place in 0..search.found.len() {
        let found = search.found[place];
        let ratio = way_ratio(links, &ratios, found);
        if ratio.num > RATIO_LIMIT || ratio.den > RATIO_LIMIT {
            let path = way_at(alloc, &search.found, place)?;
            return Err(BalanceError::RatioTooLarge {
                path: Rows::from_vec(path),
            });
        }
        ratios[found.actor] = ratio;
    }
    Ok(ratios)
}

/// The ratio 1 for each actor.
fn ones(alloc: Global, actors: usize) -> Result<Vec<Ratio>, BalanceError>
    ensures ok { IfOk result (λ rs. rs.items ≡ replicate actors one) }
    ensures refusal { IfErr result (λ e. e ≡ NoMemory) }
{
    let mut ratios = Vec::new(alloc);
    for _actor in 0..actors {
        ratios.push(Ratio { num: 1, den: 1 })?;
    }
    Ok(ratios)
}

/// The ratio of a found actor's way, from that of the actor from which its last step leads.
fn way_ratio(links: &[Link], ratios: &[Ratio], found: Found) -> Ratio
    requires sums { HasSums links.now }
    requires rated { MatchOption found.reach (Unit {0}) (λ r. IsRatedStep links.now ratios.now r.step) }
    ensures { MatchOption found.reach (result ≡ one) (λ r. (l : Link) → slice_get links.now r.step.channel ≡ Some l →
        IsLowest result.num result.den
        ((ratio_at ratios.now (step_from l r.step.forward)).num * step_num l r.step.forward)
        ((ratio_at ratios.now (step_from l r.step.forward)).den * step_den l r.step.forward)) }
{
    match found.reach {
        None => Ratio { num: 1, den: 1 },
        Some(reach) => {
            let step = reach.step;
            let link = links[step.channel as usize];
            stepped(ratio_of(ratios, start_of(link, step)), link, step)
        }
    }
}

/// The ratio of an actor.
pub(crate) fn ratio_of(ratios: &[Ratio], actor: usize) -> Ratio
    requires { actor < length ratios.now }
    ensures { result ≡ ratio_at ratios.now actor }
{
    ratios[actor]
}

/// Where a step over a channel begins.
fn start_of(link: Link, step: WalkStep) -> usize
    ensures { result ≡ step_from link step.forward }
{
    if step.forward {
        link.source
    } else {
        link.target
    }
}

/// A ratio times that of a step. The products are at most 100,000 times 4,096,000,000.
fn stepped(before: Ratio, link: Link, step: WalkStep) -> Ratio
    requires small { IsSmall before }
    requires sums { IsSummed link }
    ensures { IsLowest result.num result.den
        (before.num * step_num link step.forward) (before.den * step_den link step.forward) }
{
    let (made, taken) = (u128::from(link.made), u128::from(link.taken));
    if step.forward {
        lowest(before.num * made, before.den * taken)
    } else {
        lowest(before.num * taken, before.den * made)
    }
}

/// num/den in lowest terms.
pub fn lowest(num: u128, den: u128) -> Ratio
    requires { 0 < den }
    ensures { IsLowest result.num result.den num den }
{
    let common = gcd_wide(num, den);
    Ratio {
        num: num / common,
        den: den / common,
    }
}

/// The first channel that doesn't keep the ratios.
pub(crate) fn first_failing(links: &[Link], ratios: &[Ratio]) -> Option<usize>
    requires sums { HasSums links.now }
    requires ends { HasEnds (length ratios.now) links.now }
    requires small { (b : ℕ) → IsSmall (ratio_at ratios.now b) }
    ensures { MatchOption result ((k : ℕ) (l : Link) → slice_get links.now k ≡ Some l → Keeps ratios.now l)
        (λ c. (l : Link) × (slice_get links.now c ≡ Some l) × (Keeps ratios.now l → ⊥)
        × ((k : ℕ) (m : Link) → k < c → slice_get links.now k ≡ Some m → Keeps ratios.now m)) }
{
    for channel in 0..links.len() {
        if !keeps(ratios, links[channel]) {
            return Some(channel);
        }
    }
    None
}

/// Whether a channel keeps the ratios.
fn keeps(ratios: &[Ratio], link: Link) -> bool
    requires source { link.source < length ratios.now }
    requires target { link.target < length ratios.now }
    requires sums { IsSummed link }
    requires small { (b : ℕ) → IsSmall (ratio_at ratios.now b) }
    ensures { IsTrue result ↔ Keeps ratios.now link }
{
    let (source, target) = (ratio_of(ratios, link.source), ratio_of(ratios, link.target));
    product(source.num, link.made, target.den) == product(target.num, link.taken, source.den)
}

/// What the firings of a whole round of cycles move over a channel, but for a common factor: at most 100,000 times
/// 4,096,000,000 times 100,000, which is above 2^64 and below 2^128.
pub fn product(num: u128, sum: u64, den: u128) -> u128
    requires num { num ≤ RATIO }
    requires sum { sum ≤ PHASES * RATE }
    requires den { den ≤ RATIO }
    ensures { result ≡ num * sum * den }
{
    num * u128::from(sum) * den
}
