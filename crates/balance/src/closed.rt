ghost use Rattle.std.specs.Prelude.{◌≡◌, ℕ, ◌≤◌, ◌<◌, ◌++◌, Some, true, IfOk, IfErr, OnOk, length, take, drop, slice_get};
ghost use Rattle.balance.specs.Walks.{turned};
ghost use Rattle.balance.specs.Repetition.{IsParted};
ghost use Rattle.balance.specs.inside.Search.{HasEnds, HasSums, IsFound, HasEntries, IsSearched, IsClosedBetween, mark_at};
ghost use Rattle.balance.specs.inside.Ratios.{ratio_at, IsSmall, IsSummed, AreRatios, Keeps, IsClosedRefusal, IsKeptRefusal};

use crate::ratio::{Ratio, first_failing, lowest, product, ratio_of};
use crate::refusal::BalanceError;
use crate::search::{Found, Search};
use crate::walk::{Link, WalkStep};
use crate::way::way_to;
use sd_base::Rows;
use std::alloc::{AllocError, Global};

/// Whether all channels keep the ratios; else the refusal for the first that doesn't.
pub(crate) fn all_kept(
    alloc: Global,
    links: &[Link],
    search: &Search,
    ratios: &[Ratio],
) -> Result<(), BalanceError>
    requires few { length links.now ≤ 256 }
    requires sums { HasSums links.now }
    requires ends { HasEnds (length search.now.seen.items) links.now }
    requires tree { IsSearched links.now (length search.now.seen.items) search.now.found.items search.now.seen.items }
    requires connected { (b : ℕ) → b < length search.now.seen.items → mark_at search.now.seen.items b ≡ true }
    requires rated { AreRatios links.now (length search.now.seen.items) ratios.now }
    ensures kept { OnOk result ((k : ℕ) (l : Link) → slice_get links.now k ≡ Some l → Keeps ratios.now l) }
    ensures refusal { IfErr result (IsKeptRefusal links.now) }
{
    let Some(channel) = first_failing(links, ratios) else {
        return Ok(());
    };
    let link = links[channel];
    Err(unbalanced(alloc, &search.found, ratios, channel as u32, link)?)
}

/// The refusal for a channel that doesn't keep the ratios: the walk over it, and its ratio by those of its ends.
pub fn unbalanced(
    alloc: Global,
    found: &[Found],
    ratios: &[Ratio],
    channel: u32,
    link: Link,
) -> Result<BalanceError, AllocError>
    requires source { IsFound found.now link.source }
    requires target { IsFound found.now link.target }
    requires read { HasEntries found.now }
    requires from { link.source < length ratios.now }
    requires to { link.target < length ratios.now }
    requires sums { IsSummed link }
    requires positive { 0 < (ratio_at ratios.now link.target).num }
    requires small { (b : ℕ) → IsSmall (ratio_at ratios.now b) }
    ensures { IfOk result (IsClosedRefusal found.now ratios.now channel link) }
{
    let walk = closed_walk(alloc, found, channel, link)?;
    let (source, target) = (ratio_of(ratios, link.source), ratio_of(ratios, link.target));
    let ratio = lowest(
        product(source.num, link.made, target.den),
        product(target.num, link.taken, source.den),
    );
    Ok(BalanceError::Unbalanced {
        walk,
        num: ratio.num,
        den: ratio.den,
    })
}

/// The channel, forward, and then the path from its target to its source between the ways that were found.
fn closed_walk(
    alloc: Global,
    found: &[Found],
    channel: u32,
    link: Link,
) -> Result<Rows<WalkStep>, AllocError>
    requires source { IsFound found.now link.source }
    requires target { IsFound found.now link.target }
    requires read { HasEntries found.now }
    ensures { IfOk result (IsClosedBetween found.now channel link) }
{
    let back = way_to(alloc, found, link.target)?;
    let on = way_to(alloc, found, link.source)?;
    let common = common_steps(&back, &on);
    let mut walk = Vec::new(alloc);
    walk.push(WalkStep {
        channel,
        forward: true,
    })?;
    turn_back(&mut walk, &back[common..])?;
    walk.extend_from_slice(&on[common..])?;
    Ok(Rows::from_vec(walk))
}

/// With how many steps both ways begin.
fn common_steps(a: &[WalkStep], b: &[WalkStep]) -> usize
    ensures in_a { result ≤ length a.now }
    ensures in_b { result ≤ length b.now }
    ensures same { take result a.now ≡ take result b.now }
    ensures parted { IsParted (drop result a.now) (drop result b.now) }
{
    let mut common = 0;
    'steps: while common < a.len() && common < b.len() && a[common] == b[common] {
        common += 1;
    }
    common
}

/// Adds the steps in reverse, each in the other direction.
fn turn_back(walk: &mut Vec<WalkStep>, steps: &[WalkStep]) -> Result<(), AllocError>
    ensures { OnOk result (walk.new.items ≡ walk.old.items ++ turned steps.now) }
{
    for done in 0..steps.len() {
        let step = steps[steps.len() - 1 - done];
        walk.push(WalkStep {
            channel: step.channel,
            forward: !step.forward,
        })?;
    }
    Ok(())
}
