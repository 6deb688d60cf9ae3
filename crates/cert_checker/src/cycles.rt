//! Need cycles by links.
ghost use Rattle.std.specs.Prelude.{◌↔◌, List, IfOk, IsTrue, MatchOption};
ghost use Rattle.critical.specs.declared.cycle.CycleStep.{CycleStep};
ghost use Rattle.cert_checker.specs.LinkCycles.{AreAlong, IsCycleLine, IsCycleOf};

use crate::links::Links;
use cert_text::{LinkCycle, LinkStep};
use critical::{CycleStep, CycleSteps, NeedCycle};
use firing::{Firing, know_laws};
use sd_base::NoMemory;
use std::alloc::Global;

/// Whether links are a need cycle on a net, of as many rounds for its time as a rate has. Cost: the channels and the steps,
/// each times the logarithm of the channels.
pub(crate) fn is_cycle_line<F: Firing>(
    alloc: Global,
    net: &F,
    rate: (u64, u64),
    links: &LinkCycle,
) -> Result<bool, NoMemory>
    ensures { IfOk result (λ b. IsTrue b ↔ IsCycleLine (F.net net.now) rate links.now) }
{
    know_laws(net);
    match steps_along(alloc, net, links.steps.as_slice())? {
        None => Ok(false),
        Some(steps) => Ok(is_cycle(
            net,
            rate,
            &NeedCycle {
                time: links.time,
                rounds: links.rounds,
                first: links.first,
                steps,
            },
        )),
    }
}

/// Whether a need cycle holds, with as many rounds for its time as a rate has.
fn is_cycle<F: Firing>(net: &F, rate: (u64, u64), cycle: &NeedCycle) -> bool
    ensures { IsTrue result ↔ IsCycleOf (F.net net.now) rate cycle.now }
{
    cycle.holds(net) && cycle.rounds as u128 * rate.1 as u128 == rate.0 as u128 * cycle.time as u128
}

/// The steps along the channels that stand for links; None where no channel stands for one of them.
fn steps_along<F: Firing>(
    alloc: Global,
    net: &F,
    links: &[LinkStep],
) -> Result<Option<CycleSteps>, NoMemory>
    ensures { IfOk result (λ o. MatchOption o ((steps : List CycleStep) → ¬ AreAlong (F.net net.now) links.now steps) (AreAlong (F.net net.now) links.now)) }
{
    let channels = Links::of(alloc, net)?;
    let mut steps = CycleSteps::new(alloc);
    for link in links {
        match channels.channel_of(link.link) {
            Some(channel) => steps.push(CycleStep {
                channel,
                to: link.to,
            })?,
            None => return Ok(None),
        }
    }
    Ok(Some(steps))
}
