ghost use Rattle.std.specs.Prelude.{◌≡◌, ◌<◌, IfOk, All, map, length};
ghost use Rattle.critical.specs.declared.cycle.CycleStep.{CycleStep as AStep};
ghost use Rattle.cert_text.specs.Spellable.{IsCycleText};
ghost use Rattle.cert_maker.specs.Links.{HasNoOrders, link_cycle, link_step};

use cert_text::{LinkCycle, LinkStep};
use critical::{CycleStep, NeedCycle};
use firing::Firing;
use sd_base::{NoMemory, Rows};
use std::alloc::Global;

/// A need cycle of a net by what its channels stand for. Cost: linear in the steps.
pub(crate) fn linked<F: Firing>(
    alloc: Global,
    net: &F,
    cycle: &NeedCycle,
) -> Result<LinkCycle, NoMemory>
    requires channels { All (λ (s : AStep). s.channel < length (F.net net.now).channels) cycle.now.steps }
    requires unordered { HasNoOrders (F.net net.now) }
    ensures same { IfOk result (λ c. c ≡ link_cycle (F.net net.now) cycle.now) }
    ensures text { IfOk result IsCycleText }
{
    let listed = cycle.steps.to_rows(alloc)?;
    Ok(LinkCycle {
        time: cycle.time,
        rounds: cycle.rounds,
        first: cycle.first,
        steps: Rows::from_vec(steps(alloc, net, listed.as_slice())?),
    })
}

fn steps<F: Firing>(alloc: Global, net: &F, steps: &[CycleStep]) -> Result<Vec<LinkStep>, NoMemory>
    requires channels { All (λ (s : AStep). s.channel < length (F.net net.now).channels) steps.now }
    ensures { IfOk result (λ s. s.items ≡ map (link_step (F.net net.now)) steps.now) }
{
    let mut links = Vec::new(alloc);
    for step in steps {
        links.push(LinkStep {
            to: step.to,
            link: net.role(step.channel),
        })?;
    }
    Ok(links)
}
