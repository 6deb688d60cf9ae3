ghost use Rattle.std.specs.Prelude.{◌≡◌, ℕ, ◌+◌, ◌-◌, ◌^◌, ◌<◌, ◌≤◌, All, length};
ghost use Rattle.std.specs.Option.{IsSome};
ghost use Rattle.sd_base.specs.Untimed.{IsLive};
ghost use Rattle.lasso.specs.LoopAnswers.{IsFound};
ghost use Rattle.report.specs.LinkTexts.{IsNamed};
ghost use Rattle.cert_maker.specs.Links.{HasNoOrders};
ghost use Rattle.sd_base.specs.Connection.{IsStronglyConnected};
ghost use Rattle.sd_words.specs.Asked.{AreStates};
ghost use Rattle.sd_steps.specs.Nets.{IsFed, on_live};
ghost use Rattle.sd_command.specs.commands.Rates.{IsRateAnswer, IsRateTooLong, execution};
ghost use Rattle.sd_steps.specs.Findings.{finding};
ghost use Rattle.critical.specs.declared.cycle.CycleStep.{CycleStep as AStep};
ghost use Rattle.cert_text.specs.declared.certificates.Certificate.{Certificate as ACertificate};
ghost use Rattle.cert_text.specs.Spellable.{AreStarts};
ghost use Rattle.sd_steps.specs.Certifyings.{Certifies, IsTooLong};
ghost use Rattle.sd_steps.specs.Courses.{deciding};
ghost use Rattle.sd_steps.specs.Steps.{Does};
ghost use Rattle.sd_command.specs.inside.Goings.{Goes};
ghost use Rattle.sd_command.specs.inside.MadeCertificates.{IsMadeOfRate};

use crate::commands::wanted::WantedRate;
use cert_maker::rate_certificate;
use critical::{NeedCycle, critical_cycle};
use firing::{Firing, LoopTable, Wired, Wiring, know_laws};
use lasso::find_loop;
use periodic::{Periodic, from_loop};
use report::rate_text;
use sd_base::{GraphFile, Ledger, Steps};
use sd_steps::certifying::certify;
use sd_steps::finding::found;
use sd_steps::nets::test;
use sd_steps::{Answer, FileKind, Put, Stop};
use std::alloc::Global;
use storage::Distribution;

/// The rate of a net that is bounded by a distribution, with the schedule that reaches it and the need cycle that bounds it.
/// `graph` has the names of its actors and channels.
pub(crate) fn rate_of<F: Firing, L: Ledger>(
    alloc: Global,
    net: &F,
    graph: &GraphFile,
    distribution: &Distribution,
    wanted: &WantedRate,
    steps: &mut Steps<L>,
) -> Result<Answer, Stop>
    requires named { IsNamed graph.now (F.net net.now) }
    requires unordered { IsSome wanted.now.certificate → HasNoOrders (F.net net.now) }
    requires few_channels { length distribution.now.capacities < 2 ^ 32 }
    requires states { AreStates wanted.now.states }
    ensures goes { (faults : ℕ) →
        Goes (on_live graph.now (F.net net.now) (execution graph.now (F.net net.now) distribution.now.capacities wanted.now)) result (steps.new.count - steps.old.count) faults faults }
    ensures rises { steps.old.count ≤ steps.new.count }
    ensures share { steps.new.share ≡ steps.old.share }
{
    let wiring = Wiring::new(alloc, net)?;
    let wired = Wired {
        net,
        wiring: &wiring,
    };
    test(alloc, &wired, graph)?;
    let table = counted_loop(alloc, &wired, wanted.states, steps)?;
    shown(alloc, &wired, graph, distribution, wanted, &table)
}

// The loop of self-timed execution, or the refusal of one that passes a bound.
fn counted_loop<F: Firing, L: Ledger>(
    alloc: Global,
    wired: &Wired<F>,
    states: u64,
    steps: &mut Steps<L>,
) -> Result<LoopTable, Stop>
    requires joined { IsStronglyConnected (F.net wired.now.net.now) }
    requires fed { IsFed (F.net wired.now.net.now) }
    requires live { IsLive (F.net wired.now.net.now) }
    requires states { AreStates states }
    ensures does { Does (finding (F.net wired.now.net.now) states) result }
    ensures counts { steps.new.count ≡ steps.old.count + 1 }
    ensures share { steps.new.share ≡ steps.old.share }
{
    know_laws(wired.net);
    steps.tick();
    found(alloc, find_loop(alloc, wired, states), states)
}

// The answer by the loop of the net: its text, and its certificate where one is asked for.
fn shown<F: Firing>(
    alloc: Global,
    wired: &Wired<F>,
    graph: &GraphFile,
    distribution: &Distribution,
    wanted: &WantedRate,
    table: &LoopTable,
) -> Result<Answer, Stop>
    requires named { IsNamed graph.now (F.net wired.now.net.now) }
    requires unordered { IsSome wanted.now.certificate → HasNoOrders (F.net wired.now.net.now) }
    requires few { length distribution.now.capacities < 2 ^ 32 }
    requires fed { IsFed (F.net wired.now.net.now) }
    requires found { IsFound (F.net wired.now.net.now) wanted.now.states table.now }
    ensures { Does (deciding (IsRateAnswer graph.now (F.net wired.now.net.now) distribution.now.capacities wanted.now) (IsRateTooLong (F.net wired.now.net.now) distribution.now.capacities wanted.now)) result }
{
    let net = wired.net;
    know_laws(net);
    let schedule = from_loop(alloc, net, table)?;
    let cycle = critical_cycle(alloc, wired, table)?;
    let text = rate_text(alloc, net, graph, &schedule, &cycle)?;
    let put = put_for(alloc, net, distribution, wanted, schedule, &cycle)?;
    Ok(Answer { text, put })
}

// The file of the certificate of a schedule and a need cycle, where one is asked for.
fn put_for<F: Firing>(
    alloc: Global,
    net: &F,
    distribution: &Distribution,
    wanted: &WantedRate,
    schedule: Periodic,
    cycle: &NeedCycle,
) -> Result<Option<Put>, Stop>
    requires unordered { IsSome wanted.now.certificate → HasNoOrders (F.net net.now) }
    requires few { length distribution.now.capacities < 2 ^ 32 }
    requires period { 1 ≤ schedule.period }
    requires starts { All AreStarts schedule.starts }
    requires channels { All (λ (s : AStep). s.channel < length (F.net net.now).channels) cycle.now.steps }
    ensures { let shows : ACertificate → Type 0 = IsMadeOfRate (F.net net.now) distribution.now.capacities wanted.now schedule cycle.now in
        Does (deciding (Certifies wanted.now.certificate shows) (IsTooLong wanted.now.certificate shows)) result }
{
    match &wanted.certificate {
        None => Ok(None),
        Some(name) => {
            let made = rate_certificate(
                alloc,
                net,
                wanted.no_overlap,
                distribution,
                schedule,
                cycle,
            )?;
            Ok(Some(certify(alloc, FileKind::Certificate, name.as_str(), &made)?))
        }
    }
}
