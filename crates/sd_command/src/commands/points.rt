ghost use Rattle.std.specs.Prelude.{◌≡◌, ℕ, ◌-◌, ◌*◌, ◌≤◌, All, IfOk, None, Some, length};
ghost use Rattle.std.specs.List.{AllZip};
ghost use Rattle.sd_base.specs.declared.limits.TheConstants.{NET_CHANNELS, STORAGE};
ghost use Rattle.sd_base.specs.Tables.{IsTimed, KeepsRules};
ghost use Rattle.sd_base.specs.Connection.{IsConnected};
ghost use Rattle.sd_base.specs.FileNet.{net_of};
ghost use Rattle.balance.specs.Repetition.{IsRound};
ghost use Rattle.periodic.specs.declared.schedule.Periodic.{Periodic as APeriodic};
ghost use Rattle.storage.specs.Distributions.{IsPlain};
ghost use Rattle.explore.specs.Reachable.{IsExplorable};
ghost use Rattle.explore.specs.Explorations.{IsExploration, cycles_in};
ghost use Rattle.report.specs.LinkTexts.{IsNamed};
ghost use Rattle.cert_text.specs.declared.certificates.Certificate.{Certificate as ACertificate};
ghost use Rattle.cert_text.specs.Spellable.{AreStarts};
ghost use Rattle.cert_maker.specs.Links.{HasNoOrders};
ghost use Rattle.sd_words.specs.Asked.{AreLimits};
ghost use Rattle.sd_steps.specs.Certifyings.{Certifies, IsTooLong};
ghost use Rattle.sd_steps.specs.Courses.{deciding, ends_by};
ghost use Rattle.sd_steps.specs.Steps.{Does};
ghost use Rattle.sd_command.specs.commands.Points.{IsOfPoints, IsPointSchedule, points_of, points_search};
ghost use Rattle.sd_command.specs.Entrances.{IsSearched};
ghost use Rattle.sd_command.specs.inside.Goings.{Goes};

use crate::commands::parallel::Parallel;
use crate::commands::searches::{explored, points_within};
use crate::commands::shown_points::shown_points;
use crate::commands::wanted::WantedPoints;
use cert_maker::storage_certificate;
use explore::Exploration;
use fanout::Gate;
use firing::{CsdfNet, Firing, SdfNet, Wired, Wiring, know_laws};
use periodic::Periodic;
use sd_base::{GraphFile, Kind, Ledger, Steps, Text};
use sd_steps::certifying::certify;
use sd_steps::nets::{complete, test_incident};
use sd_steps::{Answer, FileKind, Put, Stop};
use std::alloc::Global;
use std::thread::Threads;

/// The points of the net of a graph with its repetition vector. Each kind of graphs has a net of its own.
pub(crate) fn points_of_graph<R: Threads + Sync, G: Gate + Sync, L: Ledger + Send>(
    parallel: &Parallel<'_, R, G>,
    alloc: Global,
    graph: &GraphFile,
    gamma: &[u64],
    wanted: &WantedPoints,
    steps: &mut Steps<L>,
) -> Result<Answer, Stop>
    requires rules { KeepsRules graph.now }
    requires timed { IsTimed graph.now }
    requires round { IsRound graph.now gamma.now }
    requires limits { AreLimits wanted.now.limits }
    ensures goes { (faults : ℕ) →
        Goes (points_of graph.now (net_of graph.now gamma.now wanted.now.no_overlap) wanted.now) result (steps.new.count - steps.old.count) faults faults }
    ensures entered { IfOk result (λ _. IsSearched (net_of graph.now gamma.now wanted.now.no_overlap) wanted.now (G.entered parallel.now.gate.now) (steps.new.count - steps.old.count)) }
    ensures rises { steps.old.count ≤ steps.new.count }
    ensures share { steps.new.share ≡ steps.old.share }
{
    match graph.kind {
        Kind::Sdf => {
            let net = SdfNet::new(alloc, graph, gamma, wanted.no_overlap)?;
            points_of(parallel, alloc, &net, graph, wanted, steps)
        }
        Kind::Csdf => {
            let net = CsdfNet::new(alloc, graph, gamma, wanted.no_overlap)?;
            points_of(parallel, alloc, &net, graph, wanted, steps)
        }
    }
}

/// The Pareto points of the storage distributions of a net within a limit, each with the schedule that reaches it.
/// `graph` has the names of its actors and channels.
pub(crate) fn points_of<R: Threads + Sync, F: Firing + Sync, G: Gate + Sync, L: Ledger + Send>(
    parallel: &Parallel<'_, R, G>,
    alloc: Global,
    net: &F,
    graph: &GraphFile,
    wanted: &WantedPoints,
    steps: &mut Steps<L>,
) -> Result<Answer, Stop>
    requires named { IsNamed graph.now (F.net net.now) }
    requires plain { IsPlain (F.net net.now) }
    requires connected { IsConnected (F.net net.now) }
    requires unordered { HasNoOrders (F.net net.now) }
    requires few { 2 * length (F.net net.now).channels ≤ NET_CHANNELS }
    requires limits { AreLimits wanted.now.limits }
    ensures goes { (faults : ℕ) → Goes (points_of graph.now (F.net net.now) wanted.now) result (steps.new.count - steps.old.count) faults faults }
    ensures entered { IfOk result (λ _. IsSearched (F.net net.now) wanted.now (G.entered parallel.now.gate.now) (steps.new.count - steps.old.count)) }
    ensures rises { steps.old.count ≤ steps.new.count }
    ensures share { steps.new.share ≡ steps.old.share }
{
    test_incident(alloc, net, graph)?;
    let wiring = Wiring::new(alloc, net)?;
    let wired = Wired {
        net,
        wiring: &wiring,
    };
    complete(alloc, &wired, graph)?;
    match &wanted.certificate {
        None => without_certificate(parallel, alloc, net, graph, wanted, steps),
        Some(name) => with_certificate(parallel, alloc, net, graph, wanted, name, steps),
    }
}

// The points of a net, where no certificate of them is asked for.
fn without_certificate<R: Threads + Sync, F: Firing + Sync, G: Gate + Sync, L: Ledger + Send>(
    parallel: &Parallel<'_, R, G>,
    alloc: Global,
    net: &F,
    graph: &GraphFile,
    wanted: &WantedPoints,
    steps: &mut Steps<L>,
) -> Result<Answer, Stop>
    requires named { IsNamed graph.now (F.net net.now) }
    requires explorable { IsExplorable (F.net net.now) }
    requires limits { AreLimits wanted.now.limits }
    requires asked { wanted.now.certificate ≡ None }
    ensures goes { (faults : ℕ) → Goes (ends_by (points_search graph.now (F.net net.now) wanted.now)) result (steps.new.count - steps.old.count) faults faults }
    ensures entered { IfOk result (λ _. IsSearched (F.net net.now) wanted.now (G.entered parallel.now.gate.now) (steps.new.count - steps.old.count)) }
    ensures rises { steps.old.count ≤ steps.new.count }
    ensures share { steps.new.share ≡ steps.old.share }
{
    let points = points_within(parallel, alloc, net, graph, wanted.limits, steps)?;
    let shown = shown_points(parallel.rt, alloc, net, graph, points.as_slice())?;
    Ok(Answer {
        text: shown.text,
        put: None,
    })
}

// The points of a net, with their certificate, which lists all members of an exploration.
fn with_certificate<R: Threads + Sync, F: Firing + Sync, G: Gate + Sync, L: Ledger + Send>(
    parallel: &Parallel<'_, R, G>,
    alloc: Global,
    net: &F,
    graph: &GraphFile,
    wanted: &WantedPoints,
    name: &Text,
    steps: &mut Steps<L>,
) -> Result<Answer, Stop>
    requires named { IsNamed graph.now (F.net net.now) }
    requires explorable { IsExplorable (F.net net.now) }
    requires unordered { HasNoOrders (F.net net.now) }
    requires limits { AreLimits wanted.now.limits }
    requires asked { wanted.now.certificate ≡ Some name.now }
    ensures goes { (faults : ℕ) → Goes (ends_by (points_search graph.now (F.net net.now) wanted.now)) result (steps.new.count - steps.old.count) faults faults }
    ensures entered { IfOk result (λ _. IsSearched (F.net net.now) wanted.now (G.entered parallel.now.gate.now) (steps.new.count - steps.old.count)) }
    ensures rises { steps.old.count ≤ steps.new.count }
    ensures share { steps.new.share ≡ steps.old.share }
{
    know_laws(net);
    let exploration = explored(parallel, alloc, net, graph, wanted.limits, steps)?;
    let shown = shown_points(
        parallel.rt,
        alloc,
        net,
        graph,
        exploration.points.as_slice(),
    )?;
    let put = put_as(alloc, net, wanted, name, exploration, shown.schedules)?;
    Ok(Answer {
        text: shown.text,
        put: Some(put),
    })
}

// The file of the certificate of an exploration with the schedules of its points.
fn put_as<F: Firing>(
    alloc: Global,
    net: &F,
    wanted: &WantedPoints,
    name: &Text,
    exploration: Exploration,
    schedules: Vec<Periodic>,
) -> Result<Put, Stop>
    requires explorable { IsExplorable (F.net net.now) }
    requires unordered { HasNoOrders (F.net net.now) }
    requires total { wanted.now.limits.total ≤ STORAGE }
    requires explored { IsExploration (F.net net.now) wanted.now.limits exploration.members.items exploration.points.items }
    requires many { length schedules.items ≡ length exploration.points.items }
    requires reached { AllZip (IsPointSchedule (F.net net.now)) exploration.points.items schedules.items }
    requires starts { All (λ (s : APeriodic). All AreStarts s.starts) schedules.items }
    ensures { let shows : ACertificate → Type 0 = IsOfPoints (F.net net.now) wanted.now exploration.points.items schedules.items (cycles_in exploration.members.items) in
        Does (deciding (λ put. Certifies (Some name.now) shows (Some put)) (IsTooLong (Some name.now) shows)) result }
{
    let made = storage_certificate(
        alloc,
        net,
        wanted.no_overlap,
        wanted.limits,
        exploration,
        schedules,
    )?;
    certify(alloc, FileKind::Certificate, name.as_str(), &made)
}
