ghost use Rattle.std.specs.Prelude.{ℕ, ◌^◌, ◌<◌, ◌≤◌, All, length};
ghost use Rattle.sd_base.specs.Scenarios.{FileKeepsRules};
ghost use Rattle.automaton.specs.TimedGraphs.{IsTimedGraph};
ghost use Rattle.automaton.specs.SoundGraphs.{IsSound};
ghost use Rattle.automaton.specs.CriticalCycles.{weights};
ghost use Rattle.cert_text.specs.declared.certificates.Certificate.{Certificate as ACertificate};
ghost use Rattle.sd_steps.specs.Certifyings.{Certifies, IsTooLong};
ghost use Rattle.sd_steps.specs.Courses.{deciding, ends_by};
ghost use Rattle.sd_command.specs.commands.WorstRates.{scenario, telling_worst, worst_of};
ghost use Rattle.sd_steps.specs.Steps.{Does};
ghost use Rattle.sd_command.specs.inside.Goings.{AnswersFrom, Goes};
ghost use Rattle.sd_command.specs.inside.MadeCertificates.{IsMadeOfWorst};

use automaton::TimedGraph;
use cert_maker::worst_certificate;
use report::worst_text;
use scenario_rate::{Worst, files_grow, worst};
use sd_base::{ScenarioFile, Text};
use sd_io::Shelf;
use sd_steps::certifying::certify;
use sd_steps::opening::open_scenarios;
use sd_steps::scenario_steps::timed;
use sd_steps::{Answer, FileKind, Put, Stop};
use std::alloc::Global;

/// The worst rate of a file of scenarios over all paths of its automaton, with what shows it.
pub(crate) fn answer<S: Shelf>(
    alloc: Global,
    shelf: &mut S,
    name: &str,
    certificate: &Option<Text>,
) -> Result<Answer, Stop>
    ensures answers { AnswersFrom (scenario name.now certificate.now) (S.files shelf.old) (S.files shelf.new) (S.faults shelf.old) (S.faults shelf.new) result 0 }
{
    let file = open_scenarios(alloc, shelf, name)?;
    worst_of(alloc, &file, certificate)
}

// The worst rate of a file.
fn worst_of(alloc: Global, file: &ScenarioFile, certificate: &Option<Text>) -> Result<Answer, Stop>
    requires { FileKeepsRules file.now }
    ensures { (faults : ℕ) → Goes (worst_of certificate.now file.now) result 0 faults faults }
{
    let graph = timed(alloc, file)?;
    tell(alloc, file, &graph, certificate)
}

// The answer by the timed graph of a file.
fn tell(
    alloc: Global,
    file: &ScenarioFile,
    graph: &TimedGraph,
    certificate: &Option<Text>,
) -> Result<Answer, Stop>
    requires timed { IsTimedGraph file.now graph.now }
    requires sound { IsSound graph.now }
    ensures { (faults : ℕ) → Goes (ends_by (telling_worst file.now certificate.now graph.now)) result 0 faults faults }
{
    files_grow();
    let worst = worst(alloc, graph)?;
    let text = worst_text(alloc, file, graph, &worst)?;
    let put = put_for(alloc, graph, certificate, &worst)?;
    Ok(Answer { text, put })
}

// The file of the certificate of a worst rate, where one is asked for.
fn put_for(
    alloc: Global,
    graph: &TimedGraph,
    certificate: &Option<Text>,
    worst: &Worst,
) -> Result<Option<Put>, Stop>
    requires tokens { 1 ≤ graph.now.tokens }
    requires some { 1 ≤ length worst.now.cycle }
    requires cycle { All (λ k. k < length graph.now.edges) worst.now.cycle }
    requires small { weights graph.now.edges worst.now.cycle < 2 ^ 64 }
    requires nodes { length worst.now.potentials < 2 ^ 32 }
    ensures { let shows : ACertificate → Type 0 = IsMadeOfWorst graph.now worst.now in
        Does (deciding (Certifies certificate.now shows) (IsTooLong certificate.now shows)) result }
{
    match certificate {
        None => Ok(None),
        Some(name) => {
            let made = worst_certificate(alloc, graph, worst)?;
            Ok(Some(certify(alloc, FileKind::Certificate, name.as_str(), &made)?))
        }
    }
}
