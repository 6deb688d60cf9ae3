ghost use Rattle.std.specs.Prelude.{ℕ};
ghost use Rattle.cert_checker.specs.Certificates.{HasFewLines, IsOfGraph};
ghost use Rattle.cert_text.specs.Orderly.{IsOrderly};
ghost use Rattle.cert_text.specs.Spellable.{IsSpellable};
ghost use Rattle.sd_command.specs.commands.Checks.{check, checked, graph_checked, scenario_checked};
ghost use Rattle.sd_command.specs.inside.Goings.{AnswersFrom, Goes};

use cert_checker::check_scenario;
use cert_text::{Certificate, ScenarioCertificate};
use sd_io::Shelf;
use sd_steps::balancing::balanced;
use sd_steps::judging::judged;
use sd_steps::opening::open_certificate;
use sd_steps::reading::read;
use sd_steps::scenario_steps::{read_file, timed};
use sd_steps::taking::take;
use sd_steps::{Answer, FileKind, Stop};
use std::alloc::Global;

/// Whether a certificate is valid for a graph file, or for a file of scenarios. Nothing is executed.
pub(crate) fn answer<S: Shelf>(
    alloc: Global,
    shelf: &mut S,
    graph: &str,
    certificate: &str,
) -> Result<Answer, Stop>
    ensures answers { AnswersFrom (check graph.now certificate.now) (S.files shelf.old) (S.files shelf.new) (S.faults shelf.old) (S.faults shelf.new) result 0 }
{
    let bytes = take(alloc, shelf, FileKind::Graph, graph)?;
    let read = open_certificate(alloc, shelf, certificate)?;
    checked(alloc, bytes.as_slice(), read.0, &read.1)
}

// The verdict on a certificate that was read, over the file of these bytes.
fn checked(
    alloc: Global,
    bytes: &[u8],
    version: u32,
    certificate: &Certificate,
) -> Result<Answer, Stop>
    requires spellable { IsSpellable certificate.now }
    requires orderly { IsOrderly certificate.now }
    requires lines { HasFewLines version certificate.now }
    ensures { (faults : ℕ) → Goes (checked version certificate.now bytes.now) result 0 faults faults }
{
    match certificate {
        Certificate::Rate(_) | Certificate::Storage(_) => {
            graph_checked(alloc, bytes, version, certificate)
        }
        Certificate::Scenario(scenario) => scenario_checked(alloc, bytes, version, scenario),
    }
}

// The verdict on the certificate of a rate or of a trade-off.
fn graph_checked(
    alloc: Global,
    bytes: &[u8],
    version: u32,
    certificate: &Certificate,
) -> Result<Answer, Stop>
    requires kind { IsOfGraph certificate.now }
    requires spellable { IsSpellable certificate.now }
    requires orderly { IsOrderly certificate.now }
    requires lines { HasFewLines version certificate.now }
    ensures { (faults : ℕ) → Goes (graph_checked version certificate.now bytes.now) result 0 faults faults }
{
    let graph = read(alloc, bytes, true)?;
    let gamma = balanced(alloc, &graph)?;
    let verdict = cert_checker::check(alloc, &graph, gamma.as_slice(), certificate, version)?;
    judged(alloc, verdict)
}

// The verdict on the certificate of a worst rate.
fn scenario_checked(
    alloc: Global,
    bytes: &[u8],
    version: u32,
    certificate: &ScenarioCertificate,
) -> Result<Answer, Stop>
    ensures { (faults : ℕ) → Goes (scenario_checked version certificate.now bytes.now) result 0 faults faults }
{
    let file = read_file(alloc, bytes)?;
    let graph = timed(alloc, &file)?;
    let verdict = check_scenario(alloc, &graph, certificate, version)?;
    judged(alloc, verdict)
}
