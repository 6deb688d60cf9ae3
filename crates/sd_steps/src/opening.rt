ghost use Rattle.std.specs.Prelude.{◌≡◌, ◌≤◌, IfOk, IsTrue};
ghost use Rattle.cert_checker.specs.Certificates.{HasFewLines};
ghost use Rattle.cert_text.specs.Orderly.{IsOrderly};
ghost use Rattle.cert_text.specs.Spellable.{IsSpellable};
ghost use Rattle.sd_base.specs.Scenarios.{FileKeepsRules};
ghost use Rattle.sd_base.specs.Tables.{IsTimed, KeepsRules};
ghost use Rattle.scenario_reader.specs.ScenarioNames.{FileHasWritableNames};
ghost use Rattle.sd_steps.specs.CertificateReadings.{opening_certificate};
ghost use Rattle.sd_steps.specs.Readings.{opening_graph};
ghost use Rattle.sd_steps.specs.ScenarioSteps.{opening_scenarios};
ghost use Rattle.sd_steps.specs.Steps.{Takes};

use crate::certificate_reading::read_text;
use crate::file_kind::FileKind;
use crate::reading::read;
use crate::scenario_steps::read_file;
use crate::stop::Stop;
use crate::taking::take;
use cert_text::Certificate;
use sd_base::{GraphFile, ScenarioFile};
use sd_io::Shelf;
use std::alloc::Global;

/// Takes a graph file and reads it.
pub fn open_graph<S: Shelf>(
    alloc: Global,
    shelf: &mut S,
    name: &str,
    times: bool,
) -> Result<GraphFile, Stop>
    ensures takes { Takes (opening_graph (S.files shelf.old) name.now times) result (S.faults shelf.old) (S.faults shelf.new) }
    ensures keeps { IfOk result KeepsRules }
    ensures timed { IfOk result (λ graph. IsTrue times → IsTimed graph) }
    ensures stays { S.files shelf.new ≡ S.files shelf.old }
    ensures grows { S.faults shelf.old ≤ S.faults shelf.new }
{
    let bytes = take(alloc, shelf, FileKind::Graph, name)?;
    read(alloc, bytes.as_slice(), times)
}

/// Takes a file of scenarios and reads it.
pub fn open_scenarios<S: Shelf>(
    alloc: Global,
    shelf: &mut S,
    name: &str,
) -> Result<ScenarioFile, Stop>
    ensures takes { Takes (opening_scenarios (S.files shelf.old) name.now) result (S.faults shelf.old) (S.faults shelf.new) }
    ensures keeps { IfOk result FileKeepsRules }
    ensures names { IfOk result FileHasWritableNames }
    ensures stays { S.files shelf.new ≡ S.files shelf.old }
    ensures grows { S.faults shelf.old ≤ S.faults shelf.new }
{
    let bytes = take(alloc, shelf, FileKind::Graph, name)?;
    read_file(alloc, bytes.as_slice())
}

/// Takes a certificate and reads it, with its version.
pub fn open_certificate<S: Shelf>(
    alloc: Global,
    shelf: &mut S,
    name: &str,
) -> Result<(u32, Certificate), Stop>
    ensures takes { Takes (opening_certificate (S.files shelf.old) name.now) result (S.faults shelf.old) (S.faults shelf.new) }
    ensures spellable { IfOk result (λ r. IsSpellable r.1) }
    ensures orderly { IfOk result (λ r. IsOrderly r.1) }
    ensures lines { IfOk result (λ r. HasFewLines r.0 r.1) }
    ensures stays { S.files shelf.new ≡ S.files shelf.old }
    ensures grows { S.faults shelf.old ≤ S.faults shelf.new }
{
    let bytes = take(alloc, shelf, FileKind::Certificate, name)?;
    read_text(alloc, bytes.as_slice())
}
