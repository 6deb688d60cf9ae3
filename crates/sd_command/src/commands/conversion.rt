ghost use Rattle.std.specs.Prelude.{◌≡◌, ℕ};
ghost use Rattle.cert_text.specs.Orderly.{IsOrderly};
ghost use Rattle.cert_text.specs.Spellable.{IsSpellable};
ghost use Rattle.sd_command.specs.commands.Conversions.{convert, converted, kind_of};
ghost use Rattle.sd_command.specs.inside.Goings.{AnswersFrom, Goes};

use cert_text::Certificate;
use report::{CertificateKind, converted_text};
use sd_io::Shelf;
use sd_steps::certifying::certify;
use sd_steps::opening::open_certificate;
use sd_steps::{Answer, FileKind, Stop};
use std::alloc::Global;

/// A certificate of either version in the version that is written, put under another name. It isn't asked to be valid.
pub(crate) fn answer<S: Shelf>(
    alloc: Global,
    shelf: &mut S,
    certificate: &str,
    output: &str,
) -> Result<Answer, Stop>
    ensures answers { AnswersFrom (convert certificate.now output.now) (S.files shelf.old) (S.files shelf.new) (S.faults shelf.old) (S.faults shelf.new) result 0 }
{
    let read = open_certificate(alloc, shelf, certificate)?;
    converted(alloc, output, &read.1)
}

// The certificate under the name of the output.
fn converted(alloc: Global, output: &str, certificate: &Certificate) -> Result<Answer, Stop>
    requires spellable { IsSpellable certificate.now }
    requires orderly { IsOrderly certificate.now }
    ensures { (faults : ℕ) → Goes (converted output.now certificate.now) result 0 faults faults }
{
    let put = certify(alloc, FileKind::Output, output, certificate)?;
    Ok(Answer {
        text: converted_text(alloc, kind_of(certificate))?,
        put: Some(put),
    })
}

// What a certificate shows.
fn kind_of(certificate: &Certificate) -> CertificateKind
    ensures { result ≡ kind_of certificate.now }
{
    match certificate {
        Certificate::Rate(_) => CertificateKind::Throughput,
        Certificate::Storage(_) => CertificateKind::Storage,
        Certificate::Scenario(_) => CertificateKind::Scenario,
    }
}
