ghost use Rattle.std.specs.Prelude.{◌≡◌, IfOk};
ghost use Rattle.cert_text.specs.Orderly.{IsOrderly};
ghost use Rattle.cert_text.specs.Spellable.{IsSpellable};
ghost use Rattle.sd_steps.specs.Certifyings.{certifying};
ghost use Rattle.sd_steps.specs.Steps.{Does};
ghost use Rattle.sd_steps.specs.inside.Filings.{IsFiled};

use crate::answer::Put;
use crate::file_kind::FileKind;
use crate::reading::above;
use crate::stop::Stop;
use cert_text::{CertError, Certificate, write_certificate};
use report::Refusal;
use sd_base::{NoMemory, Quantity, Rows, Text};
use std::alloc::Global;

/// The version in which certificates are written.
const VERSION: u32 = 2;

fn named(alloc: Global, name: &str) -> Result<Text, NoMemory>
    ensures { IfOk result (λ t. t ≡ name.now) }
{
    Ok(Text::of(alloc, name)?)
}

/// The file of a kind that is a certificate, under a name.
pub fn certify(
    alloc: Global,
    kind: FileKind,
    name: &str,
    certificate: &Certificate,
) -> Result<Put, Stop>
    requires spellable { IsSpellable certificate.now }
    requires orderly { IsOrderly certificate.now }
    ensures { Does (certifying kind name.now certificate.now) result }
{
    let too_long = above(alloc, Quantity::CertificateBytes)?;
    let name = named(alloc, name)?;
    filed(
        kind,
        name,
        write_certificate(alloc, certificate, VERSION),
        too_long,
    )
}

// The file of a text that was written, or this refusal where it is too long. It takes no memory, so that nothing but want of
// memory in the writing is told as that.
fn filed(
    kind: FileKind,
    name: Text,
    written: Result<Rows<u8>, CertError>,
    too_long: Refusal,
) -> Result<Put, Stop>
    ensures { IsFiled kind name written too_long result }
{
    match written {
        Ok(bytes) => Ok(Put { kind, name, bytes }),
        Err(CertError::TooLong) => Err(Stop::Refused(too_long)),
        Err(CertError::Syntax { .. } | CertError::Number { .. } | CertError::NoMemory) => {
            Err(Stop::OutOfMemory)
        }
    }
}
