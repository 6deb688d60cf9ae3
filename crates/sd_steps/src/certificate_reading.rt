ghost use Rattle.std.specs.Prelude.{◌≡◌, ◌≢◌, ◌≤◌, IfOk, length};
ghost use Rattle.sd_base.specs.declared.limits.TheConstants.{CERTIFICATE_BYTES};
ghost use Rattle.cert_text.specs.declared.error.CertError.TheVariants as errors;
ghost use Rattle.cert_checker.specs.Certificates.{HasFewLines};
ghost use Rattle.cert_text.specs.Orderly.{IsOrderly};
ghost use Rattle.cert_text.specs.Spellable.{IsSpellable};
ghost use Rattle.sd_steps.specs.CertificateReadings.{certificate_refusal, reading_certificate};
ghost use Rattle.sd_steps.specs.Steps.{Does};

use crate::stop::Stop;
use cert_checker::spelled_lines_fit;
use cert_text::{CertError, Certificate, read_certificate};
use report::Refusal;
use sd_base::NoMemory;
use std::alloc::Global;

/// Reads a certificate, with its version.
pub(crate) fn read_text(alloc: Global, bytes: &[u8]) -> Result<(u32, Certificate), Stop>
    requires { length bytes.now ≤ CERTIFICATE_BYTES }
    ensures does { Does (reading_certificate bytes.now) result }
    ensures spellable { IfOk result (λ r. IsSpellable r.1) }
    ensures orderly { IfOk result (λ r. IsOrderly r.1) }
    ensures lines { IfOk result (λ r. HasFewLines r.0 r.1) }
{
    spelled_lines_fit();
    match read_certificate(alloc, bytes) {
        Ok(read) => Ok(read),
        Err(error) => Err(Stop::Refused(refusal_of(error)?)),
    }
}

// The refusal of a certificate's first fault. Want of memory has none.
fn refusal_of(error: CertError) -> Result<Refusal, NoMemory>
    requires { error ≢ errors.TooLong }
    ensures { IfOk result (λ refusal. (refusal ≡ certificate_refusal error) × (error ≢ errors.NoMemory)) }
{
    match error {
        CertError::Syntax { line } => Ok(Refusal::CertificateLine { line }),
        CertError::Number { .. } => Ok(Refusal::CertificateNumber),
        CertError::TooLong => unreachable!(),
        CertError::NoMemory => Err(NoMemory),
    }
}
