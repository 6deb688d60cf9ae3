ghost use Rattle.std.specs.Prelude.{◌≡◌, ◌≤◌, ◌<◌, IfErr, OnOk, length};
ghost use Rattle.std.specs.String.{string_bytes};
ghost use Rattle.sd_base.specs.declared.limits.TheConstants.{CERTIFICATE_BYTES};
ghost use Rattle.cert_text.specs.declared.error.CertError.TheVariants.{TooLong};

use crate::error::CertError;
use sd_base::limits::CERTIFICATE_BYTES;

/// An error where a text is longer already than that of a certificate may be.
pub(crate) fn keep_within(text: &String) -> Result<(), CertError>
    ensures short { OnOk result (length (string_bytes text.now) ≤ CERTIFICATE_BYTES) }
    ensures long { IfErr result (λ e. (e ≡ TooLong) × (CERTIFICATE_BYTES < length (string_bytes text.now))) }
{
    keep_below(text, CERTIFICATE_BYTES)
}

/// An error where a text is longer than so many bytes.
pub(crate) fn keep_below(text: &String, most: u64) -> Result<(), CertError>
    ensures short { OnOk result (length (string_bytes text.now) ≤ most) }
    ensures long { IfErr result (λ e. (e ≡ TooLong) × (most < length (string_bytes text.now))) }
{
    if text.len() as u64 > most {
        return Err(CertError::TooLong);
    }
    Ok(())
}
