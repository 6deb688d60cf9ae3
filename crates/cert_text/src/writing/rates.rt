ghost use Rattle.std.specs.Prelude.{◌≡◌, ◌++◌, IfErr, OnOk};
ghost use Rattle.cert_text.specs.Limits.{IsRateCertificateWithin};
ghost use Rattle.std.specs.String.{string_bytes};
ghost use Rattle.cert_text.specs.Overlong.{GivesUp};
ghost use Rattle.cert_text.specs.Spelling.{rate_lines};

use crate::certificates::RateCertificate;
use crate::error::CertError;
use crate::writing::buffers::put_buffers;
use crate::writing::cycles::put_cycle;
use crate::writing::numbers::{put_overlap, put_rate};
use crate::writing::schedules::put_schedule;

/// Puts the lines of a certificate of a rate, but for the first one.
#[tactic(auto, unfolding(crate::specs::Spelling::rate_lines, crate::specs::Spelling::rate_kind, crate::specs::Spelling::end_line))]
pub(crate) fn put_rate_certificate(
    text: &mut String,
    certificate: &RateCertificate,
) -> Result<(), CertError>
    ensures text { OnOk result (string_bytes text.new ≡ string_bytes text.old ++ rate_lines certificate.now) }
    ensures long { IfErr result (GivesUp (string_bytes text.old) (rate_lines certificate.now)) }
    ensures within { OnOk result (IsRateCertificateWithin certificate.now) }
{
    text.push_str("throughput\n")?;
    put_overlap(text, certificate.no_overlap)?;
    put_buffers(text, certificate.buffers.as_slice())?;
    put_rate(text, certificate.rate)?;
    put_schedule(text, &certificate.schedule)?;
    put_cycle(text, &certificate.cycle)?;
    Ok(text.push_str("end\n")?)
}
