//! Certificates as texts.

mod buffers;
mod cycles;
mod limit;
mod members;
mod numbers;
mod points;
mod rates;
mod scenarios;
mod schedules;
mod trade_offs;

ghost use Rattle.std.specs.Prelude.{◌≡◌, ◌⊎◌, ◌<◌, ◌≤◌, [], ◌++◌, IfOk, IfErr, OnOk, length};
ghost use Rattle.std.specs.String.{string_bytes};
ghost use Rattle.sd_base.specs.declared.limits.TheConstants.{CERTIFICATE_BYTES};
ghost use Rattle.cert_text.specs.declared.error.CertError.TheVariants.{TooLong, NoMemory};
ghost use Rattle.cert_text.specs.Limits.{IsWithinLimits};
ghost use Rattle.cert_text.specs.Orderly.{IsOrderly};
ghost use Rattle.cert_text.specs.Overlong.{GivesUp};
ghost use Rattle.cert_text.specs.Reading.{IsCertText};
ghost use Rattle.cert_text.specs.Spellable.{IsSpellable};
ghost use Rattle.cert_text.specs.Spelling.{lines_after, spelling};

use crate::certificates::Certificate;
use crate::error::CertError;
use limit::keep_below;
use numbers::put_version;
use rates::put_rate_certificate;
use scenarios::put_scenario_certificate;
use sd_base::Rows;
use sd_base::limits::CERTIFICATE_BYTES;
use std::alloc::Global;
use trade_offs::put_storage_certificate;

/// The text of a certificate in version 1, which lists the cycle of each member, or 2, which lists each cycle once. Cost: linear
/// in the text, of which no more is made than its limit and a line.
pub fn write_certificate(
    alloc: Global,
    certificate: &Certificate,
    version: u32,
) -> Result<Rows<u8>, CertError>
    requires version { (version ≡ 1) ⊎ (version ≡ 2) }
    requires spellable { IsSpellable certificate.now }
    requires orderly { IsOrderly certificate.now }
    ensures text { IfOk result (λ t. t ≡ spelling version certificate.now) }
    // It is read again, and as this certificate alone.
    ensures read { IfOk result (λ t. IsCertText t version certificate.now) }
    ensures limits { OnOk result (IsWithinLimits certificate.now) }
    ensures short { OnOk result (length (spelling version certificate.now) ≤ CERTIFICATE_BYTES) }
    ensures long { IfErr result (λ e. (e ≡ NoMemory) ⊎ ((e ≡ TooLong) × (CERTIFICATE_BYTES < length (spelling version certificate.now)))) }
{
    write_within(alloc, certificate, version, CERTIFICATE_BYTES)
}

/// The same, of which no more than so many bytes are allowed. Cost: as of `write_certificate`, whatever the limit.
pub fn write_within(
    alloc: Global,
    certificate: &Certificate,
    version: u32,
    most: u64,
) -> Result<Rows<u8>, CertError>
    requires version { (version ≡ 1) ⊎ (version ≡ 2) }
    requires spellable { IsSpellable certificate.now }
    requires orderly { IsOrderly certificate.now }
    requires most { most ≤ CERTIFICATE_BYTES }
    ensures text { IfOk result (λ t. t ≡ spelling version certificate.now) }
    ensures read { IfOk result (λ t. IsCertText t version certificate.now) }
    ensures limits { OnOk result (IsWithinLimits certificate.now) }
    ensures short { OnOk result (length (spelling version certificate.now) ≤ most) }
    ensures long { IfErr result (λ e. (e ≡ NoMemory) ⊎ ((e ≡ TooLong) × (most < length (spelling version certificate.now)))) }
{
    let text = text_of(alloc, certificate, version)?;
    keep_below(&text, most)?;
    Ok(bytes_of(text))
}

#[tactic(auto, unfolding(crate::specs::Spelling::spelling))]
fn text_of(alloc: Global, certificate: &Certificate, version: u32) -> Result<String, CertError>
    requires { IsOrderly certificate.now }
    ensures text { IfOk result (λ t. string_bytes t ≡ spelling version certificate.now) }
    ensures long { IfErr result (GivesUp [] (spelling version certificate.now)) }
    ensures within { OnOk result ((version ≡ 1) ⊎ (version ≡ 2) → IsWithinLimits certificate.now) }
{
    let mut text = String::new(alloc);
    put_version(&mut text, version)?;
    put_lines(&mut text, certificate, version)?;
    Ok(text)
}

#[tactic(auto, unfolding(crate::specs::Spelling::lines_after))]
fn put_lines(text: &mut String, certificate: &Certificate, version: u32) -> Result<(), CertError>
    requires { IsOrderly certificate.now }
    ensures text { OnOk result (string_bytes text.new ≡ string_bytes text.old ++ lines_after version certificate.now) }
    ensures long { IfErr result (GivesUp (string_bytes text.old) (lines_after version certificate.now)) }
    ensures within { OnOk result ((version ≡ 1) ⊎ (version ≡ 2) → IsWithinLimits certificate.now) }
{
    match certificate {
        Certificate::Rate(rate) => put_rate_certificate(text, rate),
        Certificate::Storage(storage) => put_storage_certificate(text, storage, version),
        Certificate::Scenario(scenario) => put_scenario_certificate(text, scenario),
    }
}

/// The bytes of a finished text, without memory.
fn bytes_of(text: String) -> Rows<u8>
    ensures { result ≡ string_bytes text }
{
    Rows::from_vec(text.into_bytes())
}
