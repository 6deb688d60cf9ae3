//! Certificates from texts.

mod buffers;
mod collected;
mod cycles;
mod digits;
mod fault;
mod found;
mod line;
mod lines;
mod members;
mod numbers;
mod points;
mod rates;
mod scenarios;
mod schedules;
mod trade_offs;

ghost use Rattle.std.specs.Prelude.{◌≡◌, ◌≢◌, ◌⊎◌, ◌++◌, IfOk, IfErr, length};
ghost use Rattle.cert_text.specs.declared.error.CertError.TheVariants.{TooLong};
ghost use Rattle.cert_text.specs.LineForms.{version_due};
ghost use Rattle.cert_text.specs.NumberLines.{version_line};
ghost use Rattle.cert_text.specs.Reading.{IsRead, IsReadAfter, IsReading, certificate_from, error_of, text_from};
ghost use Rattle.cert_text.specs.Reads.{Gives, lines_of, next_by};

use crate::certificates::Certificate;
use crate::error::CertError;
use fault::Fault;
use line::Line;
use lines::Lines;
use rates::rate_certificate;
use scenarios::scenario_certificate;
use std::alloc::Global;
use trade_offs::storage_certificate;

/// The version and the certificate that a text spells. Cost: linear in the text.
pub fn read_certificate(alloc: Global, bytes: &[u8]) -> Result<(u32, Certificate), CertError>
    ensures version { IfOk result (λ r. (r.0 ≡ 1) ⊎ (r.0 ≡ 2)) }
    // What is read has the text as its spelling.
    ensures text { IfOk result (λ r. IsRead bytes.now r.0 r.1) }
    ensures error { IfErr result (λ e. e ≢ TooLong) }
    // It is what is due to the text, unless memory runs out: so is the first faulty line, and what is wrong with it.
    ensures exact { IsReading bytes.now result }
{
    let mut lines = Lines { rest: bytes };
    match certificate(alloc, &mut lines) {
        Ok(read) => Ok(read),
        Err(fault) => Err(error_at(fault, bytes, lines.rest)),
    }
}

#[tactic(auto, unfolding(crate::specs::Reading::text_from))]
fn certificate(alloc: Global, lines: &mut Lines) -> Result<(u32, Certificate), Fault>
    ensures version { IfOk result (λ r. (r.0 ≡ 1) ⊎ (r.0 ≡ 2)) }
    ensures text { IfOk result (λ r. IsRead lines.old.rest.now r.0 r.1) }
    ensures exact { Gives result lines.new.rest.now (text_from (lines_of lines.old.rest.now)) }
{
    let version = version(lines)?;
    let certificate = certificate_after(alloc, lines, version)?;
    Ok((version, certificate))
}

/// Reads the first line.
fn version(lines: &mut Lines) -> Result<u32, Fault>
    ensures text { IfOk result (λ v. lines.old.rest.now ≡ version_line v ++ lines.new.rest.now) }
    ensures version { IfOk result (λ v. (v ≡ 1) ⊎ (v ≡ 2)) }
    ensures exact { Gives result lines.new.rest.now (next_by version_due (lines_of lines.old.rest.now)) }
{
    let line = lines.next()?;
    version_of(line)
}

fn version_of(line: Line) -> Result<u32, Fault>
    ensures text { IfOk result (λ v. line.entry.rest.now ≡ version_line v) }
    ensures version { IfOk result (λ v. (v ≡ 1) ⊎ (v ≡ 2)) }
    ensures exact { result ≡ version_due line.entry.rest.now }
{
    if line.is(b"sdf3-certificate 1\n") {
        return Ok(1);
    }
    if line.is(b"sdf3-certificate 2\n") {
        return Ok(2);
    }
    Err(Fault::Form)
}

/// Reads the lines after the first one.
#[tactic(auto, unfolding(crate::specs::Spelling::lines_after, crate::specs::Spelling::rate_kind, crate::specs::Spelling::storage_kind, crate::specs::Spelling::scenario_kind, crate::specs::Reading::certificate_from))]
fn certificate_after(alloc: Global, lines: &mut Lines, version: u32) -> Result<Certificate, Fault>
    requires { (version ≡ 1) ⊎ (version ≡ 2) }
    ensures text { IfOk result (λ c. IsReadAfter lines.old.rest.now version c) }
    ensures exact { Gives result lines.new.rest.now (certificate_from version (lines_of lines.old.rest.now)) }
{
    let line = lines.next()?;
    if line.is(b"throughput\n") {
        return Ok(Certificate::Rate(rate_certificate(alloc, lines)?));
    }
    if line.is(b"storage\n") {
        return Ok(Certificate::Storage(storage_certificate(alloc, lines, version)?));
    }
    if line.is(b"scenario\n") {
        return Ok(Certificate::Scenario(scenario_certificate(alloc, lines)?));
    }
    Err(Fault::Form)
}

/// The error of a fault in a line of a text behind which the rest is left.
fn error_at(fault: Fault, bytes: &[u8], rest: &[u8]) -> CertError
    ensures long { result ≢ TooLong }
    ensures exact { result ≡ error_of (length (lines_of bytes.now)) fault (length (lines_of rest.now)) }
{
    let line = lines_in(bytes).saturating_sub(lines_in(rest));
    match fault {
        Fault::Form => CertError::Syntax { line },
        Fault::Large => CertError::Number { line },
        Fault::Memory => CertError::NoMemory,
    }
}

/// How many lines a text has; a last one without a line feed is one too.
fn lines_in(text: &[u8]) -> u64
    ensures { result ≡ length (lines_of text.now) }
{
    let mut lines = Lines { rest: text };
    let mut count = 0;
    while let Ok(_line) = lines.next() {
        count += 1;
    }
    count
}
