ghost use Rattle.std.specs.Prelude.{◌≡◌};
ghost use Rattle.cert_text.specs.declared.error.CertError.TheVariants as errors;

use std::alloc::{AllocError, AllocFailed};
use thiserror::Error;

/// Why a certificate isn't read or written.
#[derive(Clone, Copy, Debug, PartialEq, Eq, Error)]
pub enum CertError {
    /// The first line, from 1, at which a text isn't that of a certificate; where lines are missing, the number of lines.
    #[error("line {line} isn't of its form")]
    Syntax { line: u64 },
    /// The first line, from 1, at which a text isn't that of a certificate, where it has its form and a number above its limit.
    #[error("a number of line {line} passes its limit")]
    Number { line: u64 },
    /// The text would be longer than a certificate may be.
    #[error("the certificate is too long")]
    TooLong,
    #[error("out of memory")]
    NoMemory,
}

impl From<AllocError> for CertError {
    ghost from_gives = { λ _ e. e ≡ errors.NoMemory };

    fn from(_error: AllocError) -> CertError {
        CertError::NoMemory
    }
}

impl<T: Drop> From<AllocFailed<T>> for CertError {
    ghost from_gives = { λ _ e. e ≡ errors.NoMemory };

    fn from(_error: AllocFailed<T>) -> CertError {
        CertError::NoMemory
    }
}
