ghost use Rattle.std.specs.Prelude.{◌≡◌};
ghost use Rattle.file_text.specs.declared.error.TextError.TheVariants.{NoMemory};

use std::alloc::{AllocError, AllocFailed};
use thiserror::Error;

/// A construct of the wider text format that graph files don't use here.
#[derive(Clone, Copy, Debug, PartialEq, Eq)]
pub enum Construct {
    /// `<!DOCTYPE`; its place is the `<`.
    Doctype,
    /// `<![CDATA[`; its place is the `<`.
    Cdata,
    /// `<?`, but for the declaration at the very start; its place is the `<`.
    Instruction,
    /// `&#`; its place is the `&`.
    Reference,
    /// A declared encoding other than UTF-8; its place is where the value begins, which of an empty
    /// one is where its quote closes.
    Encoding,
}

/// Why a text has no tree. Places are counted in bytes, from 0.
#[derive(Clone, Copy, Debug, Error)]
pub enum TextError {
    /// The first byte with which the text leaves the grammar, or the length of a text that ends too early.
    #[error("syntax fault at byte {place}")]
    Syntax { place: u64 },
    #[error("unsupported construct at byte {place}")]
    Unsupported { place: u64, what: Construct },
    /// The `<` of an element inside as many others as may be open.
    #[error("too many open elements at byte {place}")]
    TooDeep { place: u64 },
    #[error("out of memory")]
    NoMemory,
}

impl From<AllocError> for TextError {
    ghost from_gives = { λ _ error. error ≡ NoMemory };

    fn from(_error: AllocError) -> TextError {
        TextError::NoMemory
    }
}

impl<T: Drop> From<AllocFailed<T>> for TextError {
    ghost from_gives = { λ _ error. error ≡ NoMemory };

    fn from(_error: AllocFailed<T>) -> TextError {
        TextError::NoMemory
    }
}
