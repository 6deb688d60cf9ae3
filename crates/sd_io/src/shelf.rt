ghost use Rattle.std.specs.Prelude.{◌≡◌, ℕ, ◌⊎◌, ◌<◌, ◌≤◌, ◌^◌, List, length, None, Some, Result, Ok, Err, IfOk, OnOk, IsOk, IsErrOf, IsSome, IsSomeAnd};
ghost use Rattle.sd_io.specs.Outside.{Files, file_under, OthersStay, Rose};

use sd_base::Rows;
use std::alloc::{AllocError, AllocFailed, Global};
use thiserror::Error;

/// Why a file wasn't taken.
#[derive(Clone, Copy, Debug, PartialEq, Eq, Error)]
pub enum TakeError {
    /// There is no such file, or reading it failed.
    #[error("the file can't be read")]
    Failed,
    /// The file has more bytes than the limit.
    #[error("the file is too long")]
    TooLong,
    /// There was no memory for its bytes.
    #[error("out of memory")]
    NoMemory,
}

impl From<AllocError> for TakeError {
    ghost use Rattle.sd_io.specs.declared.shelf.TakeError.TheVariants.{NoMemory};

    ghost from_gives = { λ _ e. e ≡ NoMemory };

    fn from(_error: AllocError) -> TakeError {
        TakeError::NoMemory
    }
}

impl<T: Drop> From<AllocFailed<T>> for TakeError {
    ghost use Rattle.sd_io.specs.declared.shelf.TakeError.TheVariants.{NoMemory};

    ghost from_gives = { λ _ e. e ≡ NoMemory };

    fn from(_error: AllocFailed<T>) -> TakeError {
        TakeError::NoMemory
    }
}

/// Why a file wasn't put.
#[derive(Clone, Copy, Debug, PartialEq, Eq, Error)]
pub enum PutError {
    /// Writing it failed.
    #[error("the file can't be written")]
    Failed,
    /// There was no memory for it.
    #[error("out of memory")]
    NoMemory,
}

impl From<AllocError> for PutError {
    ghost use Rattle.sd_io.specs.declared.shelf.PutError.TheVariants.{NoMemory};

    ghost from_gives = { λ _ e. e ≡ NoMemory };

    fn from(_error: AllocError) -> PutError {
        PutError::NoMemory
    }
}

/// Files by name.
pub trait Shelf {
    /// What it tells of its files: nothing, or the bytes of the file of each name.
    ghost files: { Self → Files };

    /// How many faults it counted; a count that stands at its end stays there.
    ghost faults: { Self → ℕ };

    /// Reads the file `name` whole, if it has at most `limit` bytes. No other answer than a failure counts a fault.
    fn take(&mut self, alloc: Global, name: &str, limit: usize) -> Result<Rows<u8>, TakeError>
        ensures ok { IfOk result (λ b. (IsSome (files self.old) → file_under (files self.old) name.now ≡ Some b) × (length b ≤ limit)) }
        ensures failed { IsErrOf result TakeError.Failed →
            Rose (faults self.old) (faults self.new)
            ⊎ (IsSome (files self.old) × (file_under (files self.old) name.now ≡ None) × (faults self.new ≡ faults self.old)) }
        ensures missing { IsSome (files self.old) → file_under (files self.old) name.now ≡ None →
            IsErrOf result TakeError.Failed ⊎ IsErrOf result TakeError.NoMemory }
        ensures too_long { IsErrOf result TakeError.TooLong → IsSome (files self.old) →
            IsSomeAnd (file_under (files self.old) name.now) (λ b. limit < length b) }
        ensures only_too_long { (b : List ℕ) → IsSome (files self.old) → file_under (files self.old) name.now ≡ Some b → limit < length b →
            Rose (faults self.old) (faults self.new) ⊎ (IsErrOf result TakeError.TooLong ⊎ IsErrOf result TakeError.NoMemory) }
        ensures whole { (b : List ℕ) → IsSome (files self.old) → file_under (files self.old) name.now ≡ Some b → length b ≤ limit →
            Rose (faults self.old) (faults self.new) ⊎ (IsOk result ⊎ IsErrOf result TakeError.NoMemory) }
        ensures stays { files self.new ≡ files self.old }
        ensures quiet { IsErrOf result TakeError.Failed ⊎ (faults self.new ≡ faults self.old) }
        ensures grows { faults self.old ≤ faults self.new };

    /// Makes `bytes` the file `name`, whether there was one or not. Where it fails, nothing is said of that file.
    fn put(&mut self, alloc: Global, name: &str, bytes: &[u8]) -> Result<(), PutError>
        ensures ok { OnOk result (IsSome (files self.old) → file_under (files self.new) name.now ≡ Some bytes.now) }
        ensures others { OthersStay name.now (files self.old) (files self.new) }
        ensures failed { IsErrOf result PutError.Failed → Rose (faults self.old) (faults self.new) }
        ensures lack { IsErrOf result PutError.NoMemory → files self.new ≡ files self.old }
        ensures quiet { IsErrOf result PutError.Failed ⊎ (faults self.new ≡ faults self.old) }
        ensures grows { faults self.old ≤ faults self.new };

    ghost counted: { (s : Self) → faults s < 2 ^ 64 };
}

/// The law of a shelf's count, for callers under a bound.
pub fn know_shelf<S: Shelf>(shelf: &S)
    ensures { S.faults shelf.now < 2 ^ 64 }
{}
