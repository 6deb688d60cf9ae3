ghost use Rattle.std.specs.Prelude.{◌≡◌};
ghost use Rattle.loops.specs.declared.error.RunError.TheVariants.{NoMemory};

use sd_base::limits::STARTS;
use std::alloc::{AllocError, AllocFailed};
use thiserror::Error;

/// Why self-timed execution wasn't run round its loop.
#[derive(Debug, Drop, Error)]
pub enum RunError {
    /// The shapes that were allowed are all different.
    #[error("no shape comes twice")]
    StatesSpent,
    /// More than `STARTS` firings would start.
    #[error("more than {} starts", STARTS)]
    TooManyStarts,
    #[error("out of memory")]
    NoMemory,
}

impl From<AllocError> for RunError {
    ghost from_gives = { λ _ e. e ≡ NoMemory };

    fn from(_error: AllocError) -> RunError {
        RunError::NoMemory
    }
}

impl<T: Drop> From<AllocFailed<T>> for RunError {
    ghost from_gives = { λ _ e. e ≡ NoMemory };

    fn from(_error: AllocFailed<T>) -> RunError {
        RunError::NoMemory
    }
}

impl From<sd_base::NoMemory> for RunError {
    ghost from_gives = { λ _ e. e ≡ NoMemory };

    fn from(_error: sd_base::NoMemory) -> RunError {
        RunError::NoMemory
    }
}
