ghost use Rattle.std.specs.Prelude.{◌≡◌};
ghost use Rattle.levels.specs.declared.error.LevelsError.TheVariants.{NoMemory};

use std::alloc::{AllocError, AllocFailed};
use thiserror::Error;

/// Why a search isn't gone on with.
#[derive(Debug, Drop, Error)]
pub enum LevelsError {
    #[error("more distributions than are allowed")]
    Spent,
    #[error("out of memory")]
    NoMemory,
}

impl From<AllocError> for LevelsError {
    ghost from_gives = { λ _ e. e ≡ NoMemory };

    fn from(_error: AllocError) -> LevelsError {
        LevelsError::NoMemory
    }
}

impl<T: Drop> From<AllocFailed<T>> for LevelsError {
    ghost from_gives = { λ _ e. e ≡ NoMemory };

    fn from(_error: AllocFailed<T>) -> LevelsError {
        LevelsError::NoMemory
    }
}

impl From<sd_base::NoMemory> for LevelsError {
    ghost from_gives = { λ _ e. e ≡ NoMemory };

    fn from(_error: sd_base::NoMemory) -> LevelsError {
        LevelsError::NoMemory
    }
}
