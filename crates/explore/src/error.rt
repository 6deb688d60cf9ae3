ghost use Rattle.std.specs.Prelude.{◌≡◌};
ghost use Rattle.explore.specs.declared.error.ExploreError.TheVariants.{NoMemory};
ghost use Rattle.explore.specs.inside.Errors.{error_of};

use levels::LevelsError;
use sd_base::limits::STARTS;
use std::alloc::{AllocError, AllocFailed};
use storage::Distribution;
use thiserror::Error;

/// Why an exploration wasn't ended.
#[derive(Debug, Drop, Error)]
pub enum ExploreError {
    /// The shapes that were allowed for one execution are all different in that of a distribution, the first of its level
    /// with such a cause.
    #[error("no shape comes twice")]
    StatesSpent { at: Distribution },
    /// More than `STARTS` firings would start in the execution of a distribution, the first of its level with such a
    /// cause.
    #[error("more than {} starts", STARTS)]
    TooManyStarts { at: Distribution },
    #[error("more distributions than are allowed")]
    DistributionsSpent,
    #[error("out of memory")]
    NoMemory,
}

impl From<AllocError> for ExploreError {
    ghost from_gives = { λ _ e. e ≡ NoMemory };

    fn from(_error: AllocError) -> ExploreError {
        ExploreError::NoMemory
    }
}

impl<T: Drop> From<AllocFailed<T>> for ExploreError {
    ghost from_gives = { λ _ e. e ≡ NoMemory };

    fn from(_error: AllocFailed<T>) -> ExploreError {
        ExploreError::NoMemory
    }
}

impl From<sd_base::NoMemory> for ExploreError {
    ghost from_gives = { λ _ e. e ≡ NoMemory };

    fn from(_error: sd_base::NoMemory) -> ExploreError {
        ExploreError::NoMemory
    }
}

impl From<LevelsError> for ExploreError {
    ghost from_gives = { λ x e. e ≡ error_of x };

    fn from(error: LevelsError) -> ExploreError {
        match error {
            LevelsError::Spent => ExploreError::DistributionsSpent,
            LevelsError::NoMemory => ExploreError::NoMemory,
        }
    }
}
