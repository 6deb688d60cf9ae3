ghost use Rattle.std.specs.Prelude.{◌≡◌};
ghost use Rattle.scenario_storage.specs.declared.error.ScenarioStorageError.TheVariants.{NoMemory};
ghost use Rattle.scenario_storage.specs.inside.Errors.{error_of};

use levels::LevelsError;
use std::alloc::{AllocError, AllocFailed};
use storage::Distribution;
use thiserror::Error;

/// Why the points of scenarios weren't found.
#[derive(Debug, Drop, Error)]
pub enum ScenarioStorageError {
    /// The timed graph of a distribution, the first of its level with such a cause, has more edges than are allowed.
    #[error("the edges of a distribution pass their limit")]
    Edges { at: Distribution },
    #[error("more distributions than are allowed")]
    DistributionsSpent,
    #[error("out of memory")]
    NoMemory,
}

impl From<AllocError> for ScenarioStorageError {
    ghost from_gives = { λ _ e. e ≡ NoMemory };

    fn from(_error: AllocError) -> ScenarioStorageError {
        ScenarioStorageError::NoMemory
    }
}

impl<T: Drop> From<AllocFailed<T>> for ScenarioStorageError {
    ghost from_gives = { λ _ e. e ≡ NoMemory };

    fn from(_error: AllocFailed<T>) -> ScenarioStorageError {
        ScenarioStorageError::NoMemory
    }
}

impl From<sd_base::NoMemory> for ScenarioStorageError {
    ghost from_gives = { λ _ e. e ≡ NoMemory };

    fn from(_error: sd_base::NoMemory) -> ScenarioStorageError {
        ScenarioStorageError::NoMemory
    }
}

impl From<LevelsError> for ScenarioStorageError {
    ghost from_gives = { λ x e. e ≡ error_of x };

    fn from(error: LevelsError) -> ScenarioStorageError {
        match error {
            LevelsError::Spent => ScenarioStorageError::DistributionsSpent,
            LevelsError::NoMemory => ScenarioStorageError::NoMemory,
        }
    }
}
