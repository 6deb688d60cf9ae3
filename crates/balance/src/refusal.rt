ghost use Rattle.std.specs.Prelude.{◌≡◌};
ghost use Rattle.balance.specs.declared.refusal.BalanceError.TheVariants.{NoMemory};

use crate::walk::WalkStep;
use sd_base::Rows;
use std::alloc::{AllocError, AllocFailed};
use thiserror::Error;

/// Why a graph has no repetition vector within the limits. They are tested in this order.
#[derive(Debug, Drop, Error)]
pub enum BalanceError {
    /// No walk leads from actor `a`, which is actor 0, to actor `b`, the least such one.
    #[error("actors {a} and {b} are apart")]
    Apart {
        a: u32,
        b: u32,
    },
    /// The ratio along the way to some actor, in lowest terms, has a part above its limit. Of several ways the
    /// shortest is told, and of equally short ones that with the least list of channels.
    #[error("a ratio passes its limit")]
    RatioTooLarge {
        path: Rows<WalkStep>,
    },
    /// A closed walk whose ratio isn't 1 but num/den, in lowest terms.
    #[error("a closed walk has the ratio {num}/{den}")]
    Unbalanced {
        walk: Rows<WalkStep>,
        num: u128,
        den: u128,
    },
    /// The repetition vector sums to more than its limit.
    #[error("a round passes its limit")]
    RoundTooLarge,
    #[error("out of memory")]
    NoMemory,
}

impl From<AllocError> for BalanceError {
    ghost from_gives = { λ _ e. e ≡ NoMemory };

    fn from(_error: AllocError) -> BalanceError {
        BalanceError::NoMemory
    }
}

impl<T: Drop> From<AllocFailed<T>> for BalanceError {
    ghost from_gives = { λ _ e. e ≡ NoMemory };

    fn from(_error: AllocFailed<T>) -> BalanceError {
        BalanceError::NoMemory
    }
}
