//! What is kept of the evaluation of a distribution until its level is taken in.
ghost use Rattle.std.specs.Prelude.{◌≡◌, ◌*◌, ◌≤◌, MatchOption};
ghost use Rattle.scenario_storage.specs.declared.rated.RateError.TheVariants.{NoMemory as no_memory};

use crate::rising::is_slower;
use automaton::TimedGraph;
use scenario_rate::Worst;
use sd_base::{Fraction, NoMemory, Rows, SharedRow};
use std::alloc::{AllocError, AllocFailed};
use thiserror::Error;

/// The worst rate of a distribution, the shared channels on which more room could raise it, whether it was evaluated and is
/// blocked, and what shows the rate, where that is above the best one of less storage; else it is no point's.
#[derive(Drop)]
pub(crate) struct Rated {
    pub(crate) rate: Fraction,
    pub(crate) enlarge: Rows<u32>,
    pub(crate) blocks: bool,
    pub(crate) witness: Option<Witness>,
}

/// What shows the worst rate of a distribution: the shared rows and the timed graph of the bounded file, and the answer
/// on that graph.
#[derive(Drop)]
pub(crate) struct Witness {
    pub(crate) shared: Rows<SharedRow>,
    pub(crate) graph: TimedGraph,
    pub(crate) worst: Worst,
}

/// Why a distribution has no rate here.
#[derive(Clone, Copy, Debug, PartialEq, Eq, Error)]
pub(crate) enum RateError {
    /// Its timed graph has more edges than are allowed.
    #[error("the edges pass their limit")]
    Edges,
    #[error("out of memory")]
    NoMemory,
}

impl From<NoMemory> for RateError {
    ghost from_gives = { λ _ e. e ≡ no_memory };

    fn from(_error: NoMemory) -> RateError {
        RateError::NoMemory
    }
}

impl From<AllocError> for RateError {
    ghost from_gives = { λ _ e. e ≡ no_memory };

    fn from(_error: AllocError) -> RateError {
        RateError::NoMemory
    }
}

impl<T: Drop> From<AllocFailed<T>> for RateError {
    ghost from_gives = { λ _ e. e ≡ no_memory };

    fn from(_error: AllocFailed<T>) -> RateError {
        RateError::NoMemory
    }
}

/// What shows a rate, if that is above another.
pub(crate) fn if_above(witness: Witness, rate: Fraction, best: Fraction) -> Option<Witness>
    ensures { MatchOption result (rate.num * best.den ≤ best.num * rate.den) (λ e. e ≡ witness) }
{
    if is_slower(best, rate) {
        Some(witness)
    } else {
        None
    }
}
