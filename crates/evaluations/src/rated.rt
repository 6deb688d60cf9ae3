//! What is kept of an evaluation.
ghost use Rattle.std.specs.Prelude.{◌≡◌, ◌*◌, ◌≤◌, MatchOption};
ghost use Rattle.evaluations.specs.Rated.{IsRated, IsRatedAnswer};

use crate::shown::Shown;
use firing::LoopTable;
use guide::{Evaluation, Outcome};
use lasso::RunError;
use sd_base::{Fraction, Rows};

/// The rate of a distribution in rounds per time unit, the channels on which more room could raise it, ascending, what shows
/// both, and the loop of its net where the rate is above the best one so far; else it is no point's.
#[derive(Drop)]
pub struct Rated {
    pub rate: Fraction,
    pub enlarge: Rows<u32>,
    pub shown: Shown,
    pub table: Option<LoopTable>,
}

/// What is kept of an answer, given the best rate so far.
pub(crate) fn keep(answer: Result<Evaluation, RunError>, best: Fraction) -> Result<Rated, RunError>
    ensures { IsRatedAnswer best answer result }
{
    match answer {
        Ok(evaluation) => Ok(kept(evaluation, best)),
        Err(error) => Err(error),
    }
}

/// What is kept of an evaluation.
fn kept(evaluation: Evaluation, best: Fraction) -> Rated
    ensures { IsRated best evaluation result }
{
    let Evaluation {
        rate,
        enlarge,
        outcome,
    } = evaluation;
    match outcome {
        Outcome::Live { table, cycle } => Rated {
            rate,
            enlarge,
            shown: Shown::Cycle(cycle),
            table: if_above(table, rate, best),
        },
        Outcome::Blocked { counts, lacks: _ } => Rated {
            rate,
            enlarge,
            shown: Shown::Blocked { counts },
            table: None,
        },
    }
}

/// The loop, if its rate is above another.
fn if_above(table: LoopTable, rate: Fraction, best: Fraction) -> Option<LoopTable>
    ensures { MatchOption result (rate.num * best.den ≤ best.num * rate.den) (λ t. t ≡ table) }
{
    let own = u128::from(rate.num) * u128::from(best.den);
    if own > u128::from(best.num) * u128::from(rate.den) {
        Some(table)
    } else {
        None
    }
}
