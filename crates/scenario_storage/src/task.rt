ghost use Rattle.scenario_storage.specs.inside.Levels.{HasRun, IsReady};

use crate::blocked::Blocked;
use crate::plan::Plan;
use crate::point::ScenarioLimits;
use crate::rated::{RateError, Rated};
use crate::rating::rate;
use fanout::Job;
use sd_base::{Fraction, Rows, ScenarioFile};
use std::alloc::Global;
use storage::Distribution;

/// The rating of one distribution of a plan's file, with blocked ones that may hold it back, the best rate of less storage, and a
/// place for the answer.
pub(crate) struct Task<'a> {
    pub(crate) alloc: Global,
    pub(crate) file: &'a ScenarioFile,
    pub(crate) gammas: &'a Rows<Rows<u64>>,
    pub(crate) limits: ScenarioLimits,
    pub(crate) blocked: &'a [Blocked],
    pub(crate) capacities: Distribution,
    pub(crate) best: Fraction,
    pub(crate) answer: Option<Result<Rated, RateError>>,
}

impl<'a> Job for Task<'a> {
    ghost ready = { λ t. IsReady t.file.now t.gammas.now t.limits t.blocked.now t.capacities };

    ghost ran = { λ old new. HasRun old.file.now old.limits old.best old.capacities new.capacities new.answer };

    fn run(&mut self) {
        let plan = Plan {
            alloc: self.alloc,
            file: self.file,
            gammas: self.gammas,
            limits: self.limits,
        };
        let answer = rate(&plan, self.blocked, &self.capacities, self.best);
        self.answer = Some(answer);
    }
}
