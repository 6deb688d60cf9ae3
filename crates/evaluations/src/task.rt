ghost use Rattle.std.specs.Prelude.{◌≡◌, ◌≤◌};
ghost use Rattle.evaluations.specs.inside.Tasks.{HasRun, IsReady};

use crate::rated::{Rated, keep};
use fanout::Job;
use firing::{Firing, Wiring};
use guide::Trial;
use lasso::RunError;
use sd_base::{Fraction, Ledger, Steps};
use std::alloc::Global;
use storage::Distribution;

/// The evaluation of one distribution, with the wiring of its net, counts that are reached there, the best rate so far, its
/// share of the counter, and where to put what is kept of the answer.
pub(crate) struct Task<'a, F: Firing, L: Ledger> {
    pub(crate) alloc: Global,
    pub(crate) net: &'a F,
    pub(crate) wiring: &'a Wiring,
    pub(crate) capacities: Distribution,
    pub(crate) counts: &'a [u64],
    pub(crate) states: u64,
    pub(crate) best: Fraction,
    pub(crate) steps: Steps<L>,
    pub(crate) answer: Option<Result<Rated, RunError>>,
}

impl<'a, F: Firing + Sync, L: Ledger + Send> Job for Task<'a, F, L> {
    ghost ready = { λ t. IsReady (F.net t.net.now) t.wiring.now t.capacities t.counts.now t.states };

    ghost ran = { λ old new. HasRun (F.net old.net.now) old.capacities old.states old.best old.steps new.capacities new.steps new.answer };

    fn run(&mut self) {
        let trial = Trial {
            net: self.net,
            capacities: &self.capacities,
            wiring: self.wiring,
            counts: self.counts,
        };
        let answer = trial.evaluate(self.alloc, self.states, &mut self.steps);
        self.answer = Some(keep(answer, self.best));
    }
}
