//! How distributions are evaluated side by side.
ghost use Rattle.std.specs.Prelude.{◌≡◌, ◌+◌, ◌≤◌, [], All, IfOk, OnErr, map, reverse, vec_capacity, vec_len};
ghost use Rattle.sd_base.specs.declared.limits.TheConstants.{LEAST_STATES, STATES};
ghost use Rattle.fanout.specs.JobRuns.{EachEntered};
ghost use Rattle.evaluations.specs.Evaluating.{IsEvaluation, IsVisitable, least_loops, most_loops, sum_of};
ghost use Rattle.evaluations.specs.inside.Tasks.{IsDone, IsFresh};

use crate::exploring::Exploring;
use crate::rated::Rated;
use crate::task::Task;
use fanout::{Gate, all};
use firing::Firing;
use lasso::RunError;
use sd_base::{Fraction, Ledger, NoMemory, Steps};
use std::thread::Threads;
use storage::Distribution;

/// A distribution that is to be evaluated, with counts by actor that its bounded net reaches.
#[derive(Drop)]
pub struct Visit<'a> {
    pub capacities: Distribution,
    pub counts: &'a [u64],
}

/// A distribution, and what is kept of its evaluation.
#[derive(Drop)]
pub struct Answered {
    pub capacities: Distribution,
    pub answer: Result<Rated, RunError>,
}

/// Evaluates distributions side by side, and answers in their order. The gate is entered with the level's number and with the
/// place of each. Loops of a rate above the best one are kept. A step is counted for each loop that is run. Cost: that of
/// `Trial::evaluate` for each.
pub fn evaluate_all<'a, R: Threads + Sync, F: Firing + Sync, G: Gate + Sync, L: Ledger + Send>(
    rt: &R,
    exploring: &Exploring<'a, F>,
    level: u64,
    best: Fraction,
    visits: Vec<Visit<'a>>,
    gate: &G,
    steps: &mut Steps<L>,
) -> Result<Vec<Answered>, NoMemory>
    requires fits { All (λ v. IsVisitable (F.net exploring.now.net.now) v.capacities v.counts.now) visits.items }
    requires some { LEAST_STATES ≤ exploring.now.limits.states }
    requires few { exploring.now.limits.states ≤ STATES }
    ensures answers { IfOk result (λ v. All (λ a. IsEvaluation (F.net exploring.now.net.now) exploring.now.limits.states best a.capacities a.answer) v.items) }
    ensures order { IfOk result (λ v. map (λ a. a.capacities) v.items ≡ map (λ x. x.capacities) visits.entry.items) }
    ensures entered { IfOk result (λ v. EachEntered (G.entered gate.now level) v.items) }
    ensures least { IfOk result (λ v. steps.old.count + sum_of least_loops v.items ≤ steps.new.count) }
    ensures most { IfOk result (λ v. steps.new.count ≤ steps.old.count + sum_of most_loops v.items) }
    ensures err { OnErr result (steps.new ≡ steps.old) }
    ensures share { steps.new.share ≡ steps.old.share }
{
    let mut answers = Vec::with_capacity(exploring.alloc, visits.len())?;
    let mut tasks = Vec::with_capacity(exploring.alloc, visits.len())?;
    fill(exploring, best, visits, steps, &mut tasks);
    all(rt, level, tasks.as_mut_slice(), gate);
    tasks.reverse();
    drain(
        exploring.net,
        exploring.limits.states,
        best,
        tasks,
        steps,
        &mut answers,
    );
    Ok(answers)
}

/// Makes a task of each visit.
fn fill<'a, F: Firing, L: Ledger>(
    exploring: &Exploring<'a, F>,
    best: Fraction,
    visits: Vec<Visit<'a>>,
    steps: &mut Steps<L>,
    tasks: &mut Vec<Task<'a, F, L>>,
)
    requires fits { All (λ v. IsVisitable (F.net exploring.now.net.now) v.capacities v.counts.now) visits.items }
    requires empty { tasks.old.items ≡ [] }
    requires room { vec_len visits ≤ vec_capacity tasks.old }
    ensures fresh { All (λ t. IsFresh (F.net exploring.now.net.now) (F.net t.net.now) t.wiring.now exploring.now.limits.states best t.capacities t.counts.now t.states t.best t.steps) tasks.new.items }
    ensures order { map (λ t. t.capacities) tasks.new.items ≡ map (λ v. v.capacities) visits.entry.items }
    ensures many { vec_len tasks.new ≡ vec_len visits.entry }
    ensures counter { steps.new ≡ steps.old }
{
    for visit in visits {
        let Visit { capacities, counts } = visit;
        tasks.push_reserved(Task {
            alloc: exploring.alloc,
            net: exploring.net,
            wiring: exploring.wiring,
            capacities,
            counts,
            states: exploring.limits.states,
            best,
            steps: steps.share(),
            answer: None,
        });
    }
}

/// Takes the tasks apart, the last one first, and gives the counter its shares back.
fn drain<F: Firing, L: Ledger>(
    net: &F,
    states: u64,
    best: Fraction,
    tasks: Vec<Task<'_, F, L>>,
    steps: &mut Steps<L>,
    answers: &mut Vec<Answered>,
)
    requires done { All (λ t. IsDone (F.net net.now) states best t.capacities t.steps t.answer) tasks.items }
    requires empty { answers.old.items ≡ [] }
    requires room { vec_len tasks ≤ vec_capacity answers.old }
    ensures answers { All (λ a. IsEvaluation (F.net net.now) states best a.capacities a.answer) answers.new.items }
    ensures order { map (λ a. a.capacities) answers.new.items ≡ reverse (map (λ t. t.capacities) tasks.entry.items) }
    ensures least { steps.old.count + sum_of least_loops answers.new.items ≤ steps.new.count }
    ensures most { steps.new.count ≤ steps.old.count + sum_of most_loops answers.new.items }
    ensures share { steps.new.share ≡ steps.old.share }
{
    let mut tasks = tasks;
    for _task in 0..tasks.len() {
        let Task {
            alloc: _,
            net: _,
            wiring: _,
            capacities,
            counts: _,
            states: _,
            best: _,
            steps: share,
            answer,
        } = tasks.take_last();
        steps.absorb(share);
        match answer {
            Some(answer) => answers.push_reserved(Answered { capacities, answer }),
            None => unreachable!(),
        }
    }
    tasks.destroy_empty();
}
