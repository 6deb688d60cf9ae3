//! How the distributions of a level are rated.
ghost use Rattle.std.specs.Prelude.{◌≡◌, ◌≤◌, [], All, IfOk, map, reverse, vec_capacity, vec_len};
ghost use Rattle.fanout.specs.JobRuns.{EachEntered};
ghost use Rattle.scenario_storage.specs.inside.Levels.{IsBlocked, IsRatingAnswer, IsAnswered, IsFresh, IsPlan, IsWithin};

use crate::blocked::Blocked;
use crate::plan::Plan;
use crate::rated::{RateError, Rated};
use crate::task::Task;
use fanout::{Gate, all};
use levels::{Found, Level};
use sd_base::{Fraction, NoMemory};
use std::thread::Threads;
use storage::Distribution;

/// A distribution, and what is kept of its evaluation.
#[derive(Drop)]
pub(crate) struct Answered {
    pub(crate) capacities: Distribution,
    pub(crate) answer: Result<Rated, RateError>,
}

/// Rates the distributions of a level side by side, given blocked ones and the best rate of less storage, and answers in their
/// order.
pub(crate) fn run_level<R: Threads + Sync, G: Gate + Sync>(
    rt: &R,
    plan: &Plan,
    blocked: &[Blocked],
    best: Fraction,
    level: Level<()>,
    gate: &G,
) -> Result<Vec<Answered>, NoMemory>
    requires plan { IsPlan plan.now.file.now plan.now.gammas.now plan.now.limits }
    requires blocked { All (IsBlocked plan.now.file.now plan.now.limits.total) blocked.now }
    requires fits { All (λ f. IsWithin plan.now.file.now plan.now.limits.total f.capacities.capacities) level.visits.items }
    ensures answers { IfOk result (λ v. All (λ a. IsRatingAnswer plan.now.file.now plan.now.limits best a.capacities.capacities a.answer) v.items) }
    ensures order { IfOk result (λ v. map (λ a. a.capacities) v.items ≡ map (λ f. f.capacities) level.visits.items) }
    ensures entered { IfOk result (λ v. EachEntered (G.entered gate.now level.total) v.items) }
{
    let Level { total, visits } = level;
    let mut answers = Vec::with_capacity(plan.alloc, visits.len())?;
    let mut tasks = Vec::with_capacity(plan.alloc, visits.len())?;
    fill(plan, blocked, best, visits, &mut tasks);
    all(rt, total, tasks.as_mut_slice(), gate);
    tasks.reverse();
    drain(plan, best, tasks, &mut answers);
    Ok(answers)
}

/// Makes a task of each distribution.
fn fill<'a>(
    plan: &Plan<'a>,
    blocked: &'a [Blocked],
    best: Fraction,
    visits: Vec<Found<()>>,
    tasks: &mut Vec<Task<'a>>,
)
    requires blocked { All (IsBlocked plan.now.file.now plan.now.limits.total) blocked.now }
    requires fits { All (λ f. IsWithin plan.now.file.now plan.now.limits.total f.capacities.capacities) visits.items }
    requires empty { tasks.old.items ≡ [] }
    requires room { vec_len visits ≤ vec_capacity tasks.old }
    ensures fresh { All (λ t. IsFresh plan.now.file.now plan.now.gammas.now plan.now.limits best t.file.now t.gammas.now t.limits t.blocked.now t.best t.capacities) tasks.new.items }
    ensures order { map (λ t. t.capacities) tasks.new.items ≡ map (λ f. f.capacities) visits.items }
    ensures many { vec_len tasks.new ≡ vec_len visits }
{
    for found in visits {
        tasks.push_reserved(Task {
            alloc: plan.alloc,
            file: plan.file,
            gammas: plan.gammas,
            limits: plan.limits,
            blocked,
            capacities: found.into_capacities(),
            best,
            answer: None,
        });
    }
}

/// Takes the tasks apart, the last one first.
fn drain(plan: &Plan, best: Fraction, tasks: Vec<Task<'_>>, answers: &mut Vec<Answered>)
    requires done { All (λ t. IsAnswered plan.now.file.now plan.now.limits best t.capacities.capacities t.answer) tasks.items }
    requires empty { answers.old.items ≡ [] }
    requires room { vec_len tasks ≤ vec_capacity answers.old }
    ensures answers { All (λ a. IsRatingAnswer plan.now.file.now plan.now.limits best a.capacities.capacities a.answer) answers.new.items }
    ensures order { map (λ a. a.capacities) answers.new.items ≡ reverse (map (λ t. t.capacities) tasks.entry.items) }
{
    let mut tasks = tasks;
    for _task in 0..tasks.len() {
        let Task {
            alloc: _,
            file: _,
            gammas: _,
            limits: _,
            blocked: _,
            capacities,
            best: _,
            answer,
        } = tasks.take_last();
        match answer {
            Some(answer) => answers.push_reserved(Answered { capacities, answer }),
            None => unreachable!(),
        }
    }
    tasks.destroy_empty();
}
