//! The worst rate of a distribution.
ghost use Rattle.std.specs.Prelude.{◌≡◌, ◌<◌, ℕ, All, Err, IfErr, IfOk, List, Option, length};
ghost use Rattle.sd_base.specs.declared.numbers.Fraction.{Fraction as AFraction};
ghost use Rattle.sd_base.specs.declared.tables.ScenarioFile.{ScenarioFile as AFile};
ghost use Rattle.bounded_scenarios.specs.BoundedFiles.{bounded_file};
ghost use Rattle.scenario_storage.specs.inside.Blocked.{HoldsBack};
ghost use Rattle.scenario_storage.specs.inside.Levels.{IsBlocked, IsRatingAnswer, IsPlan, IsRateRefusal, IsWithin};
ghost use Rattle.scenario_storage.specs.inside.Ratings.{AreKeptMatrices, IsBlockedAt, IsGraphOf, IsMatrixAnswer, IsMeasured, RunBefore};

use crate::blocked::{Blocked, held_by};
use crate::plan::Plan;
use crate::rated::{RateError, Rated, Witness, if_above};
use crate::scenario::{gamma_at, graph_at};
use crate::shown::{shown_by_counts, shown_by_cycle};
use automaton::{GraphError, TimedGraph, needed, product};
use bounded_scenarios::bounded_file;
use scenario_rate::{files_are_sound, files_grow, worst};
use sd_base::{Fraction, NoMemory, Rows, ScenarioFile};
use storage::Distribution;
use token_matrix::{Matrix, MatrixError, matrix_of};

/// What the scenarios of a bounded file come to.
#[derive(Drop)]
pub(crate) enum Measured {
    /// The first scenario that can't complete its round, with its ending counts.
    Blocked { scenario: usize, counts: Rows<u64> },
    /// The matrices of the scenarios, of which those that the timed graph doesn't need aren't kept.
    Live { matrices: Vec<Matrix> },
}

/// The worst rate of a distribution, given the best rate of less storage and blocked distributions, one of which may hold it
/// back; else it is evaluated. Cost: that of `held_by`, and of the evaluation.
pub(crate) fn rate(
    plan: &Plan,
    blocked: &[Blocked],
    capacities: &Distribution,
    best: Fraction,
) -> Result<Rated, RateError>
    requires plan { IsPlan plan.now.file.now plan.now.gammas.now plan.now.limits }
    requires blocked { All (IsBlocked plan.now.file.now plan.now.limits.total) blocked.now }
    requires fits { IsWithin plan.now.file.now plan.now.limits.total capacities.now.capacities }
    ensures { IsRatingAnswer plan.now.file.now plan.now.limits best capacities.now.capacities result }
{
    match held_by(blocked, capacities) {
        Some(one) => rate_held(plan, capacities, one),
        None => evaluate(plan, capacities, best),
    }
}

/// The rate 0 of a distribution that a blocked one holds back: it is blocked at the same counts, and shows the same channels.
fn rate_held(plan: &Plan, capacities: &Distribution, by: &Blocked) -> Result<Rated, RateError>
    requires plan { IsPlan plan.now.file.now plan.now.gammas.now plan.now.limits }
    requires fits { IsWithin plan.now.file.now plan.now.limits.total capacities.now.capacities }
    requires blocked { IsBlocked plan.now.file.now plan.now.limits.total by.now }
    requires held { HoldsBack by.now.capacities.capacities by.now.enlarge capacities.now.capacities }
    ensures { (best : AFraction) → IsRatingAnswer plan.now.file.now plan.now.limits best capacities.now.capacities result }
{
    let enlarge = Vec::from_slice(plan.alloc, by.enlarge.as_slice())?;
    Ok(Rated {
        rate: Fraction::new(0, 1),
        enlarge: Rows::from_vec(enlarge),
        blocks: false,
        witness: None,
    })
}

/// The worst rate of a distribution from its bounded file, given the best rate of less storage. Cost: that of `matrix_of` for
/// each scenario, of `product`, of `worst`, and of one way for each edge of the critical cycle.
fn evaluate(plan: &Plan, capacities: &Distribution, best: Fraction) -> Result<Rated, RateError>
    requires plan { IsPlan plan.now.file.now plan.now.gammas.now plan.now.limits }
    requires fits { IsWithin plan.now.file.now plan.now.limits.total capacities.now.capacities }
    ensures { IsRatingAnswer plan.now.file.now plan.now.limits best capacities.now.capacities result }
{
    let bounded = bounded_file(plan.alloc, plan.file, capacities)?;
    match measure(plan, capacities, &bounded)? {
        Measured::Blocked { scenario, counts } => {
            rate_blocked(plan, capacities, &bounded, scenario, counts.as_slice())
        },
        Measured::Live { matrices } => {
            rate_live(plan, capacities, best, bounded, matrices.as_slice())
        },
    }
}

/// The matrices of the scenarios, or the first that is blocked.
fn measure(
    plan: &Plan,
    capacities: &Distribution,
    bounded: &ScenarioFile,
) -> Result<Measured, NoMemory>
    requires plan { IsPlan plan.now.file.now plan.now.gammas.now plan.now.limits }
    requires fits { IsWithin plan.now.file.now plan.now.limits.total capacities.now.capacities }
    requires bounded { bounded.now ≡ bounded_file plan.now.file.now capacities.now.capacities }
    ensures { IfOk result (IsMeasured plan.now.file.now plan.now.gammas.now capacities.now.capacities) }
{
    let mut matrices = Vec::with_capacity(plan.alloc, bounded.scenarios.len())?;
    for scenario in 0..bounded.scenarios.len() {
        match matrix_at(plan, capacities, bounded, scenario) {
            Ok(matrix) => matrices.push(needed(plan.alloc, bounded, scenario, matrix))?,
            Err(error) => return stopped_by(scenario, error),
        }
    }
    Ok(Measured::Live { matrices })
}

/// What a scenario without a matrix comes to: it is blocked, or memory lacks.
fn stopped_by(scenario: usize, error: MatrixError) -> Result<Measured, NoMemory>
    requires { (file : AFile) × (gammas : List (List ℕ)) × (ds : List (Option ℕ)) × IsMatrixAnswer file gammas ds scenario (Err error) }
    ensures { (file : AFile) (gammas : List (List ℕ)) (ds : List (Option ℕ)) → IsMatrixAnswer file gammas ds scenario (Err error) → RunBefore file ds scenario → IfOk result (IsMeasured file gammas ds) }
{
    match error {
        MatrixError::Blocked { counts, lacks: _ } => Ok(Measured::Blocked { scenario, counts }),
        MatrixError::NoMemory => Err(NoMemory),
        MatrixError::Limit => unreachable!(),
    }
}

/// The matrix of a scenario of a bounded file; its limit isn't passed.
fn matrix_at(
    plan: &Plan,
    capacities: &Distribution,
    bounded: &ScenarioFile,
    scenario: usize,
) -> Result<Matrix, MatrixError>
    requires plan { IsPlan plan.now.file.now plan.now.gammas.now plan.now.limits }
    requires fits { IsWithin plan.now.file.now plan.now.limits.total capacities.now.capacities }
    requires bounded { bounded.now ≡ bounded_file plan.now.file.now capacities.now.capacities }
    requires scenario { scenario < length plan.now.file.now.scenarios }
    ensures { IsMatrixAnswer plan.now.file.now plan.now.gammas.now capacities.now.capacities scenario result }
{
    let graph = graph_at(bounded, scenario);
    let gamma = gamma_at(plan.gammas, scenario);
    matrix_of(plan.alloc, graph, gamma, bounded.shared.as_slice())
}

/// The rate 0 of a distribution of which a scenario can't complete its round.
fn rate_blocked(
    plan: &Plan,
    capacities: &Distribution,
    bounded: &ScenarioFile,
    scenario: usize,
    counts: &[u64],
) -> Result<Rated, RateError>
    requires plan { IsPlan plan.now.file.now plan.now.gammas.now plan.now.limits }
    requires fits { IsWithin plan.now.file.now plan.now.limits.total capacities.now.capacities }
    requires bounded { bounded.now ≡ bounded_file plan.now.file.now capacities.now.capacities }
    requires blocked { IsBlockedAt plan.now.file.now plan.now.gammas.now capacities.now.capacities scenario counts.now }
    ensures { (best : AFraction) → IsRatingAnswer plan.now.file.now plan.now.limits best capacities.now.capacities result }
{
    let enlarge = shown_by_counts(plan, capacities, bounded, scenario, counts)?;
    Ok(Rated {
        rate: Fraction::new(0, 1),
        enlarge,
        blocks: true,
        witness: None,
    })
}

/// The rate of a distribution of which each scenario can complete its round.
fn rate_live(
    plan: &Plan,
    capacities: &Distribution,
    best: Fraction,
    bounded: ScenarioFile,
    matrices: &[Matrix],
) -> Result<Rated, RateError>
    requires plan { IsPlan plan.now.file.now plan.now.gammas.now plan.now.limits }
    requires fits { IsWithin plan.now.file.now plan.now.limits.total capacities.now.capacities }
    requires bounded { bounded ≡ bounded_file plan.now.file.now capacities.now.capacities }
    requires live { AreKeptMatrices plan.now.file.now capacities.now.capacities matrices.now }
    ensures { IsRatingAnswer plan.now.file.now plan.now.limits best capacities.now.capacities result }
{
    let graph = timed_graph(plan, capacities, &bounded, matrices)?;
    files_grow();
    files_are_sound();
    let worst = worst(plan.alloc, &graph)?;
    let enlarge = shown_by_cycle(plan, capacities, &bounded, &graph, worst.cycle.as_slice())?;
    let rate = worst.rate;
    let ScenarioFile {
        scenarios: _,
        shared,
        states: _,
        initial: _,
    } = bounded;
    let witness = Witness {
        shared,
        graph,
        worst,
    };
    Ok(Rated {
        rate,
        enlarge,
        blocks: false,
        witness: if_above(witness, rate, best),
    })
}

/// The timed graph of a bounded file.
fn timed_graph(
    plan: &Plan,
    capacities: &Distribution,
    bounded: &ScenarioFile,
    matrices: &[Matrix],
) -> Result<TimedGraph, RateError>
    requires plan { IsPlan plan.now.file.now plan.now.gammas.now plan.now.limits }
    requires fits { IsWithin plan.now.file.now plan.now.limits.total capacities.now.capacities }
    requires bounded { bounded.now ≡ bounded_file plan.now.file.now capacities.now.capacities }
    requires live { AreKeptMatrices plan.now.file.now capacities.now.capacities matrices.now }
    ensures graph { IfOk result (IsGraphOf plan.now.file.now capacities.now.capacities) }
    ensures refused { IfErr result (IsRateRefusal plan.now.file.now capacities.now.capacities) }
{
    match product(plan.alloc, bounded, matrices) {
        Ok(graph) => Ok(graph),
        Err(GraphError::Limit) => Err(RateError::Edges),
        Err(GraphError::NoMemory) => Err(RateError::NoMemory),
    }
}
