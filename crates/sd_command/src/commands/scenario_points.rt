ghost use Rattle.std.specs.Prelude.{◌≡◌, ℕ, ◌≤◌, All, IfOk};
ghost use Rattle.sd_base.specs.declared.limits.TheConstants.{DISTRIBUTIONS, LEAST_DISTRIBUTIONS, STORAGE};
ghost use Rattle.sd_base.specs.Scenarios.{FileKeepsRules};
ghost use Rattle.scenario_reader.specs.ScenarioNames.{FileHasWritableNames};
ghost use Rattle.bounded_scenarios.specs.Boundings.{CanBeBounded};
ghost use Rattle.report.specs.ScenarioPointTexts.{CanBeTold};
ghost use Rattle.scenario_storage.specs.Entrances.{AreEntered};
ghost use Rattle.scenario_storage.specs.ScenarioPoints.{AreScenarioPoints};
ghost use Rattle.sd_steps.specs.Courses.{deciding};
ghost use Rattle.sd_command.specs.commands.ScenarioPoints.{IsSearchEnd, points_in, scenario_storage};
ghost use Rattle.sd_command.specs.Entrances.{points_entered, scenario_storage_entered};
ghost use Rattle.sd_steps.specs.Steps.{Does};
ghost use Rattle.sd_command.specs.inside.Goings.{AnswersFrom, Goes};

use crate::commands::parallel::Parallel;
use bounded_scenarios::looped_tokens;
use fanout::Gate;
use report::{Refusal, scenario_points_text, shared_buffers_text};
use scenario_rate::files_are_sound;
use scenario_storage::{ScenarioLimits, ScenarioPoint, ScenarioStorageError, scenario_points};
use sd_base::{Quantity, ScenarioFile};
use sd_io::Shelf;
use sd_steps::opening::open_scenarios;
use sd_steps::scenario_bounds::{bound_all, fit_nodes};
use sd_steps::{Answer, Stop};
use std::alloc::Global;
use std::thread::Threads;

/// The trade-off between the storage of the channels that scenarios share and the worst rate: its Pareto points within a limit.
pub(crate) fn answer<R: Threads + Sync, S: Shelf, G: Gate + Sync>(
    parallel: &Parallel<'_, R, G>,
    alloc: Global,
    shelf: &mut S,
    name: &str,
    limits: ScenarioLimits,
) -> Result<Answer, Stop>
    requires total { limits.total ≤ STORAGE }
    requires some { LEAST_DISTRIBUTIONS ≤ limits.distributions }
    requires few { limits.distributions ≤ DISTRIBUTIONS }
    ensures answers { AnswersFrom (scenario_storage name.now limits) (S.files shelf.old) (S.files shelf.new) (S.faults shelf.old) (S.faults shelf.new) result 0 }
    ensures entered { IfOk result (λ _. scenario_storage_entered name.now limits (S.files shelf.old) (G.entered parallel.now.gate.now)) }
{
    let file = open_scenarios(alloc, shelf, name)?;
    points_in(parallel, alloc, &file, limits)
}

// The points of a file.
fn points_in<R: Threads + Sync, G: Gate + Sync>(
    parallel: &Parallel<'_, R, G>,
    alloc: Global,
    file: &ScenarioFile,
    limits: ScenarioLimits,
) -> Result<Answer, Stop>
    requires rules { FileKeepsRules file.now }
    requires names { FileHasWritableNames file.now }
    requires total { limits.total ≤ STORAGE }
    requires some { LEAST_DISTRIBUTIONS ≤ limits.distributions }
    requires few { limits.distributions ≤ DISTRIBUTIONS }
    ensures goes { (faults : ℕ) → Goes (points_in limits file.now) result 0 faults faults }
    ensures entered { IfOk result (λ _. points_entered limits file.now (G.entered parallel.now.gate.now)) }
{
    let tokens = limits.total + looped_tokens(file);
    bound_all(alloc, file, tokens)?;
    fit_nodes(alloc, file, tokens)?;
    let points = search(parallel, alloc, file, limits)?;
    Ok(Answer {
        text: scenario_points_text(alloc, file, points.as_slice())?,
        put: None,
    })
}

// The points of a file that can be bounded, or the refusal of a limit that the search passes.
fn search<R: Threads + Sync, G: Gate + Sync>(
    parallel: &Parallel<'_, R, G>,
    alloc: Global,
    file: &ScenarioFile,
    limits: ScenarioLimits,
) -> Result<Vec<ScenarioPoint>, Stop>
    requires bounded { CanBeBounded file.now limits.total }
    requires total { limits.total ≤ STORAGE }
    requires some { LEAST_DISTRIBUTIONS ≤ limits.distributions }
    requires few { limits.distributions ≤ DISTRIBUTIONS }
    ensures does { Does (deciding (λ points. AreScenarioPoints file.now limits points.items) (IsSearchEnd file.now limits)) result }
    ensures told { IfOk result (λ points. All (CanBeTold file.now) points.items) }
    ensures entered { IfOk result (λ points. AreEntered file.now limits (G.entered parallel.now.gate.now) points.items) }
{
    files_are_sound();
    match scenario_points(parallel.rt, alloc, file, limits, parallel.gate) {
        Ok(points) => Ok(points),
        Err(ScenarioStorageError::Edges { at }) => Err(Stop::Refused(Refusal::EdgesAt {
            number: Quantity::Edges.greatest(),
            at: shared_buffers_text(alloc, file.shared.as_slice(), &at)?,
        })),
        Err(ScenarioStorageError::DistributionsSpent) => {
            Err(Stop::Refused(Refusal::DistributionsSpent {
                number: limits.distributions,
            }))
        }
        Err(ScenarioStorageError::NoMemory) => Err(Stop::OutOfMemory),
    }
}
