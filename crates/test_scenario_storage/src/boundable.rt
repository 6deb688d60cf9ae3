ghost use Rattle.std.specs.Prelude.{◌≡◌, ◌+◌, ◌≤◌, IfOk, IsTrue, sum, true};
ghost use Rattle.sd_base.specs.declared.limits.TheConstants.{NODES, ROUND, STORAGE};
ghost use Rattle.sd_base.specs.declared.tables.Kind.TheVariants.{Sdf};
ghost use Rattle.sd_base.specs.Scenarios.{FileKeepsRules};
ghost use Rattle.sd_base.specs.Tables.{IsTimed, KeepsRules};
ghost use Rattle.balance.specs.Repetition.{IsRound};
ghost use Rattle.scenario_reader.specs.ScenarioNames.{FileHasWritableNames};
ghost use Rattle.bounded_scenarios.specs.Boundings.{CanBeBounded};
ghost use Rattle.test_scenario_storage.specs.Running.{AllRun, Runs};

use crate::outline::{Outline, text_of};
use balance::{BalanceError, repetition};
use bounded_scenarios::looped_tokens;
use fanout::Gate;
use firing::SdfNet;
use liveness::{Round, one_round};
use scenario_reader::read_scenarios;
use scenario_storage::{ScenarioLimits, ScenarioPoint, ScenarioStorageError, scenario_points};
use sd_base::limits::{DISTRIBUTIONS, LEAST_DISTRIBUTIONS, NODES, STAMPS, STORAGE};
use sd_base::{GraphFile, NoMemory, ScenarioFile};
use std::alloc::Global;
use std::process::Abort;
use std::thread::Threads;
use test_nets::is_fed;

/// The points of a file whose scenarios run without bounds.
pub(crate) fn points_of<R: Threads + Abort + Sync, G: Gate + Sync>(
    rt: &R,
    alloc: Global,
    outline: &Outline,
    limits: ScenarioLimits,
    gate: &G,
) -> Result<Vec<ScenarioPoint>, ScenarioStorageError> {
    let text = text_of(alloc, outline)?;
    match read_scenarios(alloc, text.as_bytes()) {
        Ok(file) => points_in(rt, alloc, &file, limits, gate),
        Err(_) => panic!(rt; "a file that breaks a rule"),
    }
}

fn points_in<R: Threads + Abort + Sync, G: Gate + Sync>(
    rt: &R,
    alloc: Global,
    file: &ScenarioFile,
    limits: ScenarioLimits,
    gate: &G,
) -> Result<Vec<ScenarioPoint>, ScenarioStorageError>
    requires rules { FileKeepsRules file.now }
    requires names { FileHasWritableNames file.now }
{
    assert!(rt;
        LEAST_DISTRIBUTIONS <= limits.distributions && limits.distributions <= DISTRIBUTIONS
    );
    assert!(rt; limits.total <= STORAGE);
    let boundable = is_boundable(alloc, file, limits.total)?;
    assert!(rt; boundable);
    scenario_points(rt, alloc, file, limits, gate)
}

/// Whether the file can be bounded by each distribution within a limit.
fn is_boundable(alloc: Global, file: &ScenarioFile, total: u64) -> Result<bool, NoMemory>
    requires rules { FileKeepsRules file.now }
    requires names { FileHasWritableNames file.now }
    requires total { total ≤ STORAGE }
    ensures { IfOk result (λ b. IsTrue b → CanBeBounded file.now total) }
{
    let looped = looped_tokens(file);
    if looped > NODES {
        return Ok(false);
    }
    let tokens = total + looped;
    if file.states.len() as u64 * tokens > NODES {
        return Ok(false);
    }
    let run = all_run(alloc, file, tokens)?;
    Ok(run)
}

/// Whether each scenario runs without bounds, and the stamps of its round with so many shared tokens are within their limit.
fn all_run(alloc: Global, file: &ScenarioFile, tokens: u64) -> Result<bool, NoMemory>
    requires rules { FileKeepsRules file.now }
    requires tokens { tokens ≤ STORAGE + NODES }
    ensures { IfOk result (λ b. IsTrue b → AllRun file.now tokens) }
{
    for scenario in file.scenarios.as_slice() {
        if !runs(alloc, &scenario.graph, tokens)? {
            return Ok(false);
        }
    }
    Ok(true)
}

fn runs(alloc: Global, graph: &GraphFile, tokens: u64) -> Result<bool, NoMemory>
    requires rules { KeepsRules graph.now }
    requires kind { graph.now.kind ≡ Sdf }
    requires timed { IsTimed graph.now }
    requires tokens { tokens ≤ STORAGE + NODES }
    ensures { IfOk result (λ b. IsTrue b → Runs tokens graph.now) }
{
    match repetition(alloc, graph) {
        Ok(gamma) => runs_rounds(alloc, graph, gamma.as_slice(), tokens),
        Err(BalanceError::NoMemory) => Err(NoMemory),
        Err(_) => Ok(false),
    }
}

fn runs_rounds(
    alloc: Global,
    graph: &GraphFile,
    gamma: &[u64],
    tokens: u64,
) -> Result<bool, NoMemory>
    requires rules { KeepsRules graph.now }
    requires kind { graph.now.kind ≡ Sdf }
    requires timed { IsTimed graph.now }
    requires round { IsRound graph.now gamma.now }
    requires tokens { tokens ≤ STORAGE + NODES }
    ensures { IfOk result (λ b. IsTrue b → Runs tokens graph.now) }
{
    let net = SdfNet::new(alloc, graph, gamma, false)?;
    if firings_of(gamma) * tokens > STAMPS || !is_fed(&net) {
        return Ok(false);
    }
    match one_round(alloc, &net)? {
        Round::Live { .. } => Ok(true),
        Round::Blocked { .. } => Ok(false),
    }
}

/// The firings of a round.
fn firings_of(gamma: &[u64]) -> u64
    requires { sum gamma.now ≤ ROUND }
    ensures { result ≡ sum gamma.now }
{
    gamma.iter().sum()
}
