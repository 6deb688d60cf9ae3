ghost use Rattle.std.specs.Prelude.{◌≡◌, ◌∷◌, ◌++◌, [], List, false, IfOk, OnOk, length};
ghost use Rattle.sd_base.specs.declared.tables.Kind.TheVariants.{Sdf};
ghost use Rattle.sd_base.specs.FileNet.{net_of};
ghost use Rattle.balance.specs.Repetition.{IsRound};
ghost use Rattle.automaton.specs.TimedGraphs.{AreKept, AreSized, IsTimedGraph};
ghost use Rattle.automaton.specs.SoundGraphs.{IsSound};
ghost use Rattle.escapes.specs.EscapedNames.{escaped_name};
ghost use Rattle.report.specs.LinkTexts.{IsNamed};
ghost use Rattle.scenario_reader.specs.ScenarioNames.{FileHasWritableNames};
ghost use Rattle.sd_steps.specs.Nets.{IsFed, IsDeadlocked};
ghost use Rattle.sd_base.specs.Scenarios.{FileKeepsRules, ScenarioKeepsRules, Shares, shared_count};
ghost use Rattle.sd_base.specs.Tables.{IsTimed, KeepsRules};
ghost use Rattle.sd_base.specs.Untimed.{IsBlockedBy};
ghost use Rattle.sd_steps.specs.Nets.{IsDeadlocked};
ghost use Rattle.sd_steps.specs.ScenarioSteps.{Entries, linking, making_matrix, measuring_graph, measuring_one, of_scenario, reading_scenarios, timing};
ghost use Rattle.sd_steps.specs.Steps.{Does};
ghost use Rattle.sd_steps.specs.inside.Stops.{IsStopOf};
ghost use Rattle.sd_steps.specs.inside.Measuring.{Measures};

use crate::balancing::balanced;
use crate::nets::feed;
use crate::reading::{above, refusal_of};
use crate::stop::Stop;
use automaton::{GraphError, TimedGraph, needed, product};
use escapes::escaped;
use firing::{Firing, SdfNet, ends};
use report::{Refusal, lacks_text};
use scenario_rate::files_are_sound;
use scenario_reader::read_scenarios;
use sd_base::{GraphFile, NoMemory, Quantity, Rows, ScenarioFile, ScenarioRow, SharedRow, Text};
use std::alloc::Global;
use token_matrix::{Matrix, MatrixError, matrix_of};

/// Reads a file of scenarios.
pub fn read_file(alloc: Global, bytes: &[u8]) -> Result<ScenarioFile, Stop>
    ensures does { Does (reading_scenarios bytes.now) result }
    ensures keeps { IfOk result FileKeepsRules }
    ensures names { IfOk result FileHasWritableNames }
{
    match read_scenarios(alloc, bytes) {
        Ok(file) => Ok(file),
        Err(error) => Err(Stop::Refused(refusal_of(alloc, &error)?)),
    }
}

/// The matrices of the scenarios of a file, in order. Each is made; those that the timed graph doesn't need aren't kept.
fn measure(alloc: Global, file: &ScenarioFile) -> Result<Rows<Matrix>, Stop>
    requires { FileKeepsRules file.now }
    ensures { Measures file.now result }
{
    let mut matrices = Rows::new(alloc);
    for scenario in file.scenarios.as_slice() {
        let matrix = measure_one(alloc, file.shared.as_slice(), scenario)?;
        let kept = needed(alloc, file, matrices.len(), matrix);
        put_matrix(&mut matrices, kept)?;
    }
    Ok(matrices)
}

fn put_matrix(matrices: &mut Rows<Matrix>, matrix: Matrix) -> Result<(), NoMemory>
    ensures { OnOk result (matrices.new ≡ matrices.old ++ matrix ∷ []) }
{
    matrices.push(matrix)?;
    Ok(())
}

/// The matrix of a scenario; a refusal names the scenario.
fn measure_one(alloc: Global, shared: &[SharedRow], scenario: &ScenarioRow) -> Result<Matrix, Stop>
    requires { ScenarioKeepsRules shared.now scenario.now }
    ensures { Does (measuring_one shared.now scenario.now) result }
{
    match measure_graph(alloc, shared, &scenario.graph) {
        Ok(matrix) => Ok(matrix),
        Err(stop) => Err(stop_of(alloc, scenario, stop)),
    }
}

/// A stop of a scenario's graph, as that of the scenario: a refusal names it.
pub(crate) fn stop_of(alloc: Global, scenario: &ScenarioRow, stop: Stop) -> Stop
    ensures { IsStopOf (escaped_name scenario.now.name) stop result }
{
    match stop {
        Stop::Refused(mut refusal) => match escaped(alloc, scenario.name.as_str()) {
            Ok(name) => {
                name_scenario(&mut refusal, name);
                Stop::Refused(refusal)
            }
            Err(_) => Stop::OutOfMemory,
        },
        Stop::OutOfMemory => Stop::OutOfMemory,
    }
}

/// A refusal of a graph becomes that of the scenario of this printed name.
fn name_scenario(refusal: &mut Refusal, name: Text)
    ensures { refusal.new ≡ of_scenario name refusal.old }
{
    match refusal {
        Refusal::Above { scenario, .. } => *scenario = Some(name),
        Refusal::Ratio { scenario, .. } => *scenario = Some(name),
        Refusal::Inconsistent { scenario, .. } => *scenario = Some(name),
        Refusal::Apart { scenario, .. } => *scenario = Some(name),
        Refusal::NoInput { scenario, .. } => *scenario = Some(name),
        Refusal::Deadlock { scenario, .. } => *scenario = Some(name),
        _ => {}
    }
}

/// The matrix of a graph over the shared tokens.
fn measure_graph(alloc: Global, shared: &[SharedRow], graph: &GraphFile) -> Result<Matrix, Stop>
    requires rules { KeepsRules graph.now }
    requires kind { graph.now.kind ≡ Sdf }
    requires timed { IsTimed graph.now }
    requires shares { Shares shared.now graph.now }
    ensures { Does (measuring_graph shared.now graph.now) result }
{
    let gamma = balanced(alloc, graph)?;
    let net = SdfNet::new(alloc, graph, gamma.as_slice(), false)?;
    let ends = ends(alloc, &net)?;
    feed(alloc, &net, graph, &ends)?;
    make_matrix(alloc, shared, graph, gamma.as_slice(), &net)
}

/// The matrix of a graph with its repetition vector, of which each actor has an input.
fn make_matrix(
    alloc: Global,
    shared: &[SharedRow],
    graph: &GraphFile,
    gamma: &[u64],
    net: &SdfNet,
) -> Result<Matrix, Stop>
    requires rules { KeepsRules graph.now }
    requires kind { graph.now.kind ≡ Sdf }
    requires timed { IsTimed graph.now }
    requires shares { Shares shared.now graph.now }
    requires round { IsRound graph.now gamma.now }
    requires net { ⟦<SdfNet as Firing>⟧.net net.now ≡ net_of graph.now gamma.now false }
    requires fed { IsFed (net_of graph.now gamma.now false) }
    ensures { Does (making_matrix shared.now graph.now gamma.now) result }
{
    match matrix_of(alloc, graph, gamma, shared) {
        Ok(matrix) => Ok(matrix),
        Err(MatrixError::Limit) => Err(Stop::Refused(above(alloc, Quantity::Stamps)?)),
        Err(MatrixError::Blocked { counts, lacks }) => Err(Stop::Refused(deadlock(
            alloc,
            net,
            graph,
            counts.as_slice(),
            lacks.as_slice(),
        )?)),
        Err(MatrixError::NoMemory) => Err(Stop::OutOfMemory),
    }
}

/// The refusal of a net that is blocked.
fn deadlock<F: Firing>(
    alloc: Global,
    net: &F,
    graph: &GraphFile,
    counts: &[u64],
    lacks: &[Option<u32>],
) -> Result<Refusal, NoMemory>
    requires named { IsNamed graph.now (F.net net.now) }
    requires blocked { IsBlockedBy (F.net net.now) counts.now lacks.now }
    ensures { IfOk result (IsDeadlocked graph.now (F.net net.now)) }
{
    Ok(Refusal::Deadlock {
        scenario: None,
        list: lacks_text(alloc, net, graph, counts, lacks)?,
    })
}

/// The timed graph of a file.
pub fn timed(alloc: Global, file: &ScenarioFile) -> Result<TimedGraph, Stop>
    requires { FileKeepsRules file.now }
    ensures does { Does (timing file.now) result }
    ensures timed { IfOk result (IsTimedGraph file.now) }
    ensures sound { IfOk result IsSound }
{
    files_are_sound();
    let matrices = measure(alloc, file)?;
    link(alloc, file, matrices.as_slice())
}

/// The timed graph of a file by the matrices of its scenarios, of which some may not be kept.
fn link(alloc: Global, file: &ScenarioFile, matrices: &[Matrix]) -> Result<TimedGraph, Stop>
    requires rules { FileKeepsRules file.now }
    requires all { length matrices.now ≡ length file.now.scenarios }
    requires sized { AreSized (shared_count file.now.shared) matrices.now file.now.states }
    ensures { (all : List Entries) → AreKept file.now all matrices.now → Does (linking file.now all) result }
{
    match product(alloc, file, matrices) {
        Ok(graph) => Ok(graph),
        Err(GraphError::Limit) => Err(Stop::Refused(above(alloc, Quantity::Edges)?)),
        Err(GraphError::NoMemory) => Err(Stop::OutOfMemory),
    }
}
