ghost use Rattle.std.specs.Prelude.{◌≡◌, ◌+◌, ◌≤◌, List, sum};
ghost use Rattle.sd_base.specs.declared.limits.TheConstants.{NODES, ROUND, STORAGE};
ghost use Rattle.sd_base.specs.declared.tables.Kind.TheVariants.{Sdf};
ghost use Rattle.sd_base.specs.declared.tables.SharedRow.{SharedRow as ASharedRow};
ghost use Rattle.sd_base.specs.Scenarios.{FileKeepsRules, ScenarioKeepsRules};
ghost use Rattle.sd_base.specs.Tables.{IsTimed, KeepsRules};
ghost use Rattle.sd_steps.specs.ScenarioBounds.{bounding_all, bounding_graph, bounding_one, fitting, fitting_nodes};
ghost use Rattle.sd_steps.specs.Steps.{Does};

use crate::balancing::balanced;
use crate::nets::{complete, feed};
use crate::reading::above;
use crate::scenario_steps::stop_of;
use crate::stop::Stop;
use firing::{SdfNet, Wired, Wiring, ends};
use sd_base::{GraphFile, Quantity, ScenarioFile, ScenarioRow};
use std::alloc::Global;

/// Tests each scenario of a file in turn, where there may be so many shared tokens.
pub fn bound_all(alloc: Global, file: &ScenarioFile, tokens: u64) -> Result<(), Stop>
    requires rules { FileKeepsRules file.now }
    requires tokens { tokens ≤ STORAGE + NODES }
    ensures { Does (bounding_all file.now tokens) result }
{
    for scenario in file.scenarios.as_slice() {
        bound_one(alloc, scenario, tokens)?;
    }
    Ok(())
}

// Tests a scenario; a refusal names it.
fn bound_one(alloc: Global, scenario: &ScenarioRow, tokens: u64) -> Result<(), Stop>
    requires rules { (shared : List ASharedRow) × ScenarioKeepsRules shared scenario.now }
    requires tokens { tokens ≤ STORAGE + NODES }
    ensures { Does (bounding_one tokens scenario.now) result }
{
    match bound_graph(alloc, &scenario.graph, tokens) {
        Ok(()) => Ok(()),
        Err(stop) => Err(stop_of(alloc, scenario, stop)),
    }
}

// Tests a graph: each of its actors has an input, the firings of its round times the tokens are within the limit of stamps, and
// a round can be completed.
fn bound_graph(alloc: Global, graph: &GraphFile, tokens: u64) -> Result<(), Stop>
    requires rules { KeepsRules graph.now }
    requires kind { graph.now.kind ≡ Sdf }
    requires timed { IsTimed graph.now }
    requires tokens { tokens ≤ STORAGE + NODES }
    ensures { Does (bounding_graph tokens graph.now) result }
{
    let gamma = balanced(alloc, graph)?;
    let net = SdfNet::new(alloc, graph, gamma.as_slice(), false)?;
    let ends = ends(alloc, &net)?;
    feed(alloc, &net, graph, &ends)?;
    fit(
        alloc,
        Quantity::Stamps,
        firings_of(gamma.as_slice()) * tokens,
    )?;
    let wiring = Wiring::new(alloc, &net)?;
    let wired = Wired {
        net: &net,
        wiring: &wiring,
    };
    complete(alloc, &wired, graph)
}

// The firings of a round.
fn firings_of(gamma: &[u64]) -> u64
    requires { sum gamma.now ≤ ROUND }
    ensures { result ≡ sum gamma.now }
{
    gamma.iter().sum()
}

/// Tests that the states of a file times the shared tokens are within the limit of nodes.
pub fn fit_nodes(alloc: Global, file: &ScenarioFile, tokens: u64) -> Result<(), Stop>
    requires rules { FileKeepsRules file.now }
    requires tokens { tokens ≤ STORAGE + NODES }
    ensures { Does (fitting_nodes file.now tokens) result }
{
    fit(alloc, Quantity::Nodes, file.states.len() as u64 * tokens)
}

// Tests that a number doesn't pass the greatest one of its quantity.
fn fit(alloc: Global, quantity: Quantity, number: u64) -> Result<(), Stop>
    ensures { Does (fitting quantity number) result }
{
    if number > quantity.greatest() {
        return Err(Stop::Refused(above(alloc, quantity)?));
    }
    Ok(())
}
