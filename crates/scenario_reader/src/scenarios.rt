//! Scenarios with their graphs.

ghost use Rattle.std.specs.Prelude.{◌≡◌, ◌≤◌, ◌+◌, [], length, map, false, IfOk};
ghost use Rattle.file_text.specs.Node.{tree_of};
ghost use Rattle.graph_reader.specs.TreeSteps.{Gives};
ghost use Rattle.graph_reader.specs.Sections.{is_among};
ghost use Rattle.sd_base.specs.declared.tables.ScenarioRow.{ScenarioRow};
ghost use Rattle.scenario_reader.specs.ScenarioSections.{scenario_of, scenarios_of};

use file_text::Element;
use graph_reader::walk::{
    Register, copied, elements_in, graph_in, missing, new_name, split_named, within,
};
use graph_reader::{Field, ReadError};
use sd_base::limits::SCENARIOS;
use sd_base::{Kind, Quantity, ScenarioRow};
use std::alloc::Global;

#[tactic(auto, unfolding(crate::specs::ScenarioSections::scenario_of))]
fn read_scenario(
    alloc: Global,
    done: &Register<ScenarioRow>,
    element: &Element,
) -> Result<ScenarioRow, ReadError>
    requires { length done.now ≤ SCENARIOS }
    ensures gives { Gives (λ s. s) result (scenario_of done.now (tree_of element.now)) }
    ensures few { IfOk result (λ _. length done.now + 1 ≤ SCENARIOS) }
    ensures new { IfOk result (λ s. is_among s.name (map (λ (t : ScenarioRow). t.name) done.now) ≡ false) }
{
    let name = new_name(alloc, "file", done, element)?;
    within(Quantity::Scenarios, SCENARIOS, done.len() as u64 + 1)?;
    let graph = graph_in(alloc, Kind::Sdf, name, true, element)?;
    let name = copied(alloc, name)?;
    Ok(ScenarioRow { name, graph })
}

/// The scenarios of a section, of which there is one at least.
#[tactic(auto, unfolding(crate::specs::ScenarioSections::scenarios_of, graph_reader::specs::TreeSteps::children))]
pub fn read_scenarios(alloc: Global, section: &Element) -> Result<Register<ScenarioRow>, ReadError>
    ensures gives { Gives (λ ss. ss) result (scenarios_of (tree_of section.now)) }
    ensures few { IfOk result (λ ss. length ss ≤ SCENARIOS) }
{
    let mut scenarios = Register::new(alloc);
    let mut left = elements_in(section);
    while let Some((child, rest)) = split_named(left, Field::Scenario.word()) {
        let scenario = read_scenario(alloc, &scenarios, child)?;
        scenarios = scenarios.with(alloc, scenario)?;
        left = rest;
    }
    if scenarios.is_empty() {
        return Err(missing(alloc, Field::Scenario, "file"));
    }
    Ok(scenarios)
}
