//! The file of a tree.

ghost use Rattle.std.specs.Prelude.{◌≡◌, ◌≤◌, ◌*◌, length};
ghost use Rattle.file_text.specs.Node.{tree_of};
ghost use Rattle.sd_base.specs.declared.limits.Quantity.TheVariants.{Nodes};
ghost use Rattle.sd_base.specs.Scenarios.{shared_count};
ghost use Rattle.graph_reader.specs.TreeSteps.{Gives};
ghost use Rattle.graph_reader.specs.NumberTexts.{within};
ghost use Rattle.scenario_reader.specs.ScenarioSections.{scenario_kind, automaton_in, file_in, file_of};

use crate::scenarios::read_scenarios;
use crate::shared::{count_shared, read_shared};
use crate::states::{read_initial, read_states};
use crate::successors::read_rows;
use file_text::Element;
use graph_reader::walk::{Register, one, required, test_root, within};
use graph_reader::{Field, ReadError};
use sd_base::limits::{AUTOMATON_STATES, NODES, SCENARIOS};
use sd_base::{Quantity, Rows, ScenarioFile, ScenarioRow, SharedRow, StateRow};
use std::alloc::Global;

#[tactic(auto, unfolding(crate::specs::ScenarioSections::scenario_kind))]
fn test_kind(word: &str) -> Result<(), ReadError>
    ensures { Gives (λ _. word.now) result (scenario_kind word.now) }
{
    if word == Field::Fsmsadf.word() {
        return Ok(());
    }
    Err(ReadError::WrongKind)
}

/// The nodes that a timed graph of so many states has, if it may have as many.
fn few_nodes(states: usize, shared: &[SharedRow]) -> Result<u64, ReadError>
    requires { states ≤ AUTOMATON_STATES }
    ensures { Gives (λ n. n) result (within Nodes NODES (states * shared_count shared.now)) }
{
    within(Quantity::Nodes, NODES, states as u64 * count_shared(shared))
}

/// The states, and in which of them paths begin, of the elements inside a section.
#[tactic(auto, unfolding(crate::specs::ScenarioSections::automaton_in))]
fn read_automaton(
    alloc: Global,
    section: &Element,
    scenarios: &Register<ScenarioRow>,
    shared: &[SharedRow],
) -> Result<(Rows<StateRow>, u32), ReadError>
    requires { length scenarios.now ≤ SCENARIOS }
    ensures { Gives (λ a. a) result (automaton_in scenarios.now shared.now (tree_of section.now)) }
{
    let fsm = one(alloc, section, Field::Fsm, "file")?;
    let states = read_states(alloc, scenarios, fsm)?;
    let initial = read_initial(alloc, &states, fsm)?;
    let rows = read_rows(alloc, &states, fsm)?;
    few_nodes(states.len(), shared)?;
    Ok((rows, initial))
}

/// The file of the elements inside a section.
#[tactic(auto, unfolding(crate::specs::ScenarioSections::file_in))]
fn read_section(alloc: Global, section: &Element) -> Result<ScenarioFile, ReadError>
    ensures { Gives (λ f. f) result (file_in (tree_of section.now)) }
{
    let scenarios = read_scenarios(alloc, section)?;
    let shared = read_shared(alloc, scenarios.as_slice())?;
    let (states, initial) = read_automaton(alloc, section, &scenarios, shared.as_slice())?;
    Ok(ScenarioFile {
        scenarios: Rows::from_vec(scenarios.into_rows()),
        shared,
        states,
        initial,
    })
}

/// The file of the elements inside a root element.
#[tactic(auto, unfolding(crate::specs::ScenarioSections::file_of))]
pub(crate) fn read_file(alloc: Global, root: &Element) -> Result<ScenarioFile, ReadError>
    ensures { Gives (λ f. f) result (file_of (tree_of root.now)) }
{
    test_root(alloc, root)?;
    test_kind(required(alloc, root, Field::TypeWord, "file")?)?;
    let graph = one(alloc, root, Field::ApplicationGraph, "file")?;
    let section = one(alloc, graph, Field::Fsmsadf, "file")?;
    read_section(alloc, section)
}
