//! The states of the automaton.

ghost use Rattle.std.specs.Prelude.{◌≡◌, ◌≤◌, ◌<◌, ◌+◌, ℕ, [], length, map, false, IfOk};
ghost use Rattle.std.specs.List.{position};
ghost use Rattle.std.specs.Str.{bytes_eq};
ghost use Rattle.file_text.specs.Node.{tree_of};
ghost use Rattle.graph_reader.specs.TreeSteps.{Gives};
ghost use Rattle.graph_reader.specs.Sections.{is_among, known};
ghost use Rattle.scenario_reader.specs.ScenarioSections.{state_of, states_of, initial_of};

use file_text::Element;
use graph_reader::walk::{
    Named, Register, copied, elements_in, missing, new_name, required, split_named, unknown, within,
};
use graph_reader::{Field, ReadError};
use sd_base::limits::{AUTOMATON_STATES, SCENARIOS};
use sd_base::{Quantity, ScenarioRow, Text};
use std::alloc::Global;

/// A state before its successors are read.
#[derive(Drop)]
pub(crate) struct State {
    pub name: Text,
    /// The number of its scenario.
    pub scenario: u32,
}

impl Named for State {
    ghost name_of = { λ s. s.name };

    fn name(&self) -> &Text {
        &self.name
    }
}

/// The number of the row that is named.
pub(crate) fn number_named<R: Named>(
    alloc: Global,
    what: Field,
    rows: &Register<R>,
    name: &str,
) -> Result<u32, ReadError>
    requires { length rows.now ≤ AUTOMATON_STATES }
    ensures { Gives (λ n. n) result (known what name.now (position (λ r. bytes_eq (R.name_of r) name.now) rows.now)) }
{
    match rows.number_of(name) {
        Some(number) => Ok(number as u32),
        None => Err(unknown(alloc, what, name)),
    }
}

#[tactic(auto, unfolding(crate::specs::ScenarioSections::state_of))]
fn read_state(
    alloc: Global,
    scenarios: &Register<ScenarioRow>,
    done: &Register<State>,
    element: &Element,
) -> Result<State, ReadError>
    requires few_scenarios { length scenarios.now ≤ SCENARIOS }
    requires few_states { length done.now ≤ AUTOMATON_STATES }
    ensures gives { Gives (λ s. s) result (state_of scenarios.now done.now (tree_of element.now)) }
    ensures few { IfOk result (λ _. length done.now + 1 ≤ AUTOMATON_STATES) }
    ensures new { IfOk result (λ s. is_among s.name (map (λ (t : State). t.name) done.now) ≡ false) }
{
    let name = new_name(alloc, "file", done, element)?;
    within(
        Quantity::AutomatonStates,
        AUTOMATON_STATES,
        done.len() as u64 + 1,
    )?;
    let scenario_name = required(alloc, element, Field::Scenario, name)?;
    let scenario = number_named(alloc, Field::Scenario, scenarios, scenario_name)?;
    let name = copied(alloc, name)?;
    Ok(State { name, scenario })
}

/// The states of an automaton, of which there is one at least.
#[tactic(auto, unfolding(crate::specs::ScenarioSections::states_of, graph_reader::specs::TreeSteps::children))]
pub(crate) fn read_states(
    alloc: Global,
    scenarios: &Register<ScenarioRow>,
    fsm: &Element,
) -> Result<Register<State>, ReadError>
    requires { length scenarios.now ≤ SCENARIOS }
    ensures gives { Gives (λ ss. ss) result (states_of scenarios.now (tree_of fsm.now)) }
    ensures few { IfOk result (λ ss. length ss ≤ AUTOMATON_STATES) }
{
    let mut states = Register::new(alloc);
    let mut left = elements_in(fsm);
    while let Some((child, rest)) = split_named(left, Field::State.word()) {
        let state = read_state(alloc, scenarios, &states, child)?;
        states = states.with(alloc, state)?;
        left = rest;
    }
    if states.is_empty() {
        return Err(missing(alloc, Field::State, "file"));
    }
    Ok(states)
}

/// The state in which each path begins.
#[tactic(auto, unfolding(crate::specs::ScenarioSections::initial_of))]
pub(crate) fn read_initial(
    alloc: Global,
    states: &Register<State>,
    fsm: &Element,
) -> Result<u32, ReadError>
    requires { length states.now ≤ AUTOMATON_STATES }
    ensures { Gives (λ n. n) result (initial_of states.now (tree_of fsm.now)) }
{
    let name = required(alloc, fsm, Field::InitialState, "file")?;
    number_named(alloc, Field::InitialState, states, name)
}
