//! Which states may come next.

ghost use Rattle.std.specs.Prelude.{◌≡◌, ◌≤◌, ◌==◌, [], length, codes};
ghost use Rattle.std.specs.List.{list_any};
ghost use Rattle.file_text.specs.Node.{tree_of};
ghost use Rattle.graph_reader.specs.TreeSteps.{Gives};
ghost use Rattle.scenario_reader.specs.ScenarioSections.{next_of, successors_of, state_row, state_rows};

use crate::states::{State, number_named};
use file_text::Element;
use graph_reader::walk::{Register, dead_end, elements_in, required, split_named, twice};
use graph_reader::{Field, ReadError};
use sd_base::limits::AUTOMATON_STATES;
use sd_base::{Rows, StateRow};
use std::alloc::Global;

fn is_among(done: &[u32], next: u32) -> bool
    ensures { result ≡ list_any (λ other. other == next) done.now }
{
    done.iter().any(|other| *other == next)
}

#[tactic(auto, unfolding(crate::specs::ScenarioSections::next_of))]
fn read_next(
    alloc: Global,
    states: &Register<State>,
    of: &str,
    done: &[u32],
    element: &Element,
) -> Result<u32, ReadError>
    requires { length states.now ≤ AUTOMATON_STATES }
    ensures { Gives (λ n. n) result (next_of states.now of.now done.now (tree_of element.now)) }
{
    let name = required(alloc, element, Field::State, of)?;
    let next = number_named(alloc, Field::State, states, name)?;
    if is_among(done, next) {
        return Err(twice(alloc, Field::State, name));
    }
    Ok(next)
}

/// The successors of a state, of which there is one at least.
#[tactic(auto, unfolding(crate::specs::ScenarioSections::successors_of, graph_reader::specs::TreeSteps::children))]
fn read_successors(
    alloc: Global,
    states: &Register<State>,
    of: &str,
    element: &Element,
) -> Result<Rows<u32>, ReadError>
    requires { length states.now ≤ AUTOMATON_STATES }
    ensures { Gives (λ ns. ns) result (successors_of states.now of.now (tree_of element.now)) }
{
    let mut next = Rows::new(alloc);
    let mut left = elements_in(element);
    while let Some((child, rest)) = split_named(left, "next") {
        let number = read_next(alloc, states, of, next.as_slice(), child)?;
        next.push(number)?;
        left = rest;
    }
    if next.is_empty() {
        return Err(dead_end(alloc, of));
    }
    Ok(next)
}

#[tactic(auto, unfolding(crate::specs::ScenarioSections::state_row))]
fn read_row(
    alloc: Global,
    states: &Register<State>,
    state: &State,
    element: &Element,
) -> Result<StateRow, ReadError>
    requires { length states.now ≤ AUTOMATON_STATES }
    ensures { Gives (λ r. r) result (state_row states.now state.now (tree_of element.now)) }
{
    let next = read_successors(alloc, states, state.name.as_str(), element)?;
    let name = state.name.copy(alloc)?;
    Ok(StateRow {
        name,
        scenario: state.scenario,
        next,
    })
}

/// The rows of all states, each with its successors.
#[tactic(auto, unfolding(crate::specs::ScenarioSections::state_rows, graph_reader::specs::TreeSteps::children))]
pub(crate) fn read_rows(
    alloc: Global,
    states: &Register<State>,
    fsm: &Element,
) -> Result<Rows<StateRow>, ReadError>
    requires { length states.now ≤ AUTOMATON_STATES }
    ensures { Gives (λ rows. rows) result (state_rows states.now (tree_of fsm.now)) }
{
    let mut rows = Rows::new(alloc);
    let mut left = states.as_slice();
    let mut elements = elements_in(fsm);
    while let [state, rest @ ..] = left {
        let Some((element, after)) = split_named(elements, Field::State.word()) else {
            return Ok(rows);
        };
        let row = read_row(alloc, states, state, element)?;
        rows.push(row)?;
        left = rest;
        elements = after;
    }
    Ok(rows)
}
