//! Whether each path of an automaton can go on.
ghost use Rattle.std.specs.Prelude.{MatchBool, All, length};
ghost use Rattle.sd_base.specs.Scenarios.{LeadsOn};
ghost use Rattle.automaton.specs.inside.Leading.{Leads};

use sd_base::{ScenarioFile, StateRow};

/// Whether the states of a file run its scenarios and each has a successor, the successors and the initial state being
/// states of the file. Cost: linear in states and successors.
#[tactic(auto, using(crate::proofs::PathsGoOn::lead_on, crate::proofs::PathsGoOn::all_lead))]
pub fn leads_on(file: &ScenarioFile) -> bool
    ensures { MatchBool result (LeadsOn file.now) (LeadsOn file.now → ⊥) }
{
    (file.initial as usize) < file.states.len()
        && all_lead(file.states.as_slice(), file.scenarios.len())
}

fn all_lead(states: &[StateRow], scenarios: usize) -> bool
    ensures { MatchBool result (All (Leads scenarios (length states.now)) states.now) (All (Leads scenarios (length states.now)) states.now → ⊥) }
{
    states
        .iter()
        .all(|state| leads(state, scenarios, states.len()))
}

fn leads(state: &StateRow, scenarios: usize, states: usize) -> bool
    ensures { MatchBool result (Leads scenarios states state.now) (Leads scenarios states state.now → ⊥) }
{
    (state.scenario as usize) < scenarios
        && !state.next.is_empty()
        && state
            .next
            .as_slice()
            .iter()
            .all(|next| (*next as usize) < states)
}
