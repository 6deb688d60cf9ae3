//! Which matrices the timed graph of a file needs.
ghost use Rattle.std.specs.Prelude.{◌≡◌, [], MatchBool};
ghost use Rattle.automaton.specs.TimedGraphs.{IsRun};

use sd_base::ScenarioFile;
use std::alloc::Global;
use token_matrix::Matrix;

/// Whether a state of the file runs the scenario of a number. Cost: linear in the states.
pub fn is_run(file: &ScenarioFile, scenario: usize) -> bool
    ensures { MatchBool result (IsRun file.now scenario) (IsRun file.now scenario → ⊥) }
{
    for state in file.states.as_slice() {
        if state.scenario as usize == scenario {
            return true;
        }
    }
    false
}

/// The matrix of a scenario as the timed graph of its file needs it: one without rows where no state runs the scenario.
/// Cost: that of `is_run`.
pub fn needed(alloc: Global, file: &ScenarioFile, scenario: usize, matrix: Matrix) -> Matrix
    ensures run { IsRun file.now scenario → result ≡ matrix }
    ensures not_run { (IsRun file.now scenario → ⊥) → result ≡ [] }
{
    if is_run(file, scenario) {
        return matrix;
    }
    Matrix::empty(alloc)
}
