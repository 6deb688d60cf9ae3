//! The graphs of scenarios and their repetition vectors.
ghost use Rattle.std.specs.Prelude.{◌≡◌, ◌<◌, ℕ, List, Option, Some, length, slice_get};
ghost use Rattle.sd_base.specs.declared.tables.ScenarioFile.{ScenarioFile as AFile};
ghost use Rattle.sd_base.specs.declared.tables.ScenarioRow.{ScenarioRow as ARow};
ghost use Rattle.bounded_scenarios.specs.BoundedFiles.{bounded_file, bounded_graph};

use sd_base::{GraphFile, Rows, ScenarioFile};

/// The graph of a scenario.
pub(crate) fn graph_at(file: &ScenarioFile, scenario: usize) -> &GraphFile
    requires { scenario < length file.now.scenarios }
    ensures is { (row : ARow) → slice_get file.now.scenarios scenario ≡ Some row → result.now ≡ row.graph }
    ensures bounded { (whole : AFile) (ds : List (Option ℕ)) (row : ARow) → file.now ≡ bounded_file whole ds → slice_get whole.scenarios scenario ≡ Some row → result.now ≡ bounded_graph whole.shared ds row.graph }
{
    &file.scenarios.as_slice()[scenario].graph
}

/// The repetition vector of a scenario.
pub(crate) fn gamma_at(gammas: &Rows<Rows<u64>>, scenario: usize) -> &[u64]
    requires { scenario < length gammas.now }
    ensures { (gamma : List ℕ) → slice_get gammas.now scenario ≡ Some gamma → result.now ≡ gamma }
{
    gammas.as_slice()[scenario].as_slice()
}
