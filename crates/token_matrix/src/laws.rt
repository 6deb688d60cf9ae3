//! Laws of stamps and matrices, each on a function that does nothing.
ghost use Rattle.std.specs.Prelude.{◌≡◌, ◌≤◌, ℕ, List, Option};
ghost use Rattle.sd_base.specs.declared.tables.GraphFile.{GraphFile};
ghost use Rattle.sd_base.specs.declared.tables.SharedRow.{SharedRow};
ghost use Rattle.sd_base.specs.Scenarios.{shared_count};
ghost use Rattle.token_matrix.specs.EntryWays.{CarriesStamps, EntriesAreLongestWays};
ghost use Rattle.token_matrix.specs.Matrices.{IsMatrix};

/// A scenario has at most one matrix; `matrix_of` computes it, where a round can be completed.
pub fn matrices_are_one()
    ensures { (shared : List SharedRow) (g : GraphFile) (gamma : List ℕ) (m n : List (List (Option ℕ))) →
        IsMatrix shared g gamma m → IsMatrix shared g gamma n → m ≡ n }
{}

/// The entries of a scenario's matrix are the times of its longest ways (Geilen and Stuijk, 2010).
pub fn entries_are_longest_ways()
    ensures { EntriesAreLongestWays }
{}

/// A scenario that has a matrix shares some token: the first firings of a round take tokens that were there.
pub fn matrices_have_a_row()
    ensures { (shared : List SharedRow) (g : GraphFile) (gamma : List ℕ) (m : List (List (Option ℕ))) →
        CarriesStamps shared g gamma → IsMatrix shared g gamma m → 1 ≤ shared_count shared }
{}
