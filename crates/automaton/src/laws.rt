//! Laws of timed graphs, each on a function that does nothing.
ghost use Rattle.std.specs.Prelude.{ℕ, ◌≤◌, ℤ, List, Option};
ghost use Rattle.std.specs.Int.{IsGcd};
ghost use Rattle.sd_base.specs.declared.tables.ScenarioFile.{ScenarioFile};
ghost use Rattle.automaton.specs.declared.graph.TimedGraph.{TimedGraph};
ghost use Rattle.automaton.specs.TimedGraphs.{IsTimedGraph};
ghost use Rattle.automaton.specs.CriticalCycles.{IsCritical, Fit};
ghost use Rattle.automaton.specs.WorstRates.{IsWorst};

/// A critical cycle and potentials that fit show the worst rate over all paths of a file's automaton: walks around
/// the cycle are stamps of paths that take as long, and by the potentials no path takes longer (Geilen and Stuijk,
/// 2010).
pub fn worst_is_shown()
    ensures { (file : ScenarioFile) (graph : TimedGraph) (l w : ℕ) (cycle : List ℕ) (p : ℕ → Option ℤ) → IsTimedGraph file graph →
        1 ≤ l → 1 ≤ w → IsGcd l w 1 → IsCritical graph l w cycle → Fit graph l w p → IsWorst file l w }
{}
