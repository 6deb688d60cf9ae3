//! Laws of timed graphs that are searched, each on a function that does nothing.
ghost use Rattle.std.specs.Prelude.{ℕ, ◌*◌, ◌≤◌, List, Option, length};
ghost use Rattle.sd_base.specs.declared.limits.TheConstants.{EDGES, NODES};
ghost use Rattle.sd_base.specs.declared.tables.ScenarioFile.{ScenarioFile};
ghost use Rattle.automaton.specs.declared.graph.TimedGraph.{TimedGraph};
ghost use Rattle.sd_base.specs.Scenarios.{LeadsOn, shared_count};
ghost use Rattle.automaton.specs.TimedGraphs.{AreComputed, IsProduct, IsTimedGraph};
ghost use Rattle.automaton.specs.SoundGraphs.{Grows, IsSound};

/// In the timed graph of a file whose scenarios share some token, walks from the initial state get heavier than any
/// number: its states lead on, each token that is left depends on one that was there, and an entry of 0 leads to an
/// earlier token.
pub fn files_grow()
    ensures { (file : ScenarioFile) (graph : TimedGraph) → IsTimedGraph file graph → 1 ≤ graph.tokens → Grows graph }
{}

/// The timed graph of a file whose scenarios share some token is within the limits, where its nodes and edges are.
pub fn files_are_sound()
    ensures { (file : ScenarioFile) (graph : TimedGraph) → IsTimedGraph file graph → 1 ≤ graph.tokens → graph.states * graph.tokens ≤ NODES → length graph.edges ≤ EDGES → IsSound graph }
{}

/// What `product` gives of a file, by the matrices that `matrix_of` gives of its scenarios, is the file's timed graph, and one
/// that is searched: within the limits, and with walks that get heavier than any number. So it meets what `worst` asks for.
pub fn products_are_searched()
    ensures { (file : ScenarioFile) (matrices : List (List (List (Option ℕ)))) (graph : TimedGraph) → AreComputed file matrices → LeadsOn file →
        length file.states * shared_count file.shared ≤ NODES → IsProduct file matrices graph → length graph.edges ≤ EDGES → IsTimedGraph file graph × IsSound graph × Grows graph }
{}
