//! Files of scenarios to tables: the scenarios and the automaton that a file spells, or the first rule that it breaks.
#![tactic(auto)]

ghost use Rattle.std.specs.Prelude.{◌≡◌, ◌↔◌, Ok, IfErr, IfOk};
ghost use Rattle.sd_base.specs.Scenarios.{FileKeepsRules};
ghost use Rattle.file_text.specs.Node.{Node};
ghost use Rattle.file_text.specs.Grammar.{IsText};
ghost use Rattle.graph_reader.specs.TreeSteps.{Gives};
ghost use Rattle.scenario_reader.specs.ScenarioNames.{FileHasWritableNames};
ghost use Rattle.scenario_reader.specs.ScenarioSections.{file_of};
ghost use Rattle.scenario_reader.specs.ScenarioFiles.{IsFirstFileFault};
ghost use Rattle.scenario_reader.specs.ScenarioSpelled.{IsScenarioFile};
ghost use Rattle.sd_base.specs.declared.tables.ScenarioFile.{ScenarioFile};

mod file;
mod laws;
mod scenarios;
mod shared;
mod states;
mod successors;

use file_text::read_tree;
use graph_reader::ReadError;
pub use laws::know_scenario_files;
use sd_base::ScenarioFile;
use std::alloc::Global;

/// Reads a file of scenarios. Each scenario's graph is read as a graph file's is, and its times are needed. Cost: the
/// one of reading the text and each graph, and a comparison of each shared channel with those of each scenario.
pub fn read_scenarios(alloc: Global, bytes: &[u8]) -> Result<ScenarioFile, ReadError>
    ensures found { IfOk result (λ f. (e : Node) × IsText e bytes.now × (file_of e ≡ Ok f)) }
    ensures fault { IfErr result (IsFirstFileFault bytes.now) }
    // Bytes that spell a tree are answered by its file or by the first rule that it breaks.
    ensures exact { (e : Node) → IsText e bytes.now → Gives (λ f. f) result (file_of e) }
    ensures keeps { IfOk result FileKeepsRules }
    ensures names { IfOk result FileHasWritableNames }
{
    match read_tree(alloc, bytes) {
        Ok(tree) => file::read_file(alloc, &tree.root),
        Err(fault) => Err(ReadError::from(fault)),
    }
}

/// A law: the walk through a tree in the order of the rules gives a file exactly where the tree spells it, said
/// without an order.
pub fn walk_is_exact()
    ensures { (e : Node) (f : ScenarioFile) → (file_of e ≡ Ok f) ↔ IsScenarioFile e f }
{}
