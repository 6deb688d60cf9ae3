//! Graph files to tables: the table that a file spells, or the first rule that it breaks.
#![tactic(auto)]

ghost use Rattle.std.specs.Prelude.{◌≡◌, ◌↔◌, Bool, Ok, IsTrue, IfErr, IfOk};
ghost use Rattle.sd_base.specs.Tables.{KeepsRules, IsTimed};
ghost use Rattle.file_text.specs.Node.{Node};
ghost use Rattle.file_text.specs.Grammar.{IsText};
ghost use Rattle.graph_reader.specs.FirstFaults.{IsFirstFault};
ghost use Rattle.sd_base.specs.declared.tables.GraphFile.{GraphFile};
ghost use Rattle.graph_reader.specs.TreeSteps.{Gives};
ghost use Rattle.graph_reader.specs.Sections.{table_of};
ghost use Rattle.graph_reader.specs.Spelled.{IsTable};
ghost use Rattle.graph_reader.specs.WritableNames.{HasWritableNames};

mod actors;
mod channels;
mod elements;
mod error;
mod field;
mod laws;
mod names;
mod numbers;
mod properties;
mod register;
mod table;
pub mod walk;

pub use error::ReadError;
pub use field::Field;
use file_text::read_tree;
pub use laws::know_files;
use sd_base::GraphFile;
use std::alloc::Global;

/// Reads the table of a graph file for synchronous or cyclo-static dataflow. With `need_times` each actor must
/// have its execution times. Cost: the one of reading the text, the length of each name, the phases of each port,
/// and a comparison of each channel's ends with those of the earlier channels, of which there are at most 256.
pub fn read_graph(alloc: Global, bytes: &[u8], need_times: bool) -> Result<GraphFile, ReadError>
    ensures found { IfOk result (λ t. (e : Node) × IsText e bytes.now × (table_of need_times e ≡ Ok t)) }
    ensures fault { IfErr result (IsFirstFault bytes.now need_times) }
    // Bytes that spell a tree are answered by its table or by the first rule that it breaks.
    ensures exact { (e : Node) → IsText e bytes.now → Gives (λ t. t) result (table_of need_times e) }
    ensures keeps { IfOk result KeepsRules }
    ensures timed { IfOk result (λ t. IsTrue need_times → IsTimed t) }
    ensures names { IfOk result HasWritableNames }
{
    match read_tree(alloc, bytes) {
        Ok(tree) => table::table_of(alloc, &tree.root, need_times),
        Err(fault) => Err(ReadError::from(fault)),
    }
}

/// A law: the walk through a tree in the order of the rules gives a table exactly where the tree spells
/// it, said without an order.
pub fn walk_is_exact()
    ensures { (need_times : Bool) (e : Node) (t : GraphFile) → (table_of need_times e ≡ Ok t) ↔ IsTable need_times e t }
{}
