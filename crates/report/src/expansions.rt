//! The text of an expansion.
ghost use Rattle.std.specs.Prelude.{◌≡◌, IfOk, length};
ghost use Rattle.report.specs.ExpansionTexts.{expanded_line};

use crate::answers::bytes_of;
use sd_base::{GraphFile, NoMemory, Rows};
use std::alloc::Global;

/// The text of an expansion: one line `expanded actors A channels C` with how many it has of each.
#[tactic(auto, unfolding(crate::specs::ExpansionTexts::expanded_line))]
pub fn expand_text(alloc: Global, graph: &GraphFile) -> Result<Rows<u8>, NoMemory>
    ensures { IfOk result (λ t. t ≡ expanded_line (length graph.now.actors) (length graph.now.channels)) }
{
    let actors = graph.actors.len();
    let channels = graph.channels.len();
    let text = format!(in alloc; "expanded actors {actors} channels {channels}\n")?;
    Ok(bytes_of(text))
}
