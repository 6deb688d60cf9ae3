//! The text of a least completion time.
ghost use Rattle.std.specs.Prelude.{◌≡◌, ◌++◌, IfOk, OnOk, length};
ghost use Rattle.std.specs.String.{string_bytes};
ghost use Rattle.report.specs.CompletionTexts.{complete_header, complete_lines, part_line};

use crate::answers::bytes_of;
use escapes::escaped;
use sd_base::{GraphFile, NoMemory, Rows};
use std::alloc::Global;

/// The text of a least completion time: a line `complete N T` with the rounds and their least time, a line `path S` with the
/// firings of a way of needs of that time, then a line for each actor that has some of them, with its name, its firings and
/// their time.
pub fn complete_text(
    alloc: Global,
    graph: &GraphFile,
    rounds: u64,
    time: u128,
    firings: u64,
    parts: &[(u64, u128)],
) -> Result<Rows<u8>, NoMemory>
    requires { length parts.now ≡ length graph.now.actors }
    ensures { IfOk result (λ t. t ≡ complete_lines graph.now rounds time firings parts.now) }
{
    let actors = graph.actors.as_slice();
    let mut text = header(alloc, rounds, time, firings)?;
    for (i, part) in parts.iter().enumerate() {
        put_part(alloc, &mut text, actors[i].name.as_str(), *part)?;
    }
    Ok(bytes_of(text))
}

#[tactic(auto, unfolding(crate::specs::CompletionTexts::complete_header))]
fn header(alloc: Global, rounds: u64, time: u128, firings: u64) -> Result<String, NoMemory>
    ensures { IfOk result (λ t. string_bytes t ≡ complete_header rounds time firings) }
{
    Ok(format!(in alloc; "complete {rounds} {time}\npath {firings}\n")?)
}

#[tactic(auto, unfolding(crate::specs::CompletionTexts::part_line))]
fn put_part(alloc: Global, text: &mut String, name: &str, part: (u64, u128)) -> Result<(), NoMemory>
    ensures { OnOk result (string_bytes text.new ≡ string_bytes text.old ++ part_line name.now part) }
{
    let (firings, time) = part;
    if firings == 0 {
        return Ok(());
    }
    let shown = escaped(alloc, name)?;
    let name = shown.as_str();
    let line = format!(in alloc; "{name} {firings} {time}\n")?;
    text.push_str(line.as_str())?;
    Ok(())
}
