ghost use Rattle.std.specs.Prelude.{◌≡◌, ◌<◌, ◌++◌, All, IfOk, OnOk, length};
ghost use Rattle.std.specs.String.{string_bytes};
ghost use Rattle.report.specs.WalkTexts.{more_steps, step_text, steps_text};

use balance::WalkStep;
use escapes::escaped;
use sd_base::{GraphFile, NoMemory, Text};
use std::alloc::Global;

/// The steps of a path or a walk, with spaces between them: `+` forward or `-` backward and the channel's name.
#[tactic(auto, unfolding(crate::specs::WalkTexts::steps_text))]
pub fn walk_text(alloc: Global, graph: &GraphFile, walk: &[WalkStep]) -> Result<Text, NoMemory>
    requires { All (λ s. s.channel < length graph.now.channels) walk.now }
    ensures { IfOk result (λ t. t ≡ steps_text graph.now walk.now) }
{
    match walk {
        [] => Ok(Text::new(String::new(alloc))),
        [first, rest @ ..] => {
            let mut text = String::new(alloc);
            put_step(alloc, &mut text, graph, *first)?;
            put_more(alloc, &mut text, graph, rest)?;
            Ok(Text::new(text))
        }
    }
}

fn put_more(
    alloc: Global,
    text: &mut String,
    graph: &GraphFile,
    steps: &[WalkStep],
) -> Result<(), NoMemory>
    requires { All (λ s. s.channel < length graph.now.channels) steps.now }
    ensures { OnOk result (string_bytes text.new ≡ string_bytes text.old ++ more_steps graph.now steps.now) }
{
    for step in steps {
        text.push_str(" ")?;
        put_step(alloc, text, graph, *step)?;
    }
    Ok(())
}

#[tactic(auto, unfolding(crate::specs::WalkTexts::step_text))]
fn put_step(
    alloc: Global,
    text: &mut String,
    graph: &GraphFile,
    step: WalkStep,
) -> Result<(), NoMemory>
    requires { step.channel < length graph.now.channels }
    ensures { OnOk result (string_bytes text.new ≡ string_bytes text.old ++ step_text graph.now step) }
{
    let channel = &graph.channels.as_slice()[step.channel as usize];
    let name = escaped(alloc, channel.name.as_str())?;
    text.push(if step.forward { '+' } else { '-' })?;
    text.push_str(name.as_str())?;
    Ok(())
}
