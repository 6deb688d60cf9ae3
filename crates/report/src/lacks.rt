ghost use Rattle.std.specs.Prelude.{◌≡◌, ◌<◌, ◌++◌, IfOk, OnOk, length};
ghost use Rattle.std.specs.String.{string_bytes};
ghost use Rattle.report.specs.LinkTexts.{IsNamed, IsRoleIn};
ghost use Rattle.report.specs.LackTexts.{lack_text, lacks_list, HasLacks};

use crate::links::{put_actor, put_link};
use firing::Firing;
use sd_base::{GraphFile, NoMemory, Role, Text};
use std::alloc::{AllocError, Global};

/// What each actor lacks of a net in which no round can be completed, with `, ` between: its name, its
/// firings of those of a round, and the link on which it lacks tokens. `counts` are the firings by actor,
/// and `lacks` names the first lacking channel of each actor below its round.
pub fn lacks_text<F: Firing>(
    alloc: Global,
    net: &F,
    graph: &GraphFile,
    counts: &[u64],
    lacks: &[Option<u32>],
) -> Result<Text, NoMemory>
    requires net { IsNamed graph.now (F.net net.now) }
    requires lacks { HasLacks (F.net net.now) counts.now lacks.now }
    ensures { IfOk result (λ t. t ≡ lacks_list graph.now (F.net net.now) counts.now lacks.now) }
{
    let mut text = String::new(alloc);
    let mut between = "";
    for actor in 0..net.actors() {
        if let Some(channel) = lacks[actor as usize] {
            text.push_str(between)?;
            let fired = counts[actor as usize];
            put_lack(
                &mut text,
                graph,
                actor,
                fired,
                net.round(actor),
                net.role(channel),
            )?;
            between = ", ";
        }
    }
    Ok(Text::new(text))
}

#[tactic(auto, unfolding(crate::specs::LackTexts::lack_text))]
pub(crate) fn put_lack(
    text: &mut String,
    graph: &GraphFile,
    actor: u32,
    fired: u64,
    round: u64,
    role: Role,
) -> Result<(), AllocError>
    requires actor { actor < length graph.now.actors }
    requires role { IsRoleIn graph.now role }
    ensures { OnOk result (string_bytes text.new ≡ string_bytes text.old ++ lack_text graph.now actor fired round role) }
{
    put_actor(text, graph, actor)?;
    write!(text, " {fired} of {round} lacks ")?;
    put_link(text, graph, role)
}
