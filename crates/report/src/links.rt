ghost use Rattle.std.specs.Prelude.{◌≡◌, ◌<◌, ◌++◌, OnOk, length};
ghost use Rattle.std.specs.String.{string_bytes};
ghost use Rattle.report.specs.LinkTexts.{actor_name, channel_name, link_text, IsRoleIn};

use escapes::put_escaped;
use sd_base::{GraphFile, Role};
use std::alloc::AllocError;

/// Puts the name of an actor at the end of a text.
#[tactic(auto, unfolding(crate::specs::LinkTexts::actor_name))]
pub(crate) fn put_actor(text: &mut String, graph: &GraphFile, actor: u32) -> Result<(), AllocError>
    requires { actor < length graph.now.actors }
    ensures { OnOk result (string_bytes text.new ≡ string_bytes text.old ++ actor_name graph.now actor) }
{
    put_escaped(text, graph.actors.as_slice()[actor as usize].name.as_str())
}

/// Puts the name of a channel of the file at the end of a text.
#[tactic(auto, unfolding(crate::specs::LinkTexts::channel_name))]
fn put_channel(text: &mut String, graph: &GraphFile, channel: u32) -> Result<(), AllocError>
    requires { channel < length graph.now.channels }
    ensures { OnOk result (string_bytes text.new ≡ string_bytes text.old ++ channel_name graph.now channel) }
{
    put_escaped(
        text,
        graph.channels.as_slice()[channel as usize].name.as_str(),
    )
}

/// Puts a link at the end of a text: the name of a channel for its tokens, `NAME/space` for its free space,
/// `ACTOR/self` for the own channel of an actor, and `ACTOR>ACTOR/order` for an edge of a processor's order.
#[tactic(auto, unfolding(crate::specs::LinkTexts::link_text))]
pub(crate) fn put_link(text: &mut String, graph: &GraphFile, role: Role) -> Result<(), AllocError>
    requires { IsRoleIn graph.now role }
    ensures { OnOk result (string_bytes text.new ≡ string_bytes text.old ++ link_text graph.now role) }
{
    match role {
        Role::Token(channel) => put_channel(text, graph, channel),
        Role::Own(actor) => {
            put_actor(text, graph, actor)?;
            text.push_str("/self")
        }
        Role::Space(channel) => {
            put_channel(text, graph, channel)?;
            text.push_str("/space")
        }
        Role::Order(from, to) => {
            put_actor(text, graph, from)?;
            text.push_str(">")?;
            put_actor(text, graph, to)?;
            text.push_str("/order")
        }
    }
}
