ghost use Rattle.std.specs.Prelude.{◌≡◌, ◌<◌, IfOk, length};
ghost use Rattle.sd_steps.specs.ActorNames.{actor_shown};

use escapes::escaped;
use sd_base::{GraphFile, NoMemory, Text};
use std::alloc::Global;

/// The printed name of an actor.
pub(crate) fn name_of(alloc: Global, graph: &GraphFile, actor: u32) -> Result<Text, NoMemory>
    requires { actor < length graph.now.actors }
    ensures { IfOk result (λ t. t ≡ actor_shown graph.now actor) }
{
    escaped(alloc, graph.actors.as_slice()[actor as usize].name.as_str())
}
