ghost use Rattle.std.specs.Prelude.{◌≡◌, IfOk};
ghost use Rattle.std.specs.String.{string_bytes};
ghost use Rattle.gen_graph.specs.GraphTrees.{direction_word, port_name};
ghost use Rattle.gen_graph.specs.inside.EndWords.{actor_word, port_word};

use std::alloc::{AllocError, Global};

/// At which end of a channel a port is.
#[derive(Clone, Copy)]
pub(crate) enum Direction {
    /// At its source: tokens go out.
    Out,
    /// At its target: tokens come in.
    In,
}

impl Direction {
    pub(crate) fn word(self) -> &'static str
        ensures { result.now ≡ direction_word self }
    {
        match self {
            Direction::Out => "out",
            Direction::In => "in",
        }
    }

    /// The word of a channel for the actor at this end.
    pub(crate) fn actor_word(self) -> &'static str
        ensures { result.now ≡ actor_word self }
    {
        match self {
            Direction::Out => "srcActor",
            Direction::In => "dstActor",
        }
    }

    /// The word of a channel for the port at this end.
    pub(crate) fn port_word(self) -> &'static str
        ensures { result.now ≡ port_word self }
    {
        match self {
            Direction::Out => "srcPort",
            Direction::In => "dstPort",
        }
    }
}

/// The name of the port of a channel at one of its ends.
#[tactic(auto, unfolding(crate::specs::GraphTrees::port_name))]
pub(crate) fn port_name(
    alloc: Global,
    direction: Direction,
    channel: usize,
) -> Result<String, AllocError>
    ensures { IfOk result (λ t. string_bytes t ≡ port_name direction channel) }
{
    match direction {
        Direction::Out => format!(in alloc; "o{channel}"),
        Direction::In => format!(in alloc; "i{channel}"),
    }
}
