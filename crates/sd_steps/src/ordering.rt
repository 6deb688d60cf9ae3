ghost use Rattle.std.specs.Prelude.{◌≡◌, length};
ghost use Rattle.sd_base.specs.Tables.{KeepsRules};
ghost use Rattle.sd_steps.specs.Orderings.{ordering};
ghost use Rattle.sd_steps.specs.Steps.{Does};

use crate::actor_names::name_of;
use crate::reading::above;
use crate::stop::Stop;
use escapes::escaped;
use ordered::{OrderError, Orders, orders_of};
use report::Refusal;
use sd_base::{GraphFile, Quantity, Rows, Text};
use std::alloc::Global;

/// The orders that words give to the actors of a graph with its repetition vector.
pub fn in_orders(
    alloc: Global,
    graph: &GraphFile,
    gamma: &[u64],
    lists: &[Rows<Text>],
) -> Result<Orders, Stop>
    requires rules { KeepsRules graph.now }
    requires gamma { length gamma.now ≡ length graph.now.actors }
    ensures { Does (ordering graph.now gamma.now lists.now) result }
{
    match orders_of(alloc, graph, gamma, lists) {
        Ok(orders) => Ok(orders),
        Err(OrderError::Unknown { name }) => Err(Stop::Refused(Refusal::UnknownActor {
            name: escaped(alloc, name.as_str())?,
        })),
        Err(OrderError::Elsewhere { name }) => Err(Stop::Refused(Refusal::TwoProcessors {
            name: escaped(alloc, name.as_str())?,
        })),
        Err(OrderError::Count { actor, found }) => Err(Stop::Refused(Refusal::OrderCount {
            name: name_of(alloc, graph, actor)?,
            found,
            gamma: gamma[actor as usize],
        })),
        Err(OrderError::TooManyPairs) => Err(Stop::Refused(above(alloc, Quantity::OrderPairs)?)),
        Err(OrderError::NoMemory) => Err(Stop::OutOfMemory),
    }
}
