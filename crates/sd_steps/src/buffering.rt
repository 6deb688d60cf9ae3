ghost use Rattle.sd_steps.specs.Bufferings.{buffering};
ghost use Rattle.sd_steps.specs.Steps.{Does};

use crate::stop::Stop;
use escapes::escaped;
use report::Refusal;
use sd_base::{GraphFile, Text};
use std::alloc::Global;
use storage::{BufferError, Distribution, buffers_of};

/// The distribution that words give to the channels of a graph.
pub fn buffered(
    alloc: Global,
    graph: &GraphFile,
    buffers: &[(Text, u64)],
) -> Result<Distribution, Stop>
    ensures { Does (buffering graph.now buffers.now) result }
{
    match buffers_of(alloc, graph, buffers) {
        Ok(distribution) => Ok(distribution),
        Err(BufferError::Unknown { name }) => Err(Stop::Refused(Refusal::UnknownChannel {
            name: escaped(alloc, name.as_str())?,
        })),
        Err(BufferError::SelfLoop { name }) => Err(Stop::Refused(Refusal::SelfLoopBuffer {
            name: escaped(alloc, name.as_str())?,
        })),
        Err(BufferError::BelowTokens { name }) => Err(Stop::Refused(Refusal::BelowTokens {
            name: escaped(alloc, name.as_str())?,
        })),
        Err(BufferError::NoMemory) => Err(Stop::OutOfMemory),
    }
}
