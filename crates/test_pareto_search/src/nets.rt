use firing::SdfNet;
use std::alloc::Global;
use test_nets::{Line, TableError, channel, table_net};

/// The chain `alpha: a 2 -> 3 b`, `beta: b 1 -> 2 c` with times 1, 2 and 2, in which no firings of an actor overlap. Its
/// tokens have these sizes.
pub(crate) fn chain(alloc: Global, sizes: (u64, u64)) -> Result<SdfNet, TableError> {
    let alpha = Line {
        source: 0,
        made: 2,
        taken: 3,
        target: 1,
        tokens: 0,
        size: sizes.0,
    };
    let beta = Line {
        source: 1,
        made: 1,
        taken: 2,
        target: 2,
        tokens: 0,
        size: sizes.1,
    };
    table_net(alloc, &[1, 2, 2], &[alpha, beta], true)
}

/// Two channels `a 1 -> 1 b` with times 1, in which no firings of an actor overlap.
pub(crate) fn twin_channels(alloc: Global) -> Result<SdfNet, TableError> {
    let lines = [channel(0, 1, 1, 1, 0), channel(0, 1, 1, 1, 0)];
    table_net(alloc, &[1, 1], &lines, true)
}

/// So many channels `a 2 -> 3 b` with times 1, in which no firings of an actor overlap.
pub(crate) fn parallel_channels(alloc: Global, many: usize) -> Result<SdfNet, TableError> {
    let lines = vec![in alloc; channel(0, 2, 3, 1, 0); many]?;
    table_net(alloc, &[1, 1], lines.as_slice(), true)
}
