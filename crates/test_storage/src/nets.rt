use firing::SdfNet;
use std::alloc::Global;
use test_nets::{Line, TableError, channel, table_net};

/// The chain `alpha: a 2 -> 3 b`, `beta: b 1 -> 2 c` with times 1, 2 and 2, in which no firings of an actor overlap: its
/// own channels are 2, 3 and 4.
pub(crate) fn chain(alloc: Global) -> Result<SdfNet, TableError> {
    let lines = [channel(0, 2, 3, 1, 0), channel(1, 1, 2, 2, 0)];
    table_net(alloc, &[1, 2, 2], &lines, true)
}

/// The channel `c: a 4 -> 6 b, 1`, whose tokens have size 5, and the self-loop `s: b 1 -> 1 b, 1`.
pub(crate) fn even_rates(alloc: Global) -> Result<SdfNet, TableError> {
    let sized = Line {
        source: 0,
        made: 4,
        taken: 6,
        target: 1,
        tokens: 1,
        size: 5,
    };
    table_net(alloc, &[1, 1], &[sized, channel(1, 1, 1, 1, 1)], false)
}
