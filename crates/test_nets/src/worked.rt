use crate::table::{TableError, channel, table_net};
use firing::SdfNet;
use std::alloc::Global;

/// Actor x of time 2 and actor y of time 3 with one token between them: `xy: x 1 -> 1 y`, `yx: y 1 -> 1 x, 1`.
pub fn ring_of_two(alloc: Global) -> Result<SdfNet, TableError> {
    let lines = [channel(0, 1, 1, 1, 0), channel(1, 1, 1, 0, 1)];
    table_net(alloc, &[2, 3], &lines, false)
}

/// One actor of time 7 with three tokens on its self-loop, so that three of its firings overlap.
pub fn three_at_once(alloc: Global) -> Result<SdfNet, TableError> {
    table_net(alloc, &[7], &[channel(0, 1, 1, 0, 3)], false)
}

/// Two actors that wait for each other: `ab: a 1 -> 1 b`, `ba: b 1 -> 1 a`.
pub fn blocked_pair(alloc: Global) -> Result<SdfNet, TableError> {
    let lines = [channel(0, 1, 1, 1, 0), channel(1, 1, 1, 0, 0)];
    table_net(alloc, &[1, 1], &lines, false)
}

/// Actor x of time 4 and actor y of time 5: `p: x 2 -> 1 y`, `q: y 1 -> 2 x, 8`, `sx: x 1 -> 1 x, 1`,
/// `sy: y 1 -> 1 y, 1`.
pub fn multi_rate_ring(alloc: Global) -> Result<SdfNet, TableError> {
    let lines = [
        channel(0, 2, 1, 1, 0),
        channel(1, 1, 2, 0, 8),
        channel(0, 1, 1, 0, 1),
        channel(1, 1, 1, 1, 1),
    ];
    table_net(alloc, &[4, 5], &lines, false)
}

/// A video decoder: variable length decoding of a frame, inverse quantization and inverse cosine transform of each
/// of its 2376 blocks, and motion compensation (Stuijk, Geilen and Basten 2008). Each buffer has room for twice the
/// greater of its rates.
pub fn decoder(alloc: Global) -> Result<SdfNet, TableError> {
    let lines = [
        channel(0, 2376, 1, 1, 0),
        channel(1, 1, 1, 2, 0),
        channel(2, 1, 2376, 3, 0),
        channel(1, 1, 2376, 0, 4752),
        channel(2, 1, 1, 1, 2),
        channel(3, 2376, 1, 2, 4752),
    ];
    table_net(alloc, &[26_018, 559, 486, 10_958], &lines, true)
}

/// The chain that converts samples from 44.1 to 48 kHz, with rates 1:1, 2:3, 2:7, 8:7 and 5:1. Each buffer has room
/// for twice the sum of its rates.
pub fn sample_rate_converter(alloc: Global) -> Result<SdfNet, TableError> {
    let lines = [
        channel(0, 1, 1, 1, 0),
        channel(1, 2, 3, 2, 0),
        channel(2, 2, 7, 3, 0),
        channel(3, 8, 7, 4, 0),
        channel(4, 5, 1, 5, 0),
        channel(1, 1, 1, 0, 4),
        channel(2, 3, 2, 1, 10),
        channel(3, 7, 2, 2, 18),
        channel(4, 7, 8, 3, 30),
        channel(5, 1, 5, 4, 12),
    ];
    table_net(alloc, &[1, 1, 1, 1, 1, 1], &lines, true)
}

/// A ring of actors of time 1 with one token. There may be 1 to 128 of them.
pub fn token_ring(alloc: Global, actors: u32) -> Result<SdfNet, TableError> {
    let mut times = Vec::new(alloc);
    let mut lines = Vec::new(alloc);
    for actor in 0..actors {
        let last = actor + 1 == actors;
        let next = if last { 0 } else { actor + 1 };
        times.push(1)?;
        lines.push(channel(actor, 1, 1, next, if last { 1 } else { 0 }))?;
    }
    table_net(alloc, times.as_slice(), lines.as_slice(), false)
}
