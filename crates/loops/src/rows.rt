//! Rows of starts: by actor its starts, ascending.
ghost use Rattle.std.specs.Prelude.{◌≡◌, [], IfOk, length, replicate};

use firing::Firing;
use sd_base::{NoMemory, Rows};
use std::alloc::Global;

/// For how many starts, or events, there is room at first, at most and at least.
const ROOM: u64 = 8_192;

const LEAST_ROOM: u64 = 16;

/// How many firings a round has.
pub fn starts_of_round<F: Firing>(net: &F) -> u64 {
    let mut starts = 0u64;
    for actor in 0..net.actors() {
        starts = starts.saturating_add(net.round(actor));
    }
    starts
}

/// Room for twice so many starts, or for as many events, if these are few, and for some more if they are very few.
pub fn room_for(starts: u64) -> usize {
    starts.saturating_mul(2).max(LEAST_ROOM).min(ROOM) as usize
}

/// An empty row by actor, with room for the starts of two rounds if these are few.
pub fn empty_rows<F: Firing>(alloc: Global, net: &F) -> Result<Vec<Rows<u64>>, NoMemory>
    ensures { IfOk result (λ rows. rows.items ≡ replicate (length (F.net net.now).times) []) }
{
    let mut rows = Vec::new(alloc);
    for actor in 0..net.actors() {
        let row = Vec::with_capacity(alloc, room_for(net.round(actor)))?;
        rows.push(Rows::from_vec(row))?;
    }
    Ok(rows)
}
