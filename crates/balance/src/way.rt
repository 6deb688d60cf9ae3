ghost use Rattle.std.specs.Prelude.{◌≡◌, ◌<◌, IfOk, Some, length, slice_get};
ghost use Rattle.balance.specs.inside.Search.{HasEntries, IsFound, IsWayAt, IsWayTo};

use crate::search::Found;
use crate::walk::WalkStep;
use std::alloc::{AllocError, Global};

/// The way to a found actor.
pub(crate) fn way_to(
    alloc: Global,
    found: &[Found],
    actor: usize,
) -> Result<Vec<WalkStep>, AllocError>
    requires found { IsFound found.now actor }
    requires read { HasEntries found.now }
    ensures { IfOk result (λ way. IsWayTo found.now actor way.items) }
{
    way_at(alloc, found, place_of(found, actor))
}

/// The place at which an actor was found.
fn place_of(found: &[Found], actor: usize) -> usize
    requires { IsFound found.now actor }
    ensures { (x : _) × (slice_get found.now result ≡ Some x) × (x.actor ≡ actor) }
{
    for place in 0..found.len() {
        if found[place].actor == actor {
            return place;
        }
    }
    unreachable!()
}

/// The way to the actor that was found at a place, read back step by step. Linear in its steps.
pub(crate) fn way_at(
    alloc: Global,
    found: &[Found],
    place: usize,
) -> Result<Vec<WalkStep>, AllocError>
    requires place { place < length found.now }
    requires read { HasEntries found.now }
    ensures { IfOk result (λ way. IsWayAt found.now place way.items) }
{
    let mut way = Vec::new(alloc);
    let mut here = place;
    'back: while let Some(reach) = found[here].reach {
        way.push(reach.step)?;
        here = reach.place;
    }
    way.reverse();
    Ok(way)
}
