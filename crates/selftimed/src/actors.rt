ghost use Rattle.std.specs.Prelude.{◌≡◌, OnOk, replicate};
ghost use Rattle.selftimed.specs.inside.Actors.{fresh_one};

use crate::running::Running;
use sd_base::NoMemory;
use std::alloc::Global;

/// Where an actor stands: how many of its firings have started and ended, the ends of those between, whether
/// it is to be looked at, and if not, a channel that lacks tokens for its next firing.
#[derive(Debug, Drop)]
pub(crate) struct ActorState {
    pub(crate) started: u64,
    pub(crate) ended: u64,
    pub(crate) running: Running,
    pub(crate) touched: bool,
    pub(crate) lacking: u32,
}

/// Makes of a list so many actors of which nothing has started, all to be looked at. It allocates nothing where there were as
/// many.
pub(crate) fn refresh(
    alloc: Global,
    actors: &mut Vec<ActorState>,
    count: u32,
) -> Result<(), NoMemory>
    ensures { OnOk result (actors.new.items ≡ replicate count fresh_one) }
{
    actors.clear();
    for _actor in 0..count {
        actors.push(ActorState {
            started: 0,
            ended: 0,
            running: Running::new(alloc),
            touched: true,
            lacking: 0,
        })?;
    }
    Ok(())
}
