//! Rows of tables once more.
ghost use Rattle.std.specs.Prelude.{◌≡◌, IfOk};

use sd_base::{ActorRow, ChannelRow, NoMemory, Rows, SharedRow, StateRow};
use std::alloc::Global;

pub(crate) fn copy_actors(alloc: Global, actors: &[ActorRow]) -> Result<Rows<ActorRow>, NoMemory>
    ensures { IfOk result (λ rows. rows ≡ actors.now) }
{
    let mut rows = Rows::new(alloc);
    for actor in actors {
        rows.push(copy_actor(alloc, actor)?)?;
    }
    Ok(rows)
}

pub(crate) fn copy_channels(
    alloc: Global,
    channels: &[ChannelRow],
) -> Result<Rows<ChannelRow>, NoMemory>
    ensures { IfOk result (λ rows. rows ≡ channels.now) }
{
    let mut rows = Rows::new(alloc);
    for channel in channels {
        rows.push(copy_channel(alloc, channel)?)?;
    }
    Ok(rows)
}

pub(crate) fn copy_shared(alloc: Global, shared: &[SharedRow]) -> Result<Rows<SharedRow>, NoMemory>
    ensures { IfOk result (λ rows. rows ≡ shared.now) }
{
    let mut rows = Rows::new(alloc);
    for row in shared {
        rows.push(SharedRow {
            name: row.name.copy(alloc)?,
            tokens: row.tokens,
        })?;
    }
    Ok(rows)
}

pub(crate) fn copy_states(alloc: Global, states: &[StateRow]) -> Result<Rows<StateRow>, NoMemory>
    ensures { IfOk result (λ rows. rows ≡ states.now) }
{
    let mut rows = Rows::new(alloc);
    for state in states {
        rows.push(copy_state(alloc, state)?)?;
    }
    Ok(rows)
}

fn copy_actor(alloc: Global, actor: &ActorRow) -> Result<ActorRow, NoMemory>
    ensures { IfOk result (λ row. row ≡ actor.now) }
{
    Ok(ActorRow {
        name: actor.name.copy(alloc)?,
        phases: actor.phases,
        times: copied(alloc, &actor.times)?,
    })
}

fn copy_channel(alloc: Global, channel: &ChannelRow) -> Result<ChannelRow, NoMemory>
    ensures { IfOk result (λ row. row ≡ channel.now) }
{
    Ok(ChannelRow {
        name: channel.name.copy(alloc)?,
        source: channel.source,
        target: channel.target,
        made: copied(alloc, &channel.made)?,
        taken: copied(alloc, &channel.taken)?,
        tokens: channel.tokens,
        size: channel.size,
    })
}

fn copy_state(alloc: Global, state: &StateRow) -> Result<StateRow, NoMemory>
    ensures { IfOk result (λ row. row ≡ state.now) }
{
    Ok(StateRow {
        name: state.name.copy(alloc)?,
        scenario: state.scenario,
        next: Rows::from_vec(Vec::from_slice(alloc, state.next.as_slice())?),
    })
}

pub(crate) fn copied(alloc: Global, numbers: &Rows<u64>) -> Result<Rows<u64>, NoMemory>
    ensures { IfOk result (λ rows. rows ≡ numbers.now) }
{
    Ok(Rows::from_vec(Vec::from_slice(alloc, numbers.as_slice())?))
}
