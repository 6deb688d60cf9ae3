use sd_base::{ActorRow, ChannelRow, GraphFile, Kind, NoMemory, Rows, SharedRow, Text};
use std::alloc::Global;
use test_nets::Line;

/// The graph of actors by their times and of channels by their names.
pub(crate) fn graph_of(
    alloc: Global,
    times: &[u64],
    channels: &[(&str, Line)],
) -> Result<GraphFile, NoMemory> {
    let actors = actor_rows(alloc, times)?;
    let channels = channel_rows(alloc, channels)?;
    Ok(GraphFile {
        kind: Kind::Sdf,
        actors,
        channels,
    })
}

fn actor_rows(alloc: Global, times: &[u64]) -> Result<Rows<ActorRow>, NoMemory> {
    let mut rows = Rows::new(alloc);
    for time in times {
        rows.push(actor_row(alloc, *time)?)?;
    }
    Ok(rows)
}

fn actor_row(alloc: Global, time: u64) -> Result<ActorRow, NoMemory> {
    Ok(ActorRow {
        name: Text::of(alloc, "a")?,
        phases: 1,
        times: single(alloc, time)?,
    })
}

fn channel_rows(alloc: Global, channels: &[(&str, Line)]) -> Result<Rows<ChannelRow>, NoMemory> {
    let mut rows = Rows::new(alloc);
    for (name, line) in channels {
        rows.push(channel_row(alloc, name, line)?)?;
    }
    Ok(rows)
}

fn channel_row(alloc: Global, name: &str, line: &Line) -> Result<ChannelRow, NoMemory> {
    Ok(ChannelRow {
        name: Text::of(alloc, name)?,
        source: line.source,
        target: line.target,
        made: single(alloc, line.made)?,
        taken: single(alloc, line.taken)?,
        tokens: line.tokens,
        size: line.size,
    })
}

fn single(alloc: Global, number: u64) -> Result<Rows<u64>, NoMemory> {
    let mut rows = Rows::new(alloc);
    rows.push(number)?;
    Ok(rows)
}

/// Shared channels by their names and tokens.
pub(crate) fn shared_rows(
    alloc: Global,
    channels: &[(&str, u64)],
) -> Result<Rows<SharedRow>, NoMemory> {
    let mut rows = Rows::new(alloc);
    for (name, tokens) in channels {
        rows.push(SharedRow {
            name: Text::of(alloc, name)?,
            tokens: *tokens,
        })?;
    }
    Ok(rows)
}
