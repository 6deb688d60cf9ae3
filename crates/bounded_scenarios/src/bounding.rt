//! The file whose shared channels have capacities.
ghost use Rattle.std.specs.Prelude.{◌≡◌, ◌≤◌, ◌++◌, IfOk, OnOk, length, map};
ghost use Rattle.sd_base.specs.Scenarios.{FileKeepsRules};
ghost use Rattle.storage.specs.Distributions.{IsDistribution};
ghost use Rattle.bounded_scenarios.specs.SharedChannels.{shared_channels};
ghost use Rattle.bounded_scenarios.specs.BoundedFiles.{bounded_file, bounded_graph, bounded_scenario, space_row, space_rows, space_shares};
ghost use Rattle.bounded_scenarios.specs.inside.Naming.{Covers, CoverAll};

use crate::copies::{copied, copy_actors, copy_channels, copy_shared, copy_states};
use crate::naming::{channel_named, space_name};
use sd_base::{ChannelRow, GraphFile, NoMemory, Rows, ScenarioFile, ScenarioRow, SharedRow};
use std::alloc::Global;
use storage::Distribution;

/// The file bounded by a distribution, by shared row: in each scenario's graph the free space of each shared channel with a
/// capacity stands after the file's channels, in the order of the shared rows; each of these with tokens is a shared row
/// behind the file's. Cost: linear in the file, and for each scenario shared rows times channels.
pub fn bounded_file(
    alloc: Global,
    file: &ScenarioFile,
    capacities: &Distribution,
) -> Result<ScenarioFile, NoMemory>
    requires rules { FileKeepsRules file.now }
    requires distribution { IsDistribution (shared_channels file.now) capacities.now.capacities }
    ensures { IfOk result (λ bounded. bounded ≡ bounded_file file.now capacities.now.capacities) }
{
    let rooms = capacities.capacities.as_slice();
    let shared = file.shared.as_slice();
    let scenarios = bounded_rows(alloc, file.scenarios.as_slice(), shared, rooms)?;
    Ok(ScenarioFile {
        scenarios,
        shared: bounded_shared(alloc, shared, rooms)?,
        states: copy_states(alloc, file.states.as_slice())?,
        initial: file.initial,
    })
}

/// The scenarios with the free spaces in their graphs.
fn bounded_rows(
    alloc: Global,
    scenarios: &[ScenarioRow],
    shared: &[SharedRow],
    rooms: &[Option<u64>],
) -> Result<Rows<ScenarioRow>, NoMemory>
    requires { CoverAll scenarios.now shared.now rooms.now }
    ensures { IfOk result (λ rows. rows ≡ map (bounded_scenario shared.now rooms.now) scenarios.now) }
{
    let mut rows = Rows::new(alloc);
    for scenario in scenarios {
        rows.push(ScenarioRow {
            name: scenario.name.copy(alloc)?,
            graph: bounded_graph(alloc, &scenario.graph, shared, rooms)?,
        })?;
    }
    Ok(rows)
}

/// A scenario's graph with the free spaces.
fn bounded_graph(
    alloc: Global,
    graph: &GraphFile,
    shared: &[SharedRow],
    rooms: &[Option<u64>],
) -> Result<GraphFile, NoMemory>
    requires { Covers graph.now.channels shared.now rooms.now }
    ensures { IfOk result (λ bounded. bounded ≡ bounded_graph shared.now rooms.now graph.now) }
{
    let mut channels = copy_channels(alloc, graph.channels.as_slice())?;
    add_spaces(
        alloc,
        &mut channels,
        graph.channels.as_slice(),
        shared,
        rooms,
    )?;
    Ok(GraphFile {
        kind: graph.kind,
        actors: copy_actors(alloc, graph.actors.as_slice())?,
        channels,
    })
}

/// Adds the free spaces of the shared channels with a capacity, in the order of the shared rows.
fn add_spaces(
    alloc: Global,
    rows: &mut Rows<ChannelRow>,
    channels: &[ChannelRow],
    shared: &[SharedRow],
    rooms: &[Option<u64>],
) -> Result<(), NoMemory>
    requires { Covers channels.now shared.now rooms.now }
    ensures { OnOk result (rows.new ≡ rows.old ++ space_rows channels.now shared.now rooms.now) }
{
    for (place, row) in shared.iter().enumerate() {
        if let Some(room) = rooms[place] {
            let channel = channel_named(channels, &row.name);
            rows.push(space_of(alloc, channel, room)?)?;
        }
    }
    Ok(())
}

/// The free space of a channel at a capacity.
fn space_of(alloc: Global, channel: &ChannelRow, room: u64) -> Result<ChannelRow, NoMemory>
    requires { channel.now.tokens ≤ room }
    ensures { IfOk result (λ space. space ≡ space_row channel.now room) }
{
    Ok(ChannelRow {
        name: space_name(alloc, &channel.name)?,
        source: channel.target,
        target: channel.source,
        made: copied(alloc, &channel.taken)?,
        taken: copied(alloc, &channel.made)?,
        tokens: room - channel.tokens,
        size: channel.size,
    })
}

/// The shared rows of the file, then a row for each free space with tokens.
fn bounded_shared(
    alloc: Global,
    shared: &[SharedRow],
    rooms: &[Option<u64>],
) -> Result<Rows<SharedRow>, NoMemory>
    requires { length rooms.now ≡ length shared.now }
    ensures { IfOk result (λ rows. rows ≡ shared.now ++ space_shares shared.now rooms.now) }
{
    let mut rows = copy_shared(alloc, shared)?;
    for (place, row) in shared.iter().enumerate() {
        if let Some(room) = rooms[place]
            && row.tokens < room
        {
            rows.push(SharedRow {
                name: space_name(alloc, &row.name)?,
                tokens: room - row.tokens,
            })?;
        }
    }
    Ok(rows)
}
