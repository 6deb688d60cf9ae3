ghost use Rattle.std.specs.Prelude.{◌≡◌, ◌<◌, ◌≤◌, [], ◌∷◌, IfOk, All, length, map, replicate};
ghost use Rattle.sd_base.specs.declared.tables.Kind.TheVariants.{Sdf};
ghost use Rattle.sd_base.specs.Tables.{ActorKeepsRules, ChannelKeepsRules, KeepsRules};

use sd_base::{ActorRow, ChannelRow, GraphFile, Kind, Rows, Text};
use std::alloc::{AllocError, Global};

/// A chain of actors, of which every second one fires twice in a round. Channel i leads along the chain's link i, and
/// past the last link from the first one on again.
pub fn chain(alloc: Global, actors: u32, channels: u32) -> Result<GraphFile, AllocError>
    requires some_actor { 1 ≤ actors }
    requires few_actors { actors ≤ 128 }
    requires few_channels { channels ≤ 256 }
    ensures { IfOk result KeepsRules }
{
    Ok(GraphFile {
        kind: Kind::Sdf,
        actors: actor_rows(alloc, actors)?,
        channels: channel_rows(alloc, actors, channels)?,
    })
}

fn actor_rows(alloc: Global, actors: u32) -> Result<Rows<ActorRow>, AllocError>
    ensures phases { IfOk result (λ rows. map (λ a. a.phases) rows ≡ replicate actors 1) }
    ensures rules { IfOk result (All (ActorKeepsRules Sdf)) }
{
    let mut rows = Rows::new(alloc);
    for _actor in 0..actors {
        rows.push(actor_row(alloc))?;
    }
    Ok(rows)
}

/// An actor of one phase.
fn actor_row(alloc: Global) -> ActorRow
    ensures phases { result.phases ≡ 1 }
    ensures rules { ActorKeepsRules Sdf result }
{
    ActorRow {
        name: Text::new(String::new(alloc)),
        phases: 1,
        times: Rows::new(alloc),
    }
}

fn channel_rows(alloc: Global, actors: u32, channels: u32) -> Result<Rows<ChannelRow>, AllocError>
    requires { 1 ≤ actors }
    ensures size { IfOk result (λ rows. length rows ≡ channels) }
    ensures rules { IfOk result (All (ChannelKeepsRules (replicate actors 1))) }
{
    let last = actors - 1;
    let mut rows = Rows::new(alloc);
    for channel in 0..channels {
        let source = channel % last.max(1);
        rows.push(channel_row(alloc, source, (source + 1).min(last))?)?;
    }
    Ok(rows)
}

/// A channel between two actors, with rates that their firings balance.
fn channel_row(alloc: Global, source: u32, target: u32) -> Result<ChannelRow, AllocError>
    ensures ends { IfOk result (λ c. (c.source ≡ source) × (c.target ≡ target)) }
    ensures rules { IfOk result (λ c. (actors : _) → source < actors → target < actors → ChannelKeepsRules (replicate actors 1) c) }
{
    Ok(ChannelRow {
        name: Text::new(String::new(alloc)),
        source,
        target,
        made: rate(alloc, firings_of(target))?,
        taken: rate(alloc, firings_of(source))?,
        tokens: 0,
        size: 1,
    })
}

fn rate(alloc: Global, tokens: u64) -> Result<Rows<u64>, AllocError>
    ensures { IfOk result (λ rows. rows ≡ tokens ∷ []) }
{
    let mut rows = Rows::new(alloc);
    rows.push(tokens)?;
    Ok(rows)
}

/// How often an actor fires in a round of the whole chain.
fn firings_of(actor: u32) -> u64
    ensures some { 1 ≤ result }
    ensures few { result ≤ 2 }
{
    u64::from(1 + actor % 2)
}
