ghost use Rattle.std.specs.Prelude.{◌≡◌, ◌↔◌, IsTrue, length, map, nat_lt, All};
ghost use Rattle.std.specs.List.{list_any};
ghost use Rattle.sd_base.specs.declared.tables.Kind.TheVariants.{Sdf};
ghost use Rattle.sd_base.specs.Tables.{ActorKeepsRules, ChannelKeepsRules, KeepsRules, PortKeepsRules, IsTimed};

use balance::{BalanceError, repetition};
use firing::SdfNet;
use sd_base::limits::{ACTORS, CHANNELS, RATE, SIZE, TIME, TOKENS};
use sd_base::{ActorRow, ChannelRow, GraphFile, Kind, NoMemory, Rows, Text};
use std::alloc::{AllocError, AllocFailed, Global};
use thiserror::Error;

/// A channel from the actor `source`, whose firings make `made` tokens, to the actor `target`, whose firings take
/// `taken` tokens. It starts with `tokens` tokens, each of which needs `size` memory.
#[derive(Clone, Copy, Debug)]
pub struct Line {
    pub source: u32,
    pub made: u64,
    pub taken: u64,
    pub target: u32,
    pub tokens: u64,
    pub size: u64,
}

/// The channel that is written `source made -> taken target, tokens`, whose tokens have size 1.
pub const fn channel(source: u32, made: u64, taken: u64, target: u32, tokens: u64) -> Line
    ensures { result ≡ record { source = source; made = made; taken = taken; target = target; tokens = tokens; size = 1 } }
{
    Line {
        source,
        made,
        taken,
        target,
        tokens,
        size: 1,
    }
}

/// Why a table gives no net.
#[derive(Debug, Drop, Error)]
pub enum TableError {
    /// A number is outside its limit, or names no actor.
    #[error("a number of the table is out of its range")]
    OutOfRange,
    /// The rates of the channels have no round.
    #[error("the table isn't balanced: {0}")]
    Unbalanced(BalanceError),
    #[error("out of memory")]
    NoMemory,
}

impl From<BalanceError> for TableError {
    fn from(error: BalanceError) -> TableError {
        TableError::Unbalanced(error)
    }
}

impl From<NoMemory> for TableError {
    fn from(_error: NoMemory) -> TableError {
        TableError::NoMemory
    }
}

impl From<AllocError> for TableError {
    fn from(_error: AllocError) -> TableError {
        TableError::NoMemory
    }
}

impl<T: Drop> From<AllocFailed<T>> for TableError {
    fn from(_error: AllocFailed<T>) -> TableError {
        TableError::NoMemory
    }
}

/// The net of a table: the time of each actor, the channels, and own channels where no firings may overlap. Cost:
/// that of `balance::repetition` and `SdfNet::new`.
pub fn table_net(
    alloc: Global,
    times: &[u64],
    lines: &[Line],
    no_overlap: bool,
) -> Result<SdfNet, TableError> {
    let graph = GraphFile {
        kind: Kind::Sdf,
        actors: actor_rows(alloc, times)?,
        channels: channel_rows(alloc, lines)?,
    };
    if !is_lawful(&graph) {
        return Err(TableError::OutOfRange);
    }
    let gamma = repetition(alloc, &graph)?;
    Ok(SdfNet::new(alloc, &graph, gamma.as_slice(), no_overlap)?)
}

fn actor_rows(alloc: Global, times: &[u64]) -> Result<Rows<ActorRow>, NoMemory> {
    let mut rows = Rows::new(alloc);
    for time in times {
        rows.push(ActorRow {
            name: Text::new(String::new(alloc)),
            phases: 1,
            times: single(alloc, *time)?,
        })?;
    }
    Ok(rows)
}

fn channel_rows(alloc: Global, lines: &[Line]) -> Result<Rows<ChannelRow>, NoMemory> {
    let mut rows = Rows::new(alloc);
    for line in lines {
        rows.push(ChannelRow {
            name: Text::new(String::new(alloc)),
            source: line.source,
            target: line.target,
            made: single(alloc, line.made)?,
            taken: single(alloc, line.taken)?,
            tokens: line.tokens,
            size: line.size,
        })?;
    }
    Ok(rows)
}

fn single(alloc: Global, number: u64) -> Result<Rows<u64>, NoMemory> {
    let mut rows = Rows::new(alloc);
    rows.push(number)?;
    Ok(rows)
}

/// Whether a synchronous graph table keeps its rules and has its times.
pub fn is_lawful(graph: &GraphFile) -> bool
    ensures { IsTrue result ↔ ((graph.now.kind ≡ Sdf) × KeepsRules graph.now × IsTimed graph.now) }
{
    let actors = graph.actors.as_slice();
    let channels = graph.channels.as_slice();
    if graph.kind != Kind::Sdf
        || actors.len() < 1
        || actors.len() > ACTORS as usize
        || channels.len() > CHANNELS as usize
    {
        return false;
    }
    actors_keep(actors) && channels_keep(actors, channels)
}

/// Whether each actor keeps its rules and has its times.
fn actors_keep(actors: &[ActorRow]) -> bool
    ensures { IsTrue result ↔ All (λ a. ActorKeepsRules Sdf a × (length a.times ≡ a.phases)) actors.now }
{
    actors.iter().all(|actor| actor_keeps(actor))
}

fn actor_keeps(actor: &ActorRow) -> bool
    ensures { IsTrue result ↔ (ActorKeepsRules Sdf actor.now × (length actor.now.times ≡ actor.now.phases)) }
{
    actor.phases == 1
        && actor.times.len() == 1
        && actor
            .times
            .as_slice()
            .iter()
            .all(|time| 1 <= *time && *time <= TIME)
}

fn channels_keep(actors: &[ActorRow], channels: &[ChannelRow]) -> bool
    ensures { IsTrue result ↔ All (ChannelKeepsRules (map (λ a. a.phases) actors.now)) channels.now }
{
    channels
        .iter()
        .all(|channel| channel_keeps(actors, channel))
}

fn channel_keeps(actors: &[ActorRow], channel: &ChannelRow) -> bool
    ensures { IsTrue result ↔ ChannelKeepsRules (map (λ a. a.phases) actors.now) channel.now }
{
    let source = channel.source as usize;
    let target = channel.target as usize;
    source < actors.len()
        && target < actors.len()
        && port_keeps(actors[source].phases, channel.made.as_slice())
        && port_keeps(actors[target].phases, channel.taken.as_slice())
        && channel.tokens <= TOKENS
        && 1 <= channel.size
        && channel.size <= SIZE
}

fn port_keeps(phases: u32, rates: &[u64]) -> bool
    ensures { IsTrue result ↔ PortKeepsRules phases rates.now }
{
    rates.len() == phases as usize && rates.iter().all(|rate| *rate <= RATE) && moves(rates)
}

/// Whether a rate moves a token.
fn moves(rates: &[u64]) -> bool
    ensures { result ≡ list_any (λ r. nat_lt 0 r) rates.now }
{
    rates.iter().any(|rate| 0 < *rate)
}
