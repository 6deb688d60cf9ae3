//! The table of a tree.

ghost use Rattle.std.specs.Prelude.{◌≡◌, ◌==◌, ◌<◌, ◌≤◌, ℕ, Bool, not, [], map, max, replicate, length, All, IfOk, OnOk};
ghost use Rattle.std.specs.Option.{option_copied, option_map};
ghost use Rattle.std.specs.List.{find, list_all};
ghost use Rattle.file_text.specs.Node.{tree_of};
ghost use Rattle.graph_reader.specs.TreeSteps.{Gives};
ghost use Rattle.graph_reader.specs.Sections.{times_at, size_at, lists_of, phases_in, fits_phases, is_even, even_phases, widened, actor_row, channel_row, table, all_timed, root_of, kind_in, section_of, properties_of, graph_in, table_of, timed_table, with_properties};
ghost use Rattle.graph_reader.specs.inside.Lists.{AreShort, HasShortPorts, JoinActors};

use crate::actors::{Actor, Port, read_actors};
use crate::channels::{Channel, read_channels};
use crate::elements::{at_most_one, is_named, one, required};
use crate::error::{missing, phase_count};
use crate::numbers::list_copy;
use crate::properties::{SizeEntry, TimeEntry, read_sizes, read_times};
use crate::register::Register;
use crate::{Field, ReadError};
use file_text::Element;
use sd_base::{ActorRow, ChannelRow, GraphFile, Kind, Rows};
use std::alloc::{AllocError, Global};

fn times_at<'a>(times: &'a Register<TimeEntry>, name: &str) -> &'a [u64]
    ensures { result.now ≡ times_at times.now name.now }
{
    match times.find(name) {
        Some(entry) => entry.times.as_slice(),
        None => &[],
    }
}

fn size_at(sizes: &Register<SizeEntry>, name: &str) -> u64
    ensures { result ≡ size_at sizes.now name.now }
{
    match sizes.find(name) {
        Some(entry) => entry.size,
        None => 1,
    }
}

/// The phases of an actor: the greatest length of its times and of the rates of its ports, and 1 at the least.
fn phases_in(times: &Register<TimeEntry>, actor: &Actor) -> u32
    requires { AreShort (lists_of times.now actor.now) }
    ensures { result ≡ phases_in times.now actor.now }
{
    let mut phases = times_at(times, actor.name.as_str()).len().max(1);
    for port in actor.ports.as_slice() {
        phases = phases.max(port.rates.len());
    }
    phases as u32
}

fn fits_phases(phases: u32, list: &[u64]) -> bool
    ensures { result ≡ fits_phases phases list.now }
{
    list.len() == phases as usize || list.len() <= 1
}

fn do_ports_fit(phases: u32, ports: &[Port]) -> bool
    ensures { result ≡ list_all (λ (p : Port). fits_phases phases p.rates) ports.now }
{
    ports
        .iter()
        .all(|port| fits_phases(phases, port.rates.as_slice()))
}

fn is_even(times: &Register<TimeEntry>, actor: &Actor) -> bool
    requires { AreShort (lists_of times.now actor.now) }
    ensures { result ≡ is_even times.now actor.now }
{
    let phases = phases_in(times, actor);
    fits_phases(phases, times_at(times, actor.name.as_str()))
        && do_ports_fit(phases, actor.ports.as_slice())
}

fn uneven_actor<'a>(times: &Register<TimeEntry>, actors: &'a [Actor]) -> Option<&'a Actor>
    requires { All (λ a. AreShort (lists_of times.now a)) actors.now }
    ensures { option_copied result ≡ find (λ (a : Actor). not (is_even times.now a)) actors.now }
{
    let mut left = actors;
    while let [first, rest @ ..] = left {
        if !is_even(times, first) {
            return Some(first);
        }
        left = rest;
    }
    None
}

#[tactic(auto, unfolding(crate::specs::Sections::even_phases))]
fn even_phases(
    alloc: Global,
    times: &Register<TimeEntry>,
    actors: &[Actor],
) -> Result<(), ReadError>
    requires { All (λ a. AreShort (lists_of times.now a)) actors.now }
    ensures { Gives (λ _. actors.now) result (even_phases times.now actors.now) }
{
    match uneven_actor(times, actors) {
        Some(actor) => Err(phase_count(alloc, actor.name.as_str())),
        None => Ok(()),
    }
}

/// A number for each phase, of a list that has one for all.
fn widened(alloc: Global, phases: u32, list: &[u64]) -> Result<Rows<u64>, AllocError>
    ensures { IfOk result (λ wide. wide ≡ widened phases list.now) }
{
    match list {
        [one] => repeated(alloc, phases, *one),
        _ => list_copy(alloc, list),
    }
}

fn repeated(alloc: Global, count: u32, n: u64) -> Result<Rows<u64>, AllocError>
    ensures { IfOk result (λ list. list ≡ replicate count n) }
{
    let mut list = Rows::new(alloc);
    for _i in 0..count {
        list.push(n)?;
    }
    Ok(list)
}

fn actor_row(
    alloc: Global,
    times: &Register<TimeEntry>,
    actor: &Actor,
) -> Result<ActorRow, AllocError>
    requires { AreShort (lists_of times.now actor.now) }
    ensures { IfOk result (λ row. row ≡ actor_row times.now actor.now) }
{
    let phases = phases_in(times, actor);
    Ok(ActorRow {
        name: actor.name.copy(alloc)?,
        phases,
        times: widened(alloc, phases, times_at(times, actor.name.as_str()))?,
    })
}

/// The row of a channel between actors of these phases.
fn channel_row(
    alloc: Global,
    phases: &[u32],
    sizes: &Register<SizeEntry>,
    channel: &Channel,
) -> Result<ChannelRow, AllocError>
    requires source { channel.now.source.actor < length phases.now }
    requires target { channel.now.target.actor < length phases.now }
    ensures { IfOk result (λ row. row ≡ channel_row phases.now sizes.now channel.now) }
{
    let source = phases[channel.source.actor as usize];
    let target = phases[channel.target.actor as usize];
    Ok(ChannelRow {
        name: channel.name.copy(alloc)?,
        source: channel.source.actor,
        target: channel.target.actor,
        made: widened(alloc, source, channel.source.rates.as_slice())?,
        taken: widened(alloc, target, channel.target.rates.as_slice())?,
        tokens: channel.tokens,
        size: size_at(sizes, channel.name.as_str()),
    })
}

fn actor_rows(
    alloc: Global,
    times: &Register<TimeEntry>,
    actors: &[Actor],
) -> Result<Rows<ActorRow>, AllocError>
    requires { All (λ a. AreShort (lists_of times.now a)) actors.now }
    ensures { IfOk result (λ rows. rows ≡ map (actor_row times.now) actors.now) }
{
    let mut rows = Rows::new(alloc);
    for actor in actors {
        rows.push(actor_row(alloc, times, actor)?)?;
    }
    Ok(rows)
}

fn phase_counts(
    alloc: Global,
    times: &Register<TimeEntry>,
    actors: &[Actor],
) -> Result<Vec<u32>, AllocError>
    requires { All (λ a. AreShort (lists_of times.now a)) actors.now }
    ensures { IfOk result (λ v. v.items ≡ map (phases_in times.now) actors.now) }
{
    let mut phases = Vec::new(alloc);
    for actor in actors {
        phases.push(phases_in(times, actor))?;
    }
    Ok(phases)
}

fn channel_rows(
    alloc: Global,
    phases: &[u32],
    sizes: &Register<SizeEntry>,
    channels: &[Channel],
) -> Result<Rows<ChannelRow>, AllocError>
    requires { All (JoinActors (length phases.now)) channels.now }
    ensures { IfOk result (λ rows. rows ≡ map (channel_row phases.now sizes.now) channels.now) }
{
    let mut rows = Rows::new(alloc);
    for channel in channels {
        rows.push(channel_row(alloc, phases, sizes, channel)?)?;
    }
    Ok(rows)
}

#[tactic(auto, unfolding(crate::specs::Sections::table))]
fn table(
    alloc: Global,
    kind: Kind,
    actors: &[Actor],
    channels: &[Channel],
    times: &Register<TimeEntry>,
    sizes: &Register<SizeEntry>,
) -> Result<GraphFile, AllocError>
    requires short { All (λ a. AreShort (lists_of times.now a)) actors.now }
    requires join { All (JoinActors (length actors.now)) channels.now }
    ensures { IfOk result (λ t. t ≡ table kind actors.now channels.now times.now sizes.now) }
{
    let phases = phase_counts(alloc, times, actors)?;
    Ok(GraphFile {
        kind,
        actors: actor_rows(alloc, times, actors)?,
        channels: channel_rows(alloc, phases.as_slice(), sizes, channels)?,
    })
}

fn untimed_actor(actors: &[ActorRow]) -> Option<&ActorRow>
    ensures { option_copied result ≡ find (λ (a : ActorRow). length a.times == 0) actors.now }
{
    let mut left = actors;
    while let [first, rest @ ..] = left {
        if first.times.is_empty() {
            return Some(first);
        }
        left = rest;
    }
    None
}

#[tactic(auto, unfolding(crate::specs::Sections::all_timed))]
fn all_timed(alloc: Global, need_times: bool, table: GraphFile) -> Result<GraphFile, ReadError>
    ensures { Gives (λ t. t) result (all_timed need_times table) }
{
    if need_times {
        if let Some(actor) = untimed_actor(table.actors.as_slice()) {
            return Err(missing(alloc, Field::ExecutionTime, actor.name.as_str()));
        }
    }
    Ok(table)
}

/// The table of these actors and channels with what the properties give.
fn with_properties(
    alloc: Global,
    kind: Kind,
    of: &str,
    need_times: bool,
    actors: &Register<Actor>,
    channels: &Register<Channel>,
    properties: Option<&Element>,
) -> Result<GraphFile, ReadError>
    requires short { All HasShortPorts actors.now }
    requires join { All (JoinActors (length actors.now)) channels.now }
    ensures { let tree = option_map (λ e. tree_of e.now) properties.entry in
        Gives (λ t. t) result (with_properties kind of.now need_times actors.now channels.now tree) }
{
    let times = read_times(alloc, kind, of, actors, properties)?;
    let sizes = read_sizes(alloc, of, channels, properties)?;
    timed_table(alloc, kind, need_times, actors, channels, &times, &sizes)
}

/// The table of these actors and channels with these times and sizes.
fn timed_table(
    alloc: Global,
    kind: Kind,
    need_times: bool,
    actors: &Register<Actor>,
    channels: &Register<Channel>,
    times: &Register<TimeEntry>,
    sizes: &Register<SizeEntry>,
) -> Result<GraphFile, ReadError>
    requires short { All (λ a. AreShort (lists_of times.now a)) actors.now }
    requires join { All (JoinActors (length actors.now)) channels.now }
    ensures { Gives (λ t. t) result (timed_table kind need_times actors.now channels.now times.now sizes.now) }
{
    even_phases(alloc, times, actors.as_slice())?;
    let rows = table(
        alloc,
        kind,
        actors.as_slice(),
        channels.as_slice(),
        times,
        sizes,
    )?;
    all_timed(alloc, need_times, rows)
}

/// Tests that the outermost element is `sdf3`; the refusal of another says that it is missing.
#[tactic(auto, unfolding(crate::specs::Sections::root_of))]
pub fn test_root(alloc: Global, root: &Element) -> Result<(), ReadError>
    ensures { Gives (λ _. tree_of root.now) result (root_of (tree_of root.now)) }
{
    if is_named(root, Field::Sdf3.word()) {
        Ok(())
    } else {
        Err(missing(alloc, Field::Sdf3, "file"))
    }
}

#[tactic(auto, unfolding(crate::specs::Sections::kind_in))]
fn kind_in(word: &str) -> Result<Kind, ReadError>
    ensures { Gives (λ k. k) result (kind_in word.now) }
{
    if word == Field::Sdf.word() {
        return Ok(Kind::Sdf);
    }
    if word == Field::Csdf.word() {
        return Ok(Kind::Csdf);
    }
    Err(ReadError::WrongKind)
}

/// The element of a kind's actors and channels.
fn section_of(kind: Kind) -> Field
    ensures { result ≡ section_of kind }
{
    match kind {
        Kind::Sdf => Field::Sdf,
        Kind::Csdf => Field::Csdf,
    }
}

/// The element of a kind's properties.
fn properties_of(kind: Kind) -> Field
    ensures { result ≡ properties_of kind }
{
    match kind {
        Kind::Sdf => Field::SdfProperties,
        Kind::Csdf => Field::CsdfProperties,
    }
}

/// The table of the sections in an element. A refusal names `of` where no actor or channel is being read.
#[tactic(auto, unfolding(crate::specs::Sections::graph_in))]
pub fn graph_in(
    alloc: Global,
    kind: Kind,
    of: &str,
    need_times: bool,
    element: &Element,
) -> Result<GraphFile, ReadError>
    ensures { Gives (λ t. t) result (graph_in kind of.now need_times (tree_of element.now)) }
{
    let section = one(alloc, element, section_of(kind), of)?;
    let actors = read_actors(alloc, kind, of, section)?;
    let channels = read_channels(alloc, of, &actors, section)?;
    let properties = at_most_one(alloc, element, properties_of(kind))?;
    with_properties(alloc, kind, of, need_times, &actors, &channels, properties)
}

/// The table of the elements inside a root element.
#[tactic(auto, unfolding(crate::specs::Sections::table_of))]
pub fn table_of(alloc: Global, root: &Element, need_times: bool) -> Result<GraphFile, ReadError>
    ensures { Gives (λ t. t) result (table_of need_times (tree_of root.now)) }
{
    test_root(alloc, root)?;
    let kind = kind_in(required(alloc, root, Field::TypeWord, "file")?)?;
    let graph = one(alloc, root, Field::ApplicationGraph, "file")?;
    graph_in(alloc, kind, "file", need_times, graph)
}
