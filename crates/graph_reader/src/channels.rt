//! Channels between ports of actors.

ghost use Rattle.std.specs.Prelude.{◌≡◌, ◌+◌, ◌≤◌, ◌<◌, ℕ, [], length, map, false, IfOk};
ghost use Rattle.std.specs.List.{list_any, find};
ghost use Rattle.std.specs.Option.{option_map, option_copied};
ghost use Rattle.file_text.specs.Node.{tree_of};
ghost use Rattle.graph_reader.specs.TreeSteps.{Gives, each, children};
ghost use Rattle.graph_reader.specs.Sections.{is_among, numbered, is_same_direction, is_port, end_of, is_same_port, tokens_in, channel_of, channels_of};

use crate::actors::{Actor, Direction, Port};
use crate::elements::{attribute, elements_in, required, split_named};
use crate::error::{copied, twice, unknown};
use crate::names::new_name;
use crate::numbers::{Meaning, list_copy, number, within};
use crate::register::{Named, Register};
use crate::{Field, ReadError};
use file_text::Element;
use sd_base::limits::{ACTORS, CHANNELS, TOKENS};
use sd_base::{Quantity, Rows, Text};
use std::alloc::Global;

/// Where a channel begins or ends: a port of the actor of this number, and the port's rates.
pub struct End {
    pub actor: u32,
    pub port: Text,
    pub rates: Rows<u64>,
}

// By hand, so that what drops one calls this, and does not drop each of its parts.
impl Drop for End {
    fn drop(self) {
        let End {
            actor: _actor,
            port: _port,
            rates: _rates,
        } = self;
    }
}

/// A channel as its own element has it, with its initial tokens; the size of a token stands in the properties.
pub struct Channel {
    pub name: Text,
    pub source: End,
    pub target: End,
    pub tokens: u64,
}

// By hand, so that what drops one calls this, and does not drop each of its parts.
impl Drop for Channel {
    fn drop(self) {
        let Channel {
            name: _name,
            source: _source,
            target: _target,
            tokens: _tokens,
        } = self;
    }
}

impl Named for Channel {
    ghost name_of = { λ c. c.name };

    fn name(&self) -> &Text {
        &self.name
    }
}

/// Which end of a channel is read.
#[derive(Clone, Copy)]
struct Side {
    direction: Direction,
    actor: Field,
    port: Field,
}

fn numbered<'a>(actors: &'a Register<Actor>, name: &str) -> Option<(u32, &'a Actor)>
    requires { length actors.now ≤ ACTORS }
    ensures { option_map (λ r. (r.0, r.1.now)) result ≡ numbered 0 name.now actors.now }
{
    match actors.number_of(name) {
        None => None,
        Some(number) => match actors.get(number) {
            None => None,
            Some(actor) => Some((number as u32, actor)),
        },
    }
}

fn is_same_direction(a: Direction, b: Direction) -> bool
    ensures { result ≡ is_same_direction a b }
{
    match (a, b) {
        (Direction::In, Direction::In) => true,
        (Direction::Out, Direction::Out) => true,
        (Direction::In, Direction::Out) => false,
        (Direction::Out, Direction::In) => false,
    }
}

/// The port of this name, if it has this direction.
fn port_named<'a>(ports: &'a Register<Port>, direction: Direction, name: &str) -> Option<&'a Port>
    ensures { option_copied result ≡ find (is_port direction name.now) ports.now }
{
    let port = ports.find(name)?;
    if is_same_direction(direction, port.direction) {
        Some(port)
    } else {
        None
    }
}

#[tactic(auto, unfolding(crate::specs::Sections::end_of))]
fn read_end(
    alloc: Global,
    actors: &Register<Actor>,
    side: Side,
    of: &str,
    element: &Element,
) -> Result<End, ReadError>
    requires { length actors.now ≤ ACTORS }
    ensures { let end = end_of actors.now side.direction side.actor side.port of.now (tree_of element.now) in
        Gives (λ e. e) result end }
{
    let actor_name = required(alloc, element, side.actor, of)?;
    let Some((number, actor)) = numbered(actors, actor_name) else {
        return Err(unknown(alloc, side.actor, actor_name));
    };
    let port_name = required(alloc, element, side.port, of)?;
    let Some(port) = port_named(&actor.ports, side.direction, port_name) else {
        return Err(unknown(alloc, side.port, port_name));
    };
    let rates = list_copy(alloc, port.rates.as_slice())?;
    let name = copied(alloc, port_name)?;
    Ok(End {
        actor: number,
        port: name,
        rates,
    })
}

fn is_same_port(a: &End, b: &End) -> bool
    ensures { result ≡ is_same_port a.now b.now }
{
    a.actor == b.actor && a.port.as_str() == b.port.as_str()
}

fn is_source_used(channels: &Register<Channel>, end: &End) -> bool
    ensures { result ≡ list_any (λ c. is_same_port c.source end.now) channels.now }
{
    channels
        .as_slice()
        .iter()
        .any(|c| is_same_port(&c.source, end))
}

fn is_target_used(channels: &Register<Channel>, end: &End) -> bool
    ensures { result ≡ list_any (λ c. is_same_port c.target end.now) channels.now }
{
    channels
        .as_slice()
        .iter()
        .any(|c| is_same_port(&c.target, end))
}

fn tokens_in(alloc: Global, of: &str, text: Option<&str>) -> Result<u64, ReadError>
    ensures { Gives (λ n. n) result (tokens_in of.now (option_map (λ v. v.now) text.entry)) }
{
    match text {
        None => Ok(0),
        Some(text) => {
            let meaning = Meaning {
                what: Field::InitialTokens,
                of,
                quantity: Quantity::Tokens,
                limit: TOKENS,
            };
            number(alloc, text, &meaning)
        }
    }
}

const SOURCE: Side = Side {
    direction: Direction::Out,
    actor: Field::SrcActor,
    port: Field::SrcPort,
};

const TARGET: Side = Side {
    direction: Direction::In,
    actor: Field::DstActor,
    port: Field::DstPort,
};

#[tactic(auto, unfolding(crate::specs::Sections::channel_of))]
fn read_channel(
    alloc: Global,
    of: &str,
    actors: &Register<Actor>,
    done: &Register<Channel>,
    element: &Element,
) -> Result<Channel, ReadError>
    requires few_actors { length actors.now ≤ ACTORS }
    requires few_channels { length done.now ≤ CHANNELS }
    ensures gives { Gives (λ c. c) result (channel_of of.now actors.now done.now (tree_of element.now)) }
    ensures few { IfOk result (λ _. length done.now + 1 ≤ CHANNELS) }
    ensures new { IfOk result (λ c. is_among c.name (map (λ (d : Channel). d.name) done.now) ≡ false) }
{
    let name = new_name(alloc, of, done, element)?;
    within(Quantity::Channels, CHANNELS, done.len() as u64 + 1)?;
    let source = read_end(alloc, actors, SOURCE, name, element)?;
    if is_source_used(done, &source) {
        return Err(twice(alloc, Field::SrcPort, source.port.as_str()));
    }
    let target = read_end(alloc, actors, TARGET, name, element)?;
    if is_target_used(done, &target) {
        return Err(twice(alloc, Field::DstPort, target.port.as_str()));
    }
    let tokens = tokens_in(alloc, name, attribute(element, Field::InitialTokens.word()))?;
    let name = copied(alloc, name)?;
    Ok(Channel {
        name,
        source,
        target,
        tokens,
    })
}

/// The channels of a section.
#[tactic(auto, unfolding(crate::specs::Sections::channels_of, crate::specs::TreeSteps::children))]
pub(crate) fn read_channels(
    alloc: Global,
    of: &str,
    actors: &Register<Actor>,
    section: &Element,
) -> Result<Register<Channel>, ReadError>
    requires { length actors.now ≤ ACTORS }
    ensures { Gives (λ cs. cs) result (channels_of of.now actors.now (tree_of section.now)) }
{
    let mut channels = Register::new(alloc);
    let mut left = elements_in(section);
    while let Some((child, rest)) = split_named(left, Field::Channel.word()) {
        let channel = read_channel(alloc, of, actors, &channels, child)?;
        channels = channels.with(alloc, channel)?;
        left = rest;
    }
    Ok(channels)
}
