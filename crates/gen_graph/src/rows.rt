//! The elements of actors and channels.

ghost use Rattle.std.specs.Prelude.{◌≡◌, ◌<◌, ◌∷◌, ◌++◌, IfOk, OnOk, [], length, codes};
ghost use Rattle.std.specs.Fmt.{decimal};
ghost use Rattle.std.specs.String.{string_bytes};
ghost use Rattle.file_text.specs.Node.{nodes};
ghost use Rattle.gen_graph.specs.NodeTexts.{attribute_text, element_text, elements_text};
ghost use Rattle.gen_graph.specs.inside.EndWords.{actor_word, port_word};
ghost use Rattle.gen_graph.specs.GraphTrees.{attribute, leaf, numbers_text, port_name, port_node, ports_on, ports_from, actor_node, channel_node, processor_node, times_node, times_of, size_node};

use crate::direction::{Direction, port_name};
use crate::nodes::{put, put_attribute, put_inside, put_tag};
use sd_base::{ActorRow, ChannelRow};
use std::alloc::{AllocError, Global};

/// Numbers with commas between.
#[tactic(auto, unfolding(crate::specs::GraphTrees::numbers_text))]
fn numbers_text(alloc: Global, numbers: &[u64]) -> Result<String, AllocError>
    ensures { IfOk result (λ t. string_bytes t ≡ numbers_text numbers.now) }
{
    match numbers.split_first() {
        None => Ok(String::new(alloc)),
        Some((first, rest)) => text_from(alloc, *first, rest),
    }
}

#[tactic(auto, unfolding(crate::specs::GraphTrees::numbers_text))]
fn text_from(alloc: Global, first: u64, rest: &[u64]) -> Result<String, AllocError>
    ensures { IfOk result (λ t. string_bytes t ≡ numbers_text (first ∷ rest.now)) }
{
    let mut text = format!(in alloc; "{first}")?;
    for number in rest {
        write!(text, ",{number}")?;
    }
    Ok(text)
}

#[tactic(auto, unfolding(crate::specs::GraphTrees::port_node, crate::specs::NodeTexts::tagged, crate::specs::NodeTexts::inside_text))]
fn put_port(
    alloc: Global,
    text: &mut Vec<u8>,
    direction: Direction,
    channel: usize,
    rates: &[u64],
) -> Result<(), AllocError>
    ensures { OnOk result (text.new.items ≡ text.old.items ++ element_text (port_node direction channel rates.now)) }
{
    let name = port_name(alloc, direction, channel)?;
    let rates = numbers_text(alloc, rates)?;
    put(text, "<port")?;
    put_attribute(text, "name", name.as_str())?;
    put_attribute(text, "type", direction.word())?;
    put_attribute(text, "rate", rates.as_str())?;
    put(text, "/>\n")
}

/// The ports of an actor on a channel.
#[tactic(auto, unfolding(crate::specs::GraphTrees::ports_on))]
fn put_ports(
    alloc: Global,
    text: &mut Vec<u8>,
    actor: usize,
    i: usize,
    channel: &ChannelRow,
) -> Result<(), AllocError>
    ensures { OnOk result (text.new.items ≡ text.old.items ++ elements_text (nodes (ports_on actor i channel.now))) }
{
    if channel.source as usize == actor {
        put_port(alloc, text, Direction::Out, i, channel.made.as_slice())?;
    }
    if channel.target as usize == actor {
        put_port(alloc, text, Direction::In, i, channel.taken.as_slice())?;
    }
    Ok(())
}

fn all_ports(alloc: Global, actor: usize, channels: &[ChannelRow]) -> Result<Vec<u8>, AllocError>
    ensures { IfOk result (λ t. t.items ≡ elements_text (nodes (ports_from actor 0 channels.now))) }
{
    let mut text = Vec::new(alloc);
    for (i, channel) in channels.iter().enumerate() {
        put_ports(alloc, &mut text, actor, i, channel)?;
    }
    Ok(text)
}

/// An actor with its ports.
#[tactic(auto, unfolding(crate::specs::GraphTrees::actor_node, crate::specs::NodeTexts::tagged))]
pub(crate) fn put_actor(
    alloc: Global,
    text: &mut Vec<u8>,
    channels: &[ChannelRow],
    a: usize,
    actor: &ActorRow,
) -> Result<(), AllocError>
    ensures { OnOk result (text.new.items ≡ text.old.items ++ element_text (actor_node channels.now a actor.now)) }
{
    let ports = all_ports(alloc, a, channels)?;
    let name = actor.name.as_str();
    put(text, "<actor")?;
    put_attribute(text, "name", name)?;
    put_attribute(text, "type", name)?;
    put_inside(text, "actor", ports.as_slice())
}

#[tactic(auto, unfolding(crate::specs::GraphTrees::channel_node, crate::specs::NodeTexts::tagged, crate::specs::NodeTexts::inside_text))]
pub(crate) fn put_channel(
    alloc: Global,
    text: &mut Vec<u8>,
    actors: &[ActorRow],
    i: usize,
    channel: &ChannelRow,
) -> Result<(), AllocError>
    requires source { channel.now.source < length actors.now }
    requires target { channel.now.target < length actors.now }
    ensures { OnOk result (text.new.items ≡ text.old.items ++ element_text (channel_node actors.now i channel.now)) }
{
    put(text, "<channel")?;
    put_attribute(text, "name", channel.name.as_str())?;
    let source = &actors[channel.source as usize];
    put_end(alloc, text, source, Direction::Out, i)?;
    let target = &actors[channel.target as usize];
    put_end(alloc, text, target, Direction::In, i)?;
    put_tokens(alloc, text, channel.tokens)?;
    put(text, "/>\n")
}

/// The actor and the port at one end of a channel.
fn put_end(
    alloc: Global,
    text: &mut Vec<u8>,
    actor: &ActorRow,
    end: Direction,
    i: usize,
) -> Result<(), AllocError>
    ensures { OnOk result (text.new.items ≡ text.old.items ++ (attribute_text (attribute (actor_word end) actor.now.name) ++ attribute_text (attribute (port_word end) (port_name end i)))) }
{
    let port = port_name(alloc, end, i)?;
    put_attribute(text, end.actor_word(), actor.name.as_str())?;
    put_attribute(text, end.port_word(), port.as_str())
}

fn put_tokens(alloc: Global, text: &mut Vec<u8>, tokens: u64) -> Result<(), AllocError>
    ensures { OnOk result (text.new.items ≡ text.old.items ++ attribute_text (attribute (codes "initialTokens") (decimal tokens))) }
{
    let tokens = format!(in alloc; "{tokens}")?;
    put_attribute(text, "initialTokens", tokens.as_str())?;
    Ok(())
}

/// The times of an actor, if it has some.
pub(crate) fn put_times(
    alloc: Global,
    text: &mut Vec<u8>,
    actor: &ActorRow,
) -> Result<(), AllocError>
    ensures { OnOk result (text.new.items ≡ text.old.items ++ elements_text (nodes (times_of actor.now.name actor.now.times))) }
{
    if actor.times.is_empty() {
        return Ok(());
    }
    put_some_times(alloc, text, actor.name.as_str(), actor.times.as_slice())
}

#[tactic(auto, unfolding(crate::specs::GraphTrees::times_node, crate::specs::NodeTexts::tagged))]
fn put_some_times(
    alloc: Global,
    text: &mut Vec<u8>,
    name: &str,
    times: &[u64],
) -> Result<(), AllocError>
    ensures { OnOk result (text.new.items ≡ text.old.items ++ element_text (times_node name.now times.now)) }
{
    let processor = processor_text(alloc, times)?;
    put(text, "<actorProperties")?;
    put_attribute(text, "actor", name)?;
    put_inside(text, "actorProperties", processor.as_slice())?;
    Ok(())
}

#[tactic(auto, unfolding(crate::specs::GraphTrees::processor_node, crate::specs::NodeTexts::tagged))]
fn processor_text(alloc: Global, times: &[u64]) -> Result<Vec<u8>, AllocError>
    ensures { IfOk result (λ t. t.items ≡ elements_text (nodes (processor_node times.now ∷ []))) }
{
    let times = numbers_text(alloc, times)?;
    let execution = leaf_text(alloc, "executionTime", "time", times.as_str())?;
    let mut text = Vec::new(alloc);
    put(&mut text, "<processor")?;
    put_attribute(&mut text, "type", "p")?;
    put_attribute(&mut text, "default", "true")?;
    put_inside(&mut text, "processor", execution.as_slice())?;
    Ok(text)
}

/// An element with one attribute, in which nothing stands.
#[tactic(auto, unfolding(crate::specs::NodeTexts::tagged))]
fn leaf_text(alloc: Global, word: &str, name: &str, value: &str) -> Result<Vec<u8>, AllocError>
    ensures { IfOk result (λ t. t.items ≡ elements_text (nodes (leaf word.now name.now value.now ∷ []))) }
{
    let mut text = Vec::new(alloc);
    put_tag(&mut text, word)?;
    put_attribute(&mut text, name, value)?;
    put_inside(&mut text, word, &[])?;
    Ok(text)
}

/// The size of a channel's tokens.
#[tactic(auto, unfolding(crate::specs::GraphTrees::size_node, crate::specs::NodeTexts::tagged))]
pub(crate) fn put_size(
    alloc: Global,
    text: &mut Vec<u8>,
    channel: &ChannelRow,
) -> Result<(), AllocError>
    ensures { OnOk result (text.new.items ≡ text.old.items ++ element_text (size_node channel.now)) }
{
    let size = format!(in alloc; "{}", channel.size)?;
    let inside = leaf_text(alloc, "tokenSize", "sz", size.as_str())?;
    put(text, "<channelProperties")?;
    put_attribute(text, "channel", channel.name.as_str())?;
    put_inside(text, "channelProperties", inside.as_slice())?;
    Ok(())
}
