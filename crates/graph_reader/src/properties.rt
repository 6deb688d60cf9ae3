//! What the properties give: times of actors, and sizes of tokens.

ghost use Rattle.std.specs.Prelude.{◌≡◌, ℕ, [], map, false, codes, IfOk};
ghost use Rattle.std.specs.List.{find};
ghost use Rattle.std.specs.Option.{option_map};
ghost use Rattle.file_text.specs.Node.{tree_of};
ghost use Rattle.graph_reader.specs.TreeSteps.{Gives, each, children, named};
ghost use Rattle.graph_reader.specs.Sections.{is_among, is_default, counting_processor, execution_of, times_in, time_entry, times_of, size_text, size_of, size_entry, sizes_of};

use crate::actors::Actor;
use crate::channels::Channel;
use crate::elements::{attribute, elements_in, first_child, required, split_named};
use crate::error::copied;
use crate::names::mention;
use crate::numbers::{Meaning, number, numbers};
use crate::register::{Named, Register};
use crate::{Field, ReadError};
use file_text::Element;
use sd_base::limits::{SIZE, TIME};
use sd_base::{Kind, Quantity, Rows, Text};
use std::alloc::Global;

/// The times that are given for an actor, by phase; none, where none are given.
pub struct TimeEntry {
    /// The name of the actor.
    pub actor: Text,
    /// In time units, as the file has them.
    pub times: Rows<u64>,
}

// By hand, so that what drops one calls this, and does not drop each of its parts.
impl Drop for TimeEntry {
    fn drop(self) {
        let TimeEntry {
            actor: _actor,
            times: _times,
        } = self;
    }
}

/// The size that is given for a channel.
#[derive(Drop)]
pub struct SizeEntry {
    /// The name of the channel.
    pub channel: Text,
    /// The memory that one token needs.
    pub size: u64,
}

impl Named for TimeEntry {
    ghost name_of = { λ t. t.actor };

    fn name(&self) -> &Text {
        &self.actor
    }
}

impl Named for SizeEntry {
    ghost name_of = { λ s. s.channel };

    fn name(&self) -> &Text {
        &self.channel
    }
}

#[tactic(auto, unfolding(crate::specs::Sections::is_default))]
fn is_default(processor: &Element) -> bool
    ensures { result ≡ is_default (tree_of processor.now) }
{
    match attribute(processor, "default") {
        Some(value) => value == "true",
        None => false,
    }
}

/// The first processor so marked, or else the first.
#[tactic(auto, unfolding(crate::specs::Sections::counting_processor, crate::specs::TreeSteps::first_child, crate::specs::TreeSteps::children))]
fn counting_processor(element: &Element) -> Option<&Element>
    ensures { option_map (λ p. tree_of p.now) result ≡ counting_processor (tree_of element.now) }
{
    let first = first_child(element, "processor")?;
    let mut left = elements_in(element);
    while let Some((processor, rest)) = split_named(left, "processor") {
        if is_default(processor) {
            return Some(processor);
        }
        left = rest;
    }
    Some(first)
}

#[tactic(auto, unfolding(crate::specs::Sections::execution_of))]
fn execution_of(element: &Element) -> Option<&Element>
    ensures { option_map (λ p. tree_of p.now) result ≡ execution_of (tree_of element.now) }
{
    first_child(counting_processor(element)?, Field::ExecutionTime.word())
}

#[tactic(auto, unfolding(crate::specs::Sections::times_in))]
fn times_in(alloc: Global, kind: Kind, of: &str, element: &Element) -> Result<Rows<u64>, ReadError>
    ensures { Gives (λ ts. ts) result (times_in kind of.now (tree_of element.now)) }
{
    let Some(execution) = execution_of(element) else {
        return Ok(Rows::new(alloc));
    };
    let text = required(alloc, execution, Field::Time, of)?;
    let meaning = Meaning {
        what: Field::Time,
        of,
        quantity: Quantity::Time,
        limit: TIME,
    };
    numbers(alloc, kind, text, 1, &meaning)
}

#[tactic(auto, unfolding(crate::specs::Sections::time_entry))]
fn read_time(
    alloc: Global,
    kind: Kind,
    of: &str,
    actors: &Register<Actor>,
    done: &Register<TimeEntry>,
    element: &Element,
) -> Result<TimeEntry, ReadError>
    ensures gives { Gives (λ t. t) result (time_entry kind of.now actors.now done.now (tree_of element.now)) }
    ensures new { IfOk result (λ t. is_among t.actor (map (λ (u : TimeEntry). u.actor) done.now) ≡ false) }
{
    let name = mention(alloc, Field::Actor, of, actors, done, element)?;
    let times = times_in(alloc, kind, name, element)?;
    let actor = copied(alloc, name)?;
    Ok(TimeEntry { actor, times })
}

/// The times that the properties give.
#[tactic(auto, unfolding(crate::specs::Sections::times_of, crate::specs::TreeSteps::children))]
pub(crate) fn read_times(
    alloc: Global,
    kind: Kind,
    of: &str,
    actors: &Register<Actor>,
    properties: Option<&Element>,
) -> Result<Register<TimeEntry>, ReadError>
    ensures { let tree = option_map (λ e. tree_of e.now) properties.entry in
        Gives (λ ts. ts) result (times_of kind of.now actors.now tree) }
{
    let mut times = Register::new(alloc);
    let Some(element) = properties else {
        return Ok(times);
    };
    let mut left = elements_in(element);
    while let Some((child, rest)) = split_named(left, "actorProperties") {
        let time = read_time(alloc, kind, of, actors, &times, child)?;
        times = times.with(alloc, time)?;
        left = rest;
    }
    Ok(times)
}

#[tactic(auto, unfolding(crate::specs::Sections::size_text))]
fn size_text(element: &Element) -> Option<&str>
    ensures { option_map (λ v. v.now) result ≡ size_text (tree_of element.now) }
{
    attribute(first_child(element, "tokenSize")?, Field::Sz.word())
}

#[tactic(auto, unfolding(crate::specs::Sections::size_of))]
fn size_of(alloc: Global, of: &str, element: &Element) -> Result<u64, ReadError>
    ensures { Gives (λ n. n) result (size_of of.now (tree_of element.now)) }
{
    let Some(text) = size_text(element) else {
        return Ok(1);
    };
    let meaning = Meaning {
        what: Field::Sz,
        of,
        quantity: Quantity::Size,
        limit: SIZE,
    };
    let size = number(alloc, text, &meaning)?;
    Ok(if size == 0 { 1 } else { size })
}

#[tactic(auto, unfolding(crate::specs::Sections::size_entry))]
fn read_size(
    alloc: Global,
    of: &str,
    channels: &Register<Channel>,
    done: &Register<SizeEntry>,
    element: &Element,
) -> Result<SizeEntry, ReadError>
    ensures gives { Gives (λ s. s) result (size_entry of.now channels.now done.now (tree_of element.now)) }
    ensures new { IfOk result (λ s. is_among s.channel (map (λ (t : SizeEntry). t.channel) done.now) ≡ false) }
{
    let name = mention(alloc, Field::Channel, of, channels, done, element)?;
    let size = size_of(alloc, name, element)?;
    let channel = copied(alloc, name)?;
    Ok(SizeEntry { channel, size })
}

/// The sizes that the properties give.
#[tactic(auto, unfolding(crate::specs::Sections::sizes_of, crate::specs::TreeSteps::children))]
pub(crate) fn read_sizes(
    alloc: Global,
    of: &str,
    channels: &Register<Channel>,
    properties: Option<&Element>,
) -> Result<Register<SizeEntry>, ReadError>
    ensures { let tree = option_map (λ e. tree_of e.now) properties.entry in
        Gives (λ ss. ss) result (sizes_of of.now channels.now tree) }
{
    let mut sizes = Register::new(alloc);
    let Some(element) = properties else {
        return Ok(sizes);
    };
    let mut left = elements_in(element);
    while let Some((child, rest)) = split_named(left, "channelProperties") {
        let size = read_size(alloc, of, channels, &sizes, child)?;
        sizes = sizes.with(alloc, size)?;
        left = rest;
    }
    Ok(sizes)
}
