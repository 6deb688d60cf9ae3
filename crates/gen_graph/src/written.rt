//! Graph tables as graph files.

ghost use Rattle.std.specs.Prelude.{◌≡◌, ◌<◌, Bool, IsTrue, [], ◌∷◌, ◌++◌, IfOk, OnOk, length, map, All};
ghost use Rattle.sd_base.specs.declared.tables.ChannelRow.{ChannelRow};
ghost use Rattle.sd_base.specs.Tables.{IsTimed, KeepsRules};
ghost use Rattle.graph_reader.specs.Laws.{Gives};
ghost use Rattle.file_text.specs.Grammar.{IsText};
ghost use Rattle.file_text.specs.Node.{nodes};
ghost use Rattle.gen_graph.specs.NodeTexts.{element_text, elements_text};
ghost use Rattle.gen_graph.specs.GraphTrees.{actor_nodes, channel_nodes, times_nodes, size_node, kind_word, properties_word, section_node, properties_node, application_node, graph_tree, written};
ghost use Rattle.gen_graph.specs.Writable.{IsWritable};

use crate::nodes::{put, put_attribute, put_inside, put_tag};
use crate::rows::{put_actor, put_channel, put_size, put_times};
use sd_base::{ActorRow, ChannelRow, GraphFile, Kind, NoMemory, Rows};
use std::alloc::{AllocError, Global};

/// A table as a graph file: its elements in the order of actors, channels, times and sizes, each tag on a line of its own.
/// Cost: the channels for each actor, and the text a fixed number of times.
#[tactic(auto, unfolding(crate::specs::GraphTrees::written))]
pub fn write_graph(alloc: Global, graph: &GraphFile) -> Result<Rows<u8>, NoMemory>
    requires { KeepsRules graph.now }
    ensures written { IfOk result (λ t. t ≡ written graph.now) }
    // The file spells the table's tree.
    ensures spells { IfOk result (λ t. IsWritable graph.now → IsText (graph_tree graph.now) t) }
    // It is read as the table, with times needed where each actor has its times.
    ensures read { IfOk result (λ t. IsWritable graph.now → (need_times : Bool) → (IsTrue need_times → IsTimed graph.now) → Gives t need_times graph.now) }
{
    let mut text = Vec::new(alloc);
    put(&mut text, "<?xml version=\"1.0\" encoding=\"UTF-8\"?>\n")?;
    put_root(alloc, &mut text, graph)?;
    Ok(Rows::from_vec(text))
}

#[tactic(auto, unfolding(crate::specs::GraphTrees::graph_tree, crate::specs::NodeTexts::tagged))]
fn put_root(alloc: Global, text: &mut Vec<u8>, graph: &GraphFile) -> Result<(), AllocError>
    requires { KeepsRules graph.now }
    ensures { OnOk result (text.new.items ≡ text.old.items ++ element_text (graph_tree graph.now)) }
{
    let inside = application_text(alloc, graph)?;
    put(text, "<sdf3")?;
    put_attribute(text, "type", kind_word(graph.kind))?;
    put_attribute(text, "version", "1.0")?;
    put_inside(text, "sdf3", inside.as_slice())
}

#[tactic(auto, unfolding(crate::specs::GraphTrees::application_node, crate::specs::NodeTexts::tagged))]
fn application_text(alloc: Global, graph: &GraphFile) -> Result<Vec<u8>, AllocError>
    requires { KeepsRules graph.now }
    ensures { IfOk result (λ t. t.items ≡ elements_text (nodes (application_node graph.now ∷ []))) }
{
    let inside = parts_text(alloc, graph)?;
    let mut text = Vec::new(alloc);
    put(&mut text, "<applicationGraph")?;
    put_attribute(&mut text, "name", "g")?;
    put_inside(&mut text, "applicationGraph", inside.as_slice())?;
    Ok(text)
}

fn parts_text(alloc: Global, graph: &GraphFile) -> Result<Vec<u8>, AllocError>
    requires { KeepsRules graph.now }
    ensures { IfOk result (λ t. t.items ≡ elements_text (nodes (section_node graph.now ∷ properties_node graph.now ∷ []))) }
{
    let mut text = Vec::new(alloc);
    put_section(alloc, &mut text, graph)?;
    put_properties(alloc, &mut text, graph)?;
    Ok(text)
}

fn kind_word(kind: Kind) -> &'static str
    ensures { result.now ≡ kind_word kind }
{
    match kind {
        Kind::Sdf => "sdf",
        Kind::Csdf => "csdf",
    }
}

fn properties_word(kind: Kind) -> &'static str
    ensures { result.now ≡ properties_word kind }
{
    match kind {
        Kind::Sdf => "sdfProperties",
        Kind::Csdf => "csdfProperties",
    }
}

#[tactic(auto, unfolding(crate::specs::GraphTrees::section_node, crate::specs::NodeTexts::tagged))]
fn put_section(alloc: Global, text: &mut Vec<u8>, graph: &GraphFile) -> Result<(), AllocError>
    requires { KeepsRules graph.now }
    ensures { OnOk result (text.new.items ≡ text.old.items ++ element_text (section_node graph.now)) }
{
    let word = kind_word(graph.kind);
    let inside = section_text(alloc, graph)?;
    put_tag(text, word)?;
    put_attribute(text, "name", "g")?;
    put_attribute(text, "type", "G")?;
    put_inside(text, word, inside.as_slice())
}

#[tactic(auto, using(crate::proofs::MadeListsGrow::elements_joined))]
fn section_text(alloc: Global, graph: &GraphFile) -> Result<Vec<u8>, AllocError>
    requires { KeepsRules graph.now }
    ensures { IfOk result (λ t. t.items ≡ elements_text (nodes (actor_nodes graph.now.channels 0 graph.now.actors ++ channel_nodes graph.now.actors 0 graph.now.channels))) }
{
    let actors = graph.actors.as_slice();
    let channels = graph.channels.as_slice();
    let mut text = Vec::new(alloc);
    put_actors(alloc, &mut text, actors, channels)?;
    put_channels(alloc, &mut text, actors, channels)?;
    Ok(text)
}

fn put_actors(
    alloc: Global,
    text: &mut Vec<u8>,
    actors: &[ActorRow],
    channels: &[ChannelRow],
) -> Result<(), AllocError>
    ensures { OnOk result (text.new.items ≡ text.old.items ++ elements_text (nodes (actor_nodes channels.now 0 actors.now))) }
{
    for (a, actor) in actors.iter().enumerate() {
        put_actor(alloc, text, channels, a, actor)?;
    }
    Ok(())
}

fn put_channels(
    alloc: Global,
    text: &mut Vec<u8>,
    actors: &[ActorRow],
    channels: &[ChannelRow],
) -> Result<(), AllocError>
    requires { All (λ (c : ChannelRow). (c.source < length actors.now) × (c.target < length actors.now)) channels.now }
    ensures { OnOk result (text.new.items ≡ text.old.items ++ elements_text (nodes (channel_nodes actors.now 0 channels.now))) }
{
    for (i, channel) in channels.iter().enumerate() {
        put_channel(alloc, text, actors, i, channel)?;
    }
    Ok(())
}

#[tactic(auto, unfolding(crate::specs::GraphTrees::properties_node, crate::specs::NodeTexts::tagged))]
fn put_properties(alloc: Global, text: &mut Vec<u8>, graph: &GraphFile) -> Result<(), AllocError>
    ensures { OnOk result (text.new.items ≡ text.old.items ++ element_text (properties_node graph.now)) }
{
    let word = properties_word(graph.kind);
    let inside = properties_text(alloc, graph)?;
    put_tag(text, word)?;
    put_inside(text, word, inside.as_slice())
}

#[tactic(auto, using(crate::proofs::MadeListsGrow::elements_joined))]
fn properties_text(alloc: Global, graph: &GraphFile) -> Result<Vec<u8>, AllocError>
    ensures { IfOk result (λ t. t.items ≡ elements_text (nodes (times_nodes graph.now.actors ++ map size_node graph.now.channels))) }
{
    let mut text = Vec::new(alloc);
    put_all_times(alloc, &mut text, graph.actors.as_slice())?;
    put_sizes(alloc, &mut text, graph.channels.as_slice())?;
    Ok(text)
}

fn put_all_times(alloc: Global, text: &mut Vec<u8>, actors: &[ActorRow]) -> Result<(), AllocError>
    ensures { OnOk result (text.new.items ≡ text.old.items ++ elements_text (nodes (times_nodes actors.now))) }
{
    for actor in actors {
        put_times(alloc, text, actor)?;
    }
    Ok(())
}

fn put_sizes(alloc: Global, text: &mut Vec<u8>, channels: &[ChannelRow]) -> Result<(), AllocError>
    ensures { OnOk result (text.new.items ≡ text.old.items ++ elements_text (nodes (map size_node channels.now))) }
{
    for channel in channels {
        put_size(alloc, text, channel)?;
    }
    Ok(())
}
