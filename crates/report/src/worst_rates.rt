ghost use Rattle.std.specs.Prelude.{◌≡◌, ◌≤◌, ◌<◌, ◌*◌, ◌+◌, ◌++◌, All, IfOk, OnOk, length, slice_get};
ghost use Rattle.std.specs.String.{string_bytes};
ghost use Rattle.automaton.specs.CriticalCycles.{weight_in, weights};
ghost use Rattle.report.specs.WorstTexts.{IsWorstIn, JoinsNodes, edge_line, edge_on, node_text, potential_count, potential_line, potential_lines, potentials_header, shared_name, shown_lines, state_name, token_on, token_text, worst_cycle_lines, worst_header, worst_lines, worst_rate_line};

use crate::answers::bytes_of;
use crate::fractions::put_fraction;
use automaton::{Edge, TimedGraph};
use escapes::put_escaped;
use scenario_rate::Worst;
use sd_base::{Fraction, NoMemory, Rows, ScenarioFile, SharedRow, StateRow};
use std::alloc::{AllocError, Global};

/// What the nodes of a timed graph are named by: its states, and the channels of its shared tokens.
#[derive(Clone, Copy)]
pub(crate) struct Nodes<'a> {
    pub(crate) states: &'a [StateRow],
    pub(crate) shared: &'a [SharedRow],
}

/// The text of the worst rate of a file of scenarios: a line `rate X`; `cycle W L` with the time and the rounds of a critical cycle and the node
/// at which it begins, and per edge the node that it enters and its weight; `potentials N`, and per node that has one
/// its potential. A node is its state, the channel of its token, and the token's number there; a channel whose name begins
/// with U+0001 is the free space of the channel with the rest of the name, and shown as `NAME/space`. Cost: linear in the
/// text and in the nodes, times the shared channels.
#[tactic(auto, unfolding(crate::specs::WorstTexts::worst_lines))]
pub fn worst_text(
    alloc: Global,
    file: &ScenarioFile,
    graph: &TimedGraph,
    worst: &Worst,
) -> Result<Rows<u8>, NoMemory>
    requires { IsWorstIn file.now.states graph.now worst.now }
    ensures { IfOk result (λ t. t ≡ worst_lines file.now.states file.now.shared graph.now worst.now) }
{
    let nodes = Nodes {
        states: file.states.as_slice(),
        shared: file.shared.as_slice(),
    };
    let mut text = String::new(alloc);
    put_rate(&mut text, worst.rate)?;
    put_shown(&mut text, &nodes, graph, worst)?;
    Ok(bytes_of(text))
}

/// Puts what shows a worst rate at the end of a text.
pub(crate) fn put_shown(
    text: &mut String,
    nodes: &Nodes,
    graph: &TimedGraph,
    worst: &Worst,
) -> Result<(), AllocError>
    requires { IsWorstIn nodes.now.states.now graph.now worst.now }
    ensures { OnOk result (string_bytes text.new ≡ string_bytes text.old ++ shown_lines nodes.now.states.now nodes.now.shared.now graph.now worst.now) }
{
    put_cycle(text, nodes, graph, worst.cycle.as_slice())?;
    put_count(text, count_potentials(worst.potentials.as_slice()))?;
    put_potentials(text, nodes, graph, worst.potentials.as_slice())?;
    Ok(())
}

#[tactic(auto, unfolding(crate::specs::WorstTexts::worst_rate_line))]
fn put_rate(text: &mut String, rate: Fraction) -> Result<(), AllocError>
    ensures { OnOk result (string_bytes text.new ≡ string_bytes text.old ++ worst_rate_line rate.num rate.den) }
{
    text.push_str("rate ")?;
    put_fraction(text, rate)?;
    text.push_str("\n")
}

/// Puts the lines of a cycle, given by the numbers of its edges, at the end of a text.
fn put_cycle(
    text: &mut String,
    nodes: &Nodes,
    graph: &TimedGraph,
    cycle: &[u32],
) -> Result<(), AllocError>
    requires states { graph.now.states ≡ length nodes.now.states.now }
    requires edges { All (JoinsNodes (graph.now.states * graph.now.tokens)) graph.now.edges }
    requires some { 1 ≤ length cycle.now }
    requires cycle { All (λ k. k < length graph.now.edges) cycle.now }
    ensures { OnOk result (string_bytes text.new ≡ string_bytes text.old ++ worst_cycle_lines nodes.now.states.now nodes.now.shared.now graph.now cycle.now) }
{
    let edges = graph.edges.as_slice();
    let time = time_of(edges, cycle);
    put_header(
        text,
        nodes,
        graph,
        time,
        cycle.len(),
        edges[cycle[0] as usize],
    )?;
    for k in cycle {
        put_edge(text, nodes, graph, edges[*k as usize])?;
    }
    Ok(())
}

/// The sum of the weights of edges, in time units.
fn time_of(edges: &[Edge], cycle: &[u32]) -> u128
    requires { All (λ k. k < length edges.now) cycle.now }
    ensures { result ≡ weights edges.now cycle.now }
{
    let mut time: u128 = 0;
    for k in cycle {
        time += u128::from(weight_of(edges, *k));
    }
    time
}

fn weight_of(edges: &[Edge], k: u32) -> u64
    requires { k < length edges.now }
    ensures { result ≡ weight_in (slice_get edges.now k) }
{
    edges[k as usize].weight
}

#[tactic(auto, unfolding(crate::specs::WorstTexts::worst_header))]
fn put_header(
    text: &mut String,
    nodes: &Nodes,
    graph: &TimedGraph,
    time: u128,
    rounds: usize,
    first: Edge,
) -> Result<(), AllocError>
    requires { first.from < length nodes.now.states.now * graph.now.tokens }
    ensures { OnOk result (string_bytes text.new ≡ string_bytes text.old ++ worst_header nodes.now.states.now nodes.now.shared.now graph.now time rounds first) }
{
    write!(text, "cycle {time} {rounds} ")?;
    put_node(text, nodes, u64::from(graph.tokens), u64::from(first.from))?;
    text.push_str("\n")
}

#[tactic(auto, unfolding(crate::specs::WorstTexts::edge_line))]
fn put_edge(
    text: &mut String,
    nodes: &Nodes,
    graph: &TimedGraph,
    edge: Edge,
) -> Result<(), AllocError>
    requires { edge.to < length nodes.now.states.now * graph.now.tokens }
    ensures { OnOk result (string_bytes text.new ≡ string_bytes text.old ++ edge_line nodes.now.states.now nodes.now.shared.now graph.now edge) }
{
    put_node(text, nodes, u64::from(graph.tokens), u64::from(edge.to))?;
    let weight = edge.weight;
    write!(text, " {weight}\n")
}

/// Puts a node of a timed graph with so many shared tokens at the end of a text.
#[tactic(auto, unfolding(crate::specs::WorstTexts::node_text))]
fn put_node(text: &mut String, nodes: &Nodes, tokens: u64, node: u64) -> Result<(), AllocError>
    requires { node < length nodes.now.states.now * tokens }
    ensures { OnOk result (string_bytes text.new ≡ string_bytes text.old ++ node_text nodes.now.states.now nodes.now.shared.now tokens node) }
{
    put_state(text, nodes, node / tokens)?;
    text.push_str(" ")?;
    put_token(text, nodes.shared, node % tokens)
}

#[tactic(auto, unfolding(crate::specs::WorstTexts::state_name))]
fn put_state(text: &mut String, nodes: &Nodes, state: u64) -> Result<(), AllocError>
    requires { state < length nodes.now.states.now }
    ensures { OnOk result (string_bytes text.new ≡ string_bytes text.old ++ state_name nodes.now.states.now state) }
{
    put_escaped(text, nodes.states[state as usize].name.as_str())
}

/// Puts a shared token at the end of a text: its channel, and its number there.
fn put_token(text: &mut String, shared: &[SharedRow], token: u64) -> Result<(), AllocError>
    ensures { OnOk result (string_bytes text.new ≡ string_bytes text.old ++ token_text shared.now token) }
{
    let mut number = token;
    let mut left = shared;
    while let [row, rest @ ..] = left {
        if number < row.tokens {
            return put_token_on(text, row.name.as_str(), number);
        }
        number -= row.tokens;
        left = rest;
    }
    Ok(())
}

#[tactic(auto, unfolding(crate::specs::WorstTexts::token_on))]
fn put_token_on(text: &mut String, channel: &str, number: u64) -> Result<(), AllocError>
    ensures { OnOk result (string_bytes text.new ≡ string_bytes text.old ++ token_on channel.now number) }
{
    put_shared(text, channel)?;
    write!(text, " {number}")
}

/// Puts the name of a shared channel at the end of a text; that of a free space is its channel's with `/space`.
#[tactic(auto, unfolding(crate::specs::WorstTexts::shared_name))]
fn put_shared(text: &mut String, name: &str) -> Result<(), AllocError>
    ensures { OnOk result (string_bytes text.new ≡ string_bytes text.old ++ shared_name name.now) }
{
    match name.strip_prefix('\u{1}') {
        Some(channel) => {
            put_escaped(text, channel)?;
            text.push_str("/space")
        }
        None => put_escaped(text, name),
    }
}

/// How many nodes have a potential.
fn count_potentials(potentials: &[Option<i128>]) -> usize
    ensures { result ≡ potential_count potentials.now }
{
    let mut count: usize = 0;
    let mut left = potentials;
    while let [first, rest @ ..] = left {
        if first.is_some() {
            count += 1;
        }
        left = rest;
    }
    count
}

#[tactic(auto, unfolding(crate::specs::WorstTexts::potentials_header))]
fn put_count(text: &mut String, count: usize) -> Result<(), AllocError>
    ensures { OnOk result (string_bytes text.new ≡ string_bytes text.old ++ potentials_header count) }
{
    write!(text, "potentials {count}\n")
}

/// Puts a line for each node that has a potential at the end of a text.
fn put_potentials(
    text: &mut String,
    nodes: &Nodes,
    graph: &TimedGraph,
    potentials: &[Option<i128>],
) -> Result<(), AllocError>
    requires { length potentials.now ≤ length nodes.now.states.now * graph.now.tokens }
    ensures { OnOk result (string_bytes text.new ≡ string_bytes text.old ++ potential_lines nodes.now.states.now nodes.now.shared.now graph.now.tokens 0 potentials.now) }
{
    let tokens = u64::from(graph.tokens);
    let mut node: u64 = 0;
    let mut left = potentials;
    while let [first, rest @ ..] = left {
        if let Some(potential) = first {
            put_potential(text, nodes, tokens, node, *potential)?;
        }
        node += 1;
        left = rest;
    }
    Ok(())
}

#[tactic(auto, unfolding(crate::specs::WorstTexts::potential_line))]
fn put_potential(
    text: &mut String,
    nodes: &Nodes,
    tokens: u64,
    node: u64,
    potential: i128,
) -> Result<(), AllocError>
    requires { node < length nodes.now.states.now * tokens }
    ensures { OnOk result (string_bytes text.new ≡ string_bytes text.old ++ potential_line nodes.now.states.now nodes.now.shared.now tokens node potential) }
{
    put_node(text, nodes, tokens, node)?;
    write!(text, " {potential}\n")
}
