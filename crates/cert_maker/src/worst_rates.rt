ghost use Rattle.std.specs.Prelude.{◌≡◌, ◌^◌, ◌≤◌, ◌<◌, ◌*◌, ◌+◌, IfOk, All, length, map, slice_get};
ghost use Rattle.automaton.specs.CriticalCycles.{weight_in, weights};
ghost use Rattle.cert_text.specs.Spellable.{IsSpellable};
ghost use Rattle.cert_text.specs.declared.certificates.Certificate.TheVariants.{Scenario};
ghost use Rattle.cert_text.specs.declared.certificates.ScenarioCertificate.{ScenarioCertificate as ACertificate};
ghost use Rattle.cert_maker.specs.WorstCertificates.{IsWorstCertificate, entered, node_of, nodes_on, potentials_from};

use automaton::{Edge, TimedGraph};
use cert_text::{Certificate, ScenarioCertificate};
use scenario_rate::Worst;
use sd_base::{NoMemory, Rows};
use std::alloc::{AllocError, Global};

/// The certificate of a worst rate. Cost: linear in the nodes and the cycle.
pub fn worst_certificate(
    alloc: Global,
    graph: &TimedGraph,
    worst: &Worst,
) -> Result<Certificate, NoMemory>
    requires tokens { 1 ≤ graph.now.tokens }
    requires some { 1 ≤ length worst.now.cycle }
    requires cycle { All (λ k. k < length graph.now.edges) worst.now.cycle }
    requires small { weights graph.now.edges worst.now.cycle < 2 ^ 64 }
    requires nodes { length worst.now.potentials < 2 ^ 32 }
    ensures is { IfOk result (λ c. (s : ACertificate) × (c ≡ Scenario s) × IsWorstCertificate graph.now worst.now s) }
    ensures spellable { IfOk result IsSpellable }
{
    let edges = graph.edges.as_slice();
    let cycle = worst.cycle.as_slice();
    Ok(Certificate::Scenario(ScenarioCertificate {
        rate: (worst.rate.num(), worst.rate.den()),
        time: time_of(edges, cycle),
        nodes: Rows::from_vec(nodes_on(alloc, graph, cycle)?),
        potentials: Rows::from_vec(potentials_of(
            alloc,
            graph.tokens,
            worst.potentials.as_slice(),
        )?),
    }))
}

/// The sum of the weights of edges, in time units.
fn time_of(edges: &[Edge], cycle: &[u32]) -> u64
    requires edges { All (λ k. k < length edges.now) cycle.now }
    requires small { weights edges.now cycle.now < 2 ^ 64 }
    ensures { result ≡ weights edges.now cycle.now }
{
    let mut time: u64 = 0;
    let mut left = cycle;
    while let [first, rest @ ..] = left {
        time += edges[*first as usize].weight;
        left = rest;
    }
    time
}

/// A node of a timed graph by its state and its token.
fn node_of(tokens: u32, node: u32) -> (u32, u32)
    requires { 1 ≤ tokens }
    ensures { result ≡ node_of tokens node }
{
    (node / tokens, node % tokens)
}

/// The nodes of a cycle, the last of which is the first again.
fn nodes_on(alloc: Global, graph: &TimedGraph, cycle: &[u32]) -> Result<Vec<(u32, u32)>, AllocError>
    requires tokens { 1 ≤ graph.now.tokens }
    requires edges { All (λ k. k < length graph.now.edges) cycle.now }
    requires some { 1 ≤ length cycle.now }
    ensures { IfOk result (λ n. n.items ≡ nodes_on graph.now cycle.now) }
{
    let edges = graph.edges.as_slice();
    let mut nodes = Vec::new(alloc);
    nodes.push(node_of(graph.tokens, edges[cycle[0] as usize].from))?;
    for k in cycle {
        nodes.push(node_of(graph.tokens, edges[*k as usize].to))?;
    }
    Ok(nodes)
}

/// The nodes that have a potential, each with it.
fn potentials_of(
    alloc: Global,
    tokens: u32,
    potentials: &[Option<i128>],
) -> Result<Vec<(u32, u32, i128)>, AllocError>
    requires tokens { 1 ≤ tokens }
    requires few { length potentials.now < 2 ^ 32 }
    ensures { IfOk result (λ p. p.items ≡ potentials_from tokens 0 potentials.now) }
{
    let mut found = Vec::new(alloc);
    let mut node: u32 = 0;
    let mut left = potentials;
    while let [first, rest @ ..] = left {
        if let Some(potential) = first {
            found.push((node / tokens, node % tokens, *potential))?;
        }
        node += 1;
        left = rest;
    }
    Ok(found)
}
