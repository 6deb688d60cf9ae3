//! The points of a file of scenarios: x takes 1 time unit and y 2, each with a token of its own, on the channels o and p, and
//! x sends to y along s, on which one token lies between rounds. State q0 runs this again and again.

ghost use Rattle.std.specs.Prelude.{◌≡◌, ◌<◌, ◌≤◌, All, IfOk, true, length};
ghost use Rattle.report.specs.ScenarioPointTexts.{CanBeTold};
ghost use Rattle.report.specs.WorstTexts.{IsWorstIn, JoinsNodes};

use automaton::{Edge, TimedGraph};
use report::{
    Refusal, escaped, refusal_text, scenario_points_text, shared_buffers_text, worst_text,
};
use scenario_rate::Worst;
use scenario_storage::ScenarioPoint;
use sd_base::{Fraction, NoMemory, Rows, ScenarioFile, SharedRow, StateRow, Text};
use std::alloc::Global;
use std::process::Abort;
use std::test::Fail;
use storage::Distribution;

/// The file with so much room on s, and what shows its worst rate.
struct Bounded<'a> {
    room: u64,
    /// The shared channels, each of one token: behind those of the file the space of s, where there is some.
    names: &'a [&'a str],
    tokens: u32,
    /// Each from one node to another with a weight.
    edges: &'a [(u32, u32, u64)],
    /// The edge from a node to itself that alone is a critical cycle.
    slowest: u32,
    period: u64,
}

const CHANNELS: [&str; 3] = ["o", "p", "s"];

/// With room for one token x waits for y.
const ONE: Bounded = Bounded {
    room: 1,
    names: &CHANNELS,
    tokens: 3,
    edges: &[
        (0, 0, 1),
        (1, 0, 3),
        (2, 0, 3),
        (1, 1, 2),
        (2, 1, 2),
        (0, 2, 1),
        (1, 2, 3),
        (2, 2, 3),
    ],
    slowest: 7,
    period: 3,
};

/// With room for two both run side by side, and y alone counts.
const TWO: Bounded = Bounded {
    room: 2,
    names: &["o", "p", "s", "\u{1}s"],
    tokens: 4,
    edges: &[
        (0, 0, 1),
        (3, 0, 1),
        (1, 1, 2),
        (2, 1, 2),
        (0, 2, 1),
        (3, 2, 1),
        (1, 3, 2),
        (2, 3, 2),
    ],
    slowest: 2,
    period: 2,
};

const BOTH: &str = "points 2
point 1 1/3
buffers s=1
cycle 3 1 q0 s 0
q0 s 0 3
potentials 3
q0 o 0 0
q0 p 0 0
q0 s 0 0
point 2 1/2
buffers s=2
cycle 2 1 q0 p 0
q0 p 0 2
potentials 4
q0 o 0 0
q0 p 0 0
q0 s 0 0
q0 s/space 0 0
";

fn states(alloc: Global) -> Result<Rows<StateRow>, NoMemory> {
    let mut next = Rows::new(alloc);
    next.push(0)?;
    let mut states = Rows::new(alloc);
    states.push(StateRow {
        name: Text::of(alloc, "q0")?,
        scenario: 0,
        next,
    })?;
    Ok(states)
}

fn shared(alloc: Global, names: &[&str]) -> Result<Rows<SharedRow>, NoMemory> {
    let mut rows = Rows::new(alloc);
    for name in names {
        rows.push(SharedRow {
            name: Text::of(alloc, name)?,
            tokens: 1,
        })?;
    }
    Ok(rows)
}

/// The file with its states and shared channels. No text shows its scenarios, which are left out.
fn file(alloc: Global) -> Result<ScenarioFile, NoMemory> {
    Ok(ScenarioFile {
        scenarios: Rows::new(alloc),
        shared: shared(alloc, &CHANNELS)?,
        states: states(alloc)?,
        initial: 0,
    })
}

/// Capacities by the channels of the file, that of s alone bounded, or none.
fn capacities(alloc: Global, room: Option<u64>) -> Result<Distribution, NoMemory>
    ensures { IfOk result (λ d. length d.capacities ≡ 3) }
{
    let mut capacities = Rows::new(alloc);
    capacities.push(None)?;
    capacities.push(None)?;
    capacities.push(room)?;
    Ok(Distribution { capacities })
}

impl<'a> Bounded<'a> {
    fn graph(&self, alloc: Global) -> Result<TimedGraph, NoMemory> {
        let mut edges = Rows::new(alloc);
        for edge in self.edges {
            edges.push(Edge {
                from: edge.0,
                to: edge.1,
                weight: edge.2,
            })?;
        }
        Ok(TimedGraph {
            tokens: self.tokens,
            initial: 0,
            states: 1,
            edges,
        })
    }

    /// The potentials are all 0.
    fn worst(&self, alloc: Global) -> Result<Worst, NoMemory>
        requires { 1 ≤ self.now.period }
    {
        let mut cycle = Rows::new(alloc);
        cycle.push(self.slowest)?;
        let mut potentials = Rows::new(alloc);
        for _ in self.names {
            potentials.push(Some(0))?;
        }
        Ok(Worst {
            rate: Fraction::new(1, self.period),
            cycle,
            potentials,
        })
    }

    /// Its point.
    fn point(
        &self,
        rt: &impl Abort,
        alloc: Global,
        file: &ScenarioFile,
    ) -> Result<ScenarioPoint, Fail>
        requires period { 1 ≤ self.now.period }
        requires channels { length file.now.shared ≡ 3 }
        ensures { IfOk result (CanBeTold file.now) }
    {
        let graph = self.graph(alloc)?;
        let worst = self.worst(alloc)?;
        assert!(rt; is_worst_in(file.states.as_slice(), &graph, &worst));
        Ok(ScenarioPoint {
            total: self.room,
            rate: worst.rate,
            capacities: capacities(alloc, Some(self.room))?,
            shared: shared(alloc, self.names)?,
            graph,
            worst,
        })
    }
}

/// Whether what is shown of a graph lies in it.
fn is_worst_in(states: &[StateRow], graph: &TimedGraph, worst: &Worst) -> bool
    ensures { result ≡ true → IsWorstIn states.now graph.now worst.now }
{
    let nodes = u64::from(graph.states) * u64::from(graph.tokens);
    u64::from(graph.states) == states.len() as u64
        && are_joined(graph.edges.as_slice(), nodes)
        && !worst.cycle.is_empty()
        && are_below(worst.cycle.as_slice(), graph.edges.len())
        && worst.potentials.len() as u64 == nodes
}

fn are_joined(edges: &[Edge], nodes: u64) -> bool
    ensures { result ≡ true → All (JoinsNodes nodes) edges.now }
{
    edges.iter().all(|edge| is_joined(edge, nodes))
}

fn is_joined(edge: &Edge, nodes: u64) -> bool
    ensures { result ≡ true → JoinsNodes nodes edge.now }
{
    u64::from(edge.from) < nodes && u64::from(edge.to) < nodes
}

fn are_below(numbers: &[u32], bound: usize) -> bool
    ensures { result ≡ true → All (λ k. k < bound) numbers.now }
{
    numbers.iter().all(|number| (*number as usize) < bound)
}

#[test]
fn points_of_scenarios_are_shown_one_after_the_other(rt: HostRuntime) -> Result<(), Fail> {
    let alloc = rt.alloc();
    let file = file(alloc)?;
    assert!(rt; file.shared.len() == 3);
    let points = [ONE.point(&rt, alloc, &file)?, TWO.point(&rt, alloc, &file)?];
    let text = scenario_points_text(alloc, &file, &points)?;
    assert_eq!(rt; text.as_slice(), BOTH.as_bytes());
    Ok(())
}

/// The worst rate with room for one token.
const WORST: &str = "rate 1/3
cycle 3 1 q0 s 0
q0 s 0 3
potentials 3
q0 o 0 0
q0 p 0 0
q0 s 0 0
";

#[test]
fn a_worst_rate_is_shown(rt: HostRuntime) -> Result<(), Fail> {
    let alloc = rt.alloc();
    let file = file(alloc)?;
    let graph = ONE.graph(alloc)?;
    let worst = ONE.worst(alloc)?;
    assert!(rt; is_worst_in(file.states.as_slice(), &graph, &worst));
    let text = worst_text(alloc, &file, &graph, &worst)?;
    assert_eq!(rt; text.as_slice(), WORST.as_bytes());
    Ok(())
}

#[test]
fn names_are_escaped(rt: HostRuntime) -> Result<(), Fail> {
    let text = escaped(rt.alloc(), "my buf")?;
    assert_eq!(rt; text.as_str(), "my%20buf");
    Ok(())
}

#[test]
fn capacities_of_shared_channels_are_listed(rt: HostRuntime) -> Result<(), Fail> {
    let alloc = rt.alloc();
    let channels = shared(alloc, &["o", "p", "s t"])?;
    assert!(rt; channels.len() == 3);
    let unbounded = shared_buffers_text(alloc, channels.as_slice(), &capacities(alloc, None)?)?;
    assert_eq!(rt; unbounded.as_str(), "-");
    let bounded = shared_buffers_text(alloc, channels.as_slice(), &capacities(alloc, Some(4))?)?;
    assert_eq!(rt; bounded.as_str(), "s%20t=4");
    Ok(())
}

/// The line that refuses a graph of more edges than these at a distribution.
fn too_many_edges(alloc: Global, number: u64, at: Text) -> Result<Rows<u8>, NoMemory> {
    refusal_text(alloc, &Refusal::EdgesAt { number, at })
}

#[test]
fn a_graph_of_too_many_edges_names_its_distribution(rt: HostRuntime) -> Result<(), Fail> {
    let at = Text::of(rt.alloc(), "s=300")?;
    let line = too_many_edges(rt.alloc(), 65_536, at)?;
    let shown = "sdf3analysis: limit: edges above 65536 at s=300\n";
    assert_eq!(rt; line.as_slice(), shown.as_bytes());
    Ok(())
}
