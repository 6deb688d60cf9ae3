ghost use Rattle.std.specs.Prelude.{◌≡◌, ℕ, ◌-◌, ◌≤◌, All};
ghost use Rattle.sd_base.specs.declared.limits.TheConstants.{CAPACITY};
ghost use Rattle.sd_base.specs.FileNet.{net_of};
ghost use Rattle.sd_base.specs.Tables.{IsTimed, KeepsRules};
ghost use Rattle.storage.specs.BoundedNets.{bound};
ghost use Rattle.storage.specs.NamedBuffers.{Buffer};
ghost use Rattle.sd_command.specs.commands.BoundedCourses.{on_bounded, on_file};
ghost use Rattle.sd_command.specs.inside.Goings.{AnswersFrom, Goes};
ghost use Rattle.sd_command.specs.inside.Wants.{IsBounded, IsWithin, no_overlap_of, on_net};

use crate::commands::bounded_graph::BoundedGraph;
use crate::commands::expansion::expansion_of;
use crate::commands::in_order::rate_in_order;
use crate::commands::least_time::time_of;
use crate::commands::rates::rate_of;
use crate::commands::wanted::{OnBounded, Wanted};
use firing::{CsdfNet, Firing, SdfNet};
use sd_base::{GraphFile, Kind, Ledger, Steps, Text};
use sd_io::Shelf;
use sd_steps::balancing::balanced;
use sd_steps::buffering::buffered;
use sd_steps::opening::open_graph;
use sd_steps::{Answer, Stop};
use std::alloc::Global;
use storage::Bounded;

/// What is wanted of the net of a graph file whose named channels have a capacity.
pub(crate) fn answer<S: Shelf, L: Ledger>(
    alloc: Global,
    shelf: &mut S,
    asked: &OnBounded,
    steps: &mut Steps<L>,
) -> Result<Answer, Stop>
    requires small { All (λ (b : Buffer). b.1 ≤ CAPACITY) asked.now.buffers }
    requires within { IsWithin asked.now.wanted }
    ensures answers { AnswersFrom (on_file asked.now.graph asked.now.buffers (no_overlap_of asked.now.wanted) (on_net asked.now.wanted)) (S.files shelf.old) (S.files shelf.new) (S.faults shelf.old) (S.faults shelf.new) result (steps.new.count - steps.old.count) }
    ensures rises { steps.old.count ≤ steps.new.count }
    ensures share { steps.new.share ≡ steps.old.share }
{
    let graph = open_graph(alloc, shelf, asked.graph.as_str(), true)?;
    on_bounded(
        alloc,
        &graph,
        asked.buffers.as_slice(),
        &asked.wanted,
        steps,
    )
}

// The same of a graph.
fn on_bounded<L: Ledger>(
    alloc: Global,
    graph: &GraphFile,
    buffers: &[(Text, u64)],
    wanted: &Wanted,
    steps: &mut Steps<L>,
) -> Result<Answer, Stop>
    requires rules { KeepsRules graph.now }
    requires timed { IsTimed graph.now }
    requires small { All (λ (b : Buffer). b.1 ≤ CAPACITY) buffers.now }
    requires within { IsWithin wanted.now }
    ensures goes { (faults : ℕ) →
        Goes (on_bounded graph.now buffers.now (no_overlap_of wanted.now) (on_net wanted.now)) result (steps.new.count - steps.old.count) faults faults }
    ensures rises { steps.old.count ≤ steps.new.count }
    ensures share { steps.new.share ≡ steps.old.share }
{
    let distribution = buffered(alloc, graph, buffers)?;
    let gamma = balanced(alloc, graph)?;
    let bounded = BoundedGraph {
        graph,
        gamma: gamma.as_slice(),
        distribution: &distribution,
    };
    on_kind(alloc, &bounded, wanted, steps)
}

// The same of a graph with its repetition vector and the capacities of its channels. Each kind of graphs has a net of its own,
// so that the analyses ask nothing of the kind at each event.
fn on_kind<L: Ledger>(
    alloc: Global,
    bounded: &BoundedGraph<'_>,
    wanted: &Wanted,
    steps: &mut Steps<L>,
) -> Result<Answer, Stop>
    requires bounded { let b = bounded.now in IsBounded b.graph.now b.gamma.now (no_overlap_of wanted.now) b.distribution.now.capacities }
    requires within { IsWithin wanted.now }
    ensures goes { let b = bounded.now in (faults : ℕ) →
        Goes (on_net wanted.now b.graph.now b.gamma.now b.distribution.now (bound (net_of b.graph.now b.gamma.now (no_overlap_of wanted.now)) b.distribution.now.capacities)) result (steps.new.count - steps.old.count) faults faults }
    ensures rises { steps.old.count ≤ steps.new.count }
    ensures share { steps.new.share ≡ steps.old.share }
{
    match bounded.graph.kind {
        Kind::Sdf => {
            let net = SdfNet::new(alloc, bounded.graph, bounded.gamma, wanted.no_overlap())?;
            within(alloc, &net, bounded, wanted, steps)
        }
        Kind::Csdf => {
            let net = CsdfNet::new(alloc, bounded.graph, bounded.gamma, wanted.no_overlap())?;
            within(alloc, &net, bounded, wanted, steps)
        }
    }
}

// The same of the net of the graph.
fn within<F: Firing, L: Ledger>(
    alloc: Global,
    net: &F,
    bounded: &BoundedGraph<'_>,
    wanted: &Wanted,
    steps: &mut Steps<L>,
) -> Result<Answer, Stop>
    requires net { F.net net.now ≡ net_of bounded.now.graph.now bounded.now.gamma.now (no_overlap_of wanted.now) }
    requires bounded { let b = bounded.now in IsBounded b.graph.now b.gamma.now (no_overlap_of wanted.now) b.distribution.now.capacities }
    requires within { IsWithin wanted.now }
    ensures goes { let b = bounded.now in (faults : ℕ) →
        Goes (on_net wanted.now b.graph.now b.gamma.now b.distribution.now (bound (net_of b.graph.now b.gamma.now (no_overlap_of wanted.now)) b.distribution.now.capacities)) result (steps.new.count - steps.old.count) faults faults }
    ensures rises { steps.old.count ≤ steps.new.count }
    ensures share { steps.new.share ≡ steps.old.share }
{
    let net = Bounded::new(alloc, net, bounded.distribution)?;
    on_net(alloc, &net, bounded, wanted, steps)
}

// The same of the bounded net.
fn on_net<F: Firing, L: Ledger>(
    alloc: Global,
    net: &F,
    bounded: &BoundedGraph<'_>,
    wanted: &Wanted,
    steps: &mut Steps<L>,
) -> Result<Answer, Stop>
    requires net { let b = bounded.now in F.net net.now ≡ bound (net_of b.graph.now b.gamma.now (no_overlap_of wanted.now)) b.distribution.now.capacities }
    requires bounded { let b = bounded.now in IsBounded b.graph.now b.gamma.now (no_overlap_of wanted.now) b.distribution.now.capacities }
    requires within { IsWithin wanted.now }
    ensures goes { let b = bounded.now in (faults : ℕ) →
        Goes (on_net wanted.now b.graph.now b.gamma.now b.distribution.now (F.net net.now)) result (steps.new.count - steps.old.count) faults faults }
    ensures rises { steps.old.count ≤ steps.new.count }
    ensures share { steps.new.share ≡ steps.old.share }
{
    match wanted {
        Wanted::Rate(rate) => rate_of(alloc, net, bounded.graph, bounded.distribution, rate, steps),
        Wanted::Ordered { lists, rate } => {
            rate_in_order(alloc, net, bounded, lists.as_slice(), rate, steps)
        }
        Wanted::Rounds(rounds) => time_of(alloc, net, bounded.graph, rounds, steps),
        Wanted::Expansion { output, .. } => {
            expansion_of(alloc, net, bounded.graph, output.as_str())
        }
    }
}
