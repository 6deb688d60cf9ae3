ghost use Rattle.std.specs.Prelude.{◌≡◌, ℕ, true, ◌-◌, ◌*◌, ◌≤◌, IfOk, length};
ghost use Rattle.sd_base.specs.declared.limits.TheConstants.{NET_CHANNELS, STORAGE};
ghost use Rattle.sd_base.specs.declared.tables.Kind.TheVariants.{Sdf};
ghost use Rattle.sd_base.specs.Tables.{IsTimed, KeepsRules};
ghost use Rattle.sd_base.specs.Connection.{IsConnected};
ghost use Rattle.sd_base.specs.FileNet.{net_of};
ghost use Rattle.balance.specs.Repetition.{IsRound};
ghost use Rattle.storage.specs.Distributions.{IsPlain};
ghost use Rattle.gen_graph.specs.MadeGraphs.{made_graph};
ghost use Rattle.graph_reader.specs.declared.error.ReadError.TheVariants as reading;
ghost use Rattle.pareto_search.specs.Entrances.{IsEvaluating};
ghost use Rattle.report.specs.LinkTexts.{IsNamed};
ghost use Rattle.sd_words.specs.Asked.{AreLimits, AreMadeActors};
ghost use Rattle.sd_command.specs.commands.Generations.{generate, summary_of, summed, usual_limits};
ghost use Rattle.sd_command.specs.Entrances.{generate_entered, summed_entered};
ghost use Rattle.sd_command.specs.inside.Goings.{Goes};

use crate::commands::parallel::Parallel;
use crate::commands::searches::points_within;
use fanout::Gate;
use firing::{Firing, SdfNet, Wired, Wiring};
use gen_graph::{make, write_graph};
use graph_reader::{ReadError, know_files, read_graph};
use report::summary_text;
use sd_base::limits::{USUAL_DISTRIBUTIONS, USUAL_STATES};
use sd_base::{GraphFile, Ledger, Limits, NoMemory, Rows, Steps};
use sd_steps::balancing::balanced;
use sd_steps::nets::{complete, test_incident};
use sd_steps::{Answer, Stop};
use std::alloc::Global;
use std::thread::Threads;

/// The trade-off of the graph that is made from a number: the graph is written, read again, and its points are
/// searched.
pub(crate) fn answer<R: Threads + Sync, G: Gate + Sync, L: Ledger + Send>(
    parallel: &Parallel<'_, R, G>,
    alloc: Global,
    seed: u64,
    limit: u64,
    actors: u32,
    steps: &mut Steps<L>,
) -> Result<Answer, Stop>
    requires limit { limit ≤ STORAGE }
    requires actors { AreMadeActors actors }
    ensures goes { (faults : ℕ) →
        Goes (generate seed limit actors) result (steps.new.count - steps.old.count) faults faults }
    ensures entered { IfOk result (λ _. generate_entered seed limit actors (G.entered parallel.now.gate.now) (steps.new.count - steps.old.count)) }
    ensures rises { steps.old.count ≤ steps.new.count }
    ensures share { steps.new.share ≡ steps.old.share }
{
    let graph = made_again(alloc, seed, actors)?;
    summed(parallel, alloc, seed, graph, usual_limits(limit), steps)
}

// The graph of a number, written as a graph file and read again.
fn made_again(alloc: Global, seed: u64, actors: u32) -> Result<GraphFile, NoMemory>
    requires { AreMadeActors actors }
    ensures made { IfOk result (λ g. g ≡ made_graph seed actors) }
    ensures keeps { IfOk result KeepsRules }
    ensures timed { IfOk result IsTimed }
    ensures sdf { IfOk result (λ g. g.kind ≡ Sdf) }
{
    know_files();
    let graph = make(alloc, seed, actors)?;
    let bytes = write_graph(alloc, &graph)?;
    match read_graph(alloc, bytes.as_slice(), true) {
        Ok(again) => Ok(again),
        Err(error) => Err(want_of_memory(&error)),
    }
}

// What was written is read, but for want of memory.
fn want_of_memory(error: &ReadError) -> NoMemory
    requires { error.now ≡ reading.NoMemory }
{
    match error {
        ReadError::NoMemory => NoMemory,
        _ => unreachable!(),
    }
}

// What a search up to a total may use.
fn usual_limits(total: u64) -> Limits
    requires { total ≤ STORAGE }
    ensures value { result ≡ usual_limits total }
    ensures within { AreLimits result }
{
    Limits {
        total,
        states: USUAL_STATES,
        distributions: USUAL_DISTRIBUTIONS,
    }
}

/// A graph that was made from a number, with its repetition vector.
#[derive(Drop)]
struct Made {
    seed: u64,
    graph: GraphFile,
    gamma: Rows<u64>,
}

// The summary of a graph.
fn summed<R: Threads + Sync, G: Gate + Sync, L: Ledger + Send>(
    parallel: &Parallel<'_, R, G>,
    alloc: Global,
    seed: u64,
    graph: GraphFile,
    limits: Limits,
    steps: &mut Steps<L>,
) -> Result<Answer, Stop>
    requires rules { KeepsRules graph }
    requires timed { IsTimed graph }
    requires sdf { graph.kind ≡ Sdf }
    requires limits { AreLimits limits }
    ensures goes { (faults : ℕ) → Goes (summed seed limits graph) result (steps.new.count - steps.old.count) faults faults }
    ensures entered { IfOk result (λ _. summed_entered limits graph (G.entered parallel.now.gate.now) (steps.new.count - steps.old.count)) }
    ensures rises { steps.old.count ≤ steps.new.count }
    ensures share { steps.new.share ≡ steps.old.share }
{
    let gamma = balanced(alloc, &graph)?;
    let made = Made { seed, graph, gamma };
    summary_of_graph(parallel, alloc, &made, limits, steps)
}

// The summary of the net of a synchronous graph with its repetition vector.
fn summary_of_graph<R: Threads + Sync, G: Gate + Sync, L: Ledger + Send>(
    parallel: &Parallel<'_, R, G>,
    alloc: Global,
    made: &Made,
    limits: Limits,
    steps: &mut Steps<L>,
) -> Result<Answer, Stop>
    requires rules { KeepsRules made.now.graph }
    requires timed { IsTimed made.now.graph }
    requires sdf { made.now.graph.kind ≡ Sdf }
    requires round { IsRound made.now.graph made.now.gamma }
    requires limits { AreLimits limits }
    ensures goes { (faults : ℕ) →
        Goes (summary_of made.now.seed made.now.graph made.now.gamma (net_of made.now.graph made.now.gamma true) limits) result (steps.new.count - steps.old.count) faults faults }
    ensures entered { IfOk result (λ _. IsEvaluating (net_of made.now.graph made.now.gamma true) limits (G.entered parallel.now.gate.now) (steps.new.count - steps.old.count)) }
    ensures rises { steps.old.count ≤ steps.new.count }
    ensures share { steps.new.share ≡ steps.old.share }
{
    let net = SdfNet::new(alloc, &made.graph, made.gamma.as_slice(), true)?;
    summary_of(parallel, alloc, &net, made, limits, steps)
}

// The summary of the Pareto points of a net within a limit. The graph has the names of its actors and channels.
fn summary_of<R: Threads + Sync, F: Firing + Sync, G: Gate + Sync, L: Ledger + Send>(
    parallel: &Parallel<'_, R, G>,
    alloc: Global,
    net: &F,
    made: &Made,
    limits: Limits,
    steps: &mut Steps<L>,
) -> Result<Answer, Stop>
    requires named { IsNamed made.now.graph (F.net net.now) }
    requires plain { IsPlain (F.net net.now) }
    requires connected { IsConnected (F.net net.now) }
    requires few { 2 * length (F.net net.now).channels ≤ NET_CHANNELS }
    requires round { IsRound made.now.graph made.now.gamma }
    requires limits { AreLimits limits }
    ensures goes { (faults : ℕ) →
        Goes (summary_of made.now.seed made.now.graph made.now.gamma (F.net net.now) limits) result (steps.new.count - steps.old.count) faults faults }
    ensures entered { IfOk result (λ _. IsEvaluating (F.net net.now) limits (G.entered parallel.now.gate.now) (steps.new.count - steps.old.count)) }
    ensures rises { steps.old.count ≤ steps.new.count }
    ensures share { steps.new.share ≡ steps.old.share }
{
    test_incident(alloc, net, &made.graph)?;
    let wiring = Wiring::new(alloc, net)?;
    let wired = Wired {
        net,
        wiring: &wiring,
    };
    complete(alloc, &wired, &made.graph)?;
    let points = points_within(parallel, alloc, net, &made.graph, limits, steps)?;
    Ok(Answer {
        text: summary_text(
            alloc,
            made.seed,
            &made.graph,
            made.gamma.as_slice(),
            points.as_slice(),
        )?,
        put: None,
    })
}
