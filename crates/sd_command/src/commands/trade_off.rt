ghost use Rattle.std.specs.Prelude.{◌≡◌, ℕ, ◌-◌, ◌≤◌, IfOk};
ghost use Rattle.sd_base.specs.Tables.{IsTimed, KeepsRules};
ghost use Rattle.sd_words.specs.Asked.{AreLimits};
ghost use Rattle.sd_command.specs.commands.TradeOffs.{storage, trade_off};
ghost use Rattle.sd_command.specs.Entrances.{storage_entered, trade_off_entered};
ghost use Rattle.sd_command.specs.inside.Goings.{AnswersFrom, Goes};

use crate::commands::parallel::Parallel;
use crate::commands::points::points_of_graph;
use crate::commands::wanted::WantedPoints;
use fanout::Gate;
use sd_base::{GraphFile, Ledger, Steps};
use sd_io::Shelf;
use sd_steps::balancing::balanced;
use sd_steps::opening::open_graph;
use sd_steps::{Answer, Stop};
use std::alloc::Global;
use std::thread::Threads;

/// The trade-off between storage and rate of a graph file: its Pareto points within a limit of storage.
pub(crate) fn answer<R: Threads + Sync, S: Shelf, G: Gate + Sync, L: Ledger + Send>(
    parallel: &Parallel<'_, R, G>,
    alloc: Global,
    shelf: &mut S,
    name: &str,
    wanted: &WantedPoints,
    steps: &mut Steps<L>,
) -> Result<Answer, Stop>
    requires limits { AreLimits wanted.now.limits }
    ensures answers { AnswersFrom (storage name.now wanted.now) (S.files shelf.old) (S.files shelf.new) (S.faults shelf.old) (S.faults shelf.new) result (steps.new.count - steps.old.count) }
    ensures entered { IfOk result (λ _. storage_entered name.now wanted.now (S.files shelf.old) (G.entered parallel.now.gate.now) (steps.new.count - steps.old.count)) }
    ensures rises { steps.old.count ≤ steps.new.count }
    ensures share { steps.new.share ≡ steps.old.share }
{
    let graph = open_graph(alloc, shelf, name, true)?;
    trade_off(parallel, alloc, &graph, wanted, steps)
}

// The trade-off of a graph.
fn trade_off<R: Threads + Sync, G: Gate + Sync, L: Ledger + Send>(
    parallel: &Parallel<'_, R, G>,
    alloc: Global,
    graph: &GraphFile,
    wanted: &WantedPoints,
    steps: &mut Steps<L>,
) -> Result<Answer, Stop>
    requires rules { KeepsRules graph.now }
    requires timed { IsTimed graph.now }
    requires limits { AreLimits wanted.now.limits }
    ensures goes { (faults : ℕ) →
        Goes (trade_off wanted.now graph.now) result (steps.new.count - steps.old.count) faults faults }
    ensures entered { IfOk result (λ _. trade_off_entered wanted.now graph.now (G.entered parallel.now.gate.now) (steps.new.count - steps.old.count)) }
    ensures rises { steps.old.count ≤ steps.new.count }
    ensures share { steps.new.share ≡ steps.old.share }
{
    let gamma = balanced(alloc, graph)?;
    points_of_graph(parallel, alloc, graph, gamma.as_slice(), wanted, steps)
}
