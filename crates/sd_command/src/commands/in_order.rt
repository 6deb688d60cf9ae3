ghost use Rattle.std.specs.Prelude.{◌≡◌, ℕ, ◌-◌, ◌≤◌, None};
ghost use Rattle.sd_base.specs.FileNet.{net_of};
ghost use Rattle.storage.specs.BoundedNets.{bound};
ghost use Rattle.sd_words.specs.Asked.{AreStates};
ghost use Rattle.sd_command.specs.commands.InOrders.{ordered_rate_on};
ghost use Rattle.sd_command.specs.inside.Goings.{Goes};
ghost use Rattle.sd_command.specs.inside.Wants.{IsBounded};

use crate::commands::bounded_graph::BoundedGraph;
use crate::commands::rates::rate_of;
use crate::commands::wanted::WantedRate;
use firing::{Firing, know_laws};
use ordered::Ordered;
use ordered::laws::{named_orders_fit, ordered_nets_are_lawful, ordered_nets_keep_orders};
use sd_base::{Ledger, Rows, Steps, Text};
use sd_steps::ordering::in_orders;
use sd_steps::{Answer, Stop};
use std::alloc::Global;

/// The rate of the bounded net of a graph whose named actors keep orders.
pub(crate) fn rate_in_order<F: Firing, L: Ledger>(
    alloc: Global,
    net: &F,
    bounded: &BoundedGraph<'_>,
    lists: &[Rows<Text>],
    wanted: &WantedRate,
    steps: &mut Steps<L>,
) -> Result<Answer, Stop>
    requires net { let b = bounded.now in F.net net.now ≡ bound (net_of b.graph.now b.gamma.now wanted.now.no_overlap) b.distribution.now.capacities }
    requires bounded { let b = bounded.now in IsBounded b.graph.now b.gamma.now wanted.now.no_overlap b.distribution.now.capacities }
    requires states { AreStates wanted.now.states }
    requires bare { wanted.now.certificate ≡ None }
    ensures goes { let b = bounded.now in (faults : ℕ) →
        Goes (ordered_rate_on lists.now wanted.now b.graph.now b.gamma.now b.distribution.now (F.net net.now)) result (steps.new.count - steps.old.count) faults faults }
    ensures rises { steps.old.count ≤ steps.new.count }
    ensures share { steps.new.share ≡ steps.old.share }
{
    know_laws(net);
    named_orders_fit();
    ordered_nets_are_lawful();
    ordered_nets_keep_orders();
    let orders = in_orders(alloc, bounded.graph, bounded.gamma, lists)?;
    let ordered = Ordered::new(alloc, net, &orders)?;
    rate_of(
        alloc,
        &ordered,
        bounded.graph,
        bounded.distribution,
        wanted,
        steps,
    )
}
