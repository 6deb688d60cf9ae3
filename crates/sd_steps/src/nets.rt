ghost use Rattle.std.specs.Prelude.{◌≡◌, IfOk};
ghost use Rattle.report.specs.LinkTexts.{IsNamed};
ghost use Rattle.sd_base.specs.Connection.{IsStronglyConnected, ends_of};
ghost use Rattle.sd_base.specs.Untimed.{IsLive};
ghost use Rattle.sd_steps.specs.Nets.{IsFed, completing, feeding, joining, testing, testing_incident};
ghost use Rattle.sd_steps.specs.Steps.{Does};

use crate::actor_names::name_of;
use crate::stop::Stop;
use balance::{ConnectError, no_input, strongly_connected};
use firing::{Firing, Wired, ends, know_laws};
use liveness::{Ending, finish_round, no_counts};
use report::{Refusal, lacks_text};
use sd_base::GraphFile;
use std::alloc::Global;
use storage::first_isolated;

/// Tests a net that is to be executed: paths lead from each actor to each, a channel into each, and a round can be completed.
/// `graph` has the names of the net's actors and channels.
pub fn test<F: Firing>(alloc: Global, wired: &Wired<F>, graph: &GraphFile) -> Result<(), Stop>
    requires { IsNamed graph.now (F.net wired.now.net.now) }
    ensures does { Does (testing graph.now (F.net wired.now.net.now)) result }
    ensures joined { IfOk result (λ _. IsStronglyConnected (F.net wired.now.net.now)) }
    ensures fed { IfOk result (λ _. IsFed (F.net wired.now.net.now)) }
    ensures live { IfOk result (λ _. IsLive (F.net wired.now.net.now)) }
{
    let ends = ends(alloc, wired.net)?;
    join(alloc, wired.net, graph, &ends)?;
    feed(alloc, wired.net, graph, &ends)?;
    complete(alloc, wired, graph)
}

/// Tests that paths lead from each actor to each. `graph` has the names of the net's actors and channels, and `ends` has by
/// channel its source and its target.
fn join<F: Firing>(
    alloc: Global,
    net: &F,
    graph: &GraphFile,
    ends: &[(u32, u32)],
) -> Result<(), Stop>
    requires named { IsNamed graph.now (F.net net.now) }
    requires ends { ends.now ≡ ends_of (F.net net.now) }
    ensures { Does (joining graph.now (F.net net.now)) result }
{
    know_laws(net);
    match strongly_connected(alloc, net.actors(), ends) {
        Ok(()) => Ok(()),
        Err(ConnectError::OneWay { from, to }) => Err(Stop::Refused(Refusal::OneWay {
            from: name_of(alloc, graph, from)?,
            to: name_of(alloc, graph, to)?,
        })),
        Err(ConnectError::NoMemory) => Err(Stop::OutOfMemory),
    }
}

/// Tests that a channel leads into each actor. `ends` has by channel its source and its target.
pub(crate) fn feed<F: Firing>(
    alloc: Global,
    net: &F,
    graph: &GraphFile,
    ends: &[(u32, u32)],
) -> Result<(), Stop>
    requires named { IsNamed graph.now (F.net net.now) }
    requires ends { ends.now ≡ ends_of (F.net net.now) }
    ensures { Does (feeding graph.now (F.net net.now)) result }
{
    know_laws(net);
    match no_input(net.actors(), ends) {
        None => Ok(()),
        Some(actor) => Err(Stop::Refused(Refusal::NoInput {
            scenario: None,
            actor: name_of(alloc, graph, actor)?,
        })),
    }
}

/// Tests that a channel begins or ends at each actor.
pub fn test_incident<F: Firing>(alloc: Global, net: &F, graph: &GraphFile) -> Result<(), Stop>
    requires { IsNamed graph.now (F.net net.now) }
    ensures { Does (testing_incident graph.now (F.net net.now)) result }
{
    match first_isolated(net) {
        None => Ok(()),
        Some(actor) => Err(Stop::Refused(Refusal::NoInput {
            scenario: None,
            actor: name_of(alloc, graph, actor)?,
        })),
    }
}

/// Tests that a round can be completed.
pub fn complete<F: Firing>(alloc: Global, wired: &Wired<F>, graph: &GraphFile) -> Result<(), Stop>
    requires { IsNamed graph.now (F.net wired.now.net.now) }
    ensures { Does (completing graph.now (F.net wired.now.net.now)) result }
{
    let counts = no_counts(alloc, wired.net)?;
    match finish_round(alloc, wired, counts.as_slice())? {
        Ending::Whole => Ok(()),
        Ending::Blocked { counts, lacks } => Err(Stop::Refused(Refusal::Deadlock {
            scenario: None,
            list: lacks_text(alloc, wired.net, graph, counts.as_slice(), lacks.as_slice())?,
        })),
    }
}
