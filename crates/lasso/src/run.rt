ghost use Rattle.std.specs.Prelude.{◌≡◌, ◌+◌, ◌≤◌, IfErr, IfOk};
ghost use Rattle.sd_base.specs.declared.limits.TheConstants.{STATES, LEAST_STATES};
ghost use Rattle.sd_base.specs.Schedules.{HasInputs};
ghost use Rattle.sd_base.specs.Untimed.{IsLive};
ghost use Rattle.sd_base.specs.Connection.{IsConnected};
ghost use Rattle.loops.specs.LoopAnswers.{IsFound, IsRunRefusal};

use event_loops::loop_by_events;
use firing::{Firing, LoopTable, Wired, Wiring, is_single_phase};
use loops::RunError;
use need_loops::loop_by_needs;
use sd_base::{Ledger, Steps};
use std::alloc::Global;

/// The loop of self-timed execution (Ghamarian et al. 2006), found without keeping its shapes: by the needs of firings alone
/// where each actor has one phase and these show it (`need_loops`), else by the shapes at its events (`event_loops`). The first
/// `states` shapes, of at most `STARTS` starts, decide whether there is one. `steps` counts the call.
///
/// Cost by needs: for each start up to a little more than the first repeat, the channels into its actor; where that finds no
/// loop, for each of some three rounds, and for some 4,000 starts at most where a round has up to 256. Cost by events: an
/// execution mostly a quarter longer than one up to the first repeat, at most some two and a half times as long, and where a
/// refusal comes twice as long as what is allowed at most; where more than `STARTS` firings start, two more beside each other.
/// Memory: two checkpoints and the present shape, and at most `STARTS` starts and as many events, with a fingerprint each.
pub fn run_loop<F: Firing, L: Ledger>(
    alloc: Global,
    net: &F,
    states: u64,
    steps: &mut Steps<L>,
) -> Result<LoopTable, RunError>
    requires live { IsLive (F.net net.now) }
    requires connected { IsConnected (F.net net.now) }
    requires inputs { HasInputs (F.net net.now) }
    requires some { LEAST_STATES ≤ states }
    requires few { states ≤ STATES }
    ensures found { IfOk result (IsFound (F.net net.now) states) }
    ensures refused { IfErr result (IsRunRefusal (F.net net.now) states) }
    ensures ticked { steps.new.count ≡ steps.old.count + 1 }
    ensures kept { steps.new.share ≡ steps.old.share }
{
    steps.tick();
    let wiring = Wiring::new(alloc, net)?;
    let wired = Wired {
        net,
        wiring: &wiring,
    };
    find_loop(alloc, &wired, states)
}

/// The loop of a net whose wiring is there already, as `run_loop` finds it: by needs where this shows it, else by events. It counts
/// no step.
pub fn find_loop<F: Firing>(
    alloc: Global,
    wired: &Wired<F>,
    states: u64,
) -> Result<LoopTable, RunError>
    requires live { IsLive (F.net wired.now.net.now) }
    requires connected { IsConnected (F.net wired.now.net.now) }
    requires inputs { HasInputs (F.net wired.now.net.now) }
    requires some { LEAST_STATES ≤ states }
    ensures found { IfOk result (IsFound (F.net wired.now.net.now) states) }
    ensures refused { IfErr result (IsRunRefusal (F.net wired.now.net.now) states) }
{
    if is_single_phase(wired.net)
        && let Some(table) = loop_by_needs(alloc, wired, states)?
    {
        return Ok(table);
    }
    loop_by_events(alloc, wired, states)
}
