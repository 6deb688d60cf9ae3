ghost use Rattle.std.specs.Prelude.{◌≡◌, true, IfOk};
ghost use Rattle.sd_base.specs.Schedules.{HasInputs};
ghost use Rattle.sd_base.specs.Untimed.{IsLive};
ghost use Rattle.lasso.specs.LoopAnswers.{IsFound};

use completion::{Completion, complete};
use event_loops::loop_by_events;
use firing::{Firing, LoopTable, Wired, Wiring};
use lasso::{RunError, run_loop};
use liveness::{Round, one_round};
use sd_base::{Ledger, NoMemory, Steps};
use std::alloc::Global;
use std::process::Abort;
use std::test::Fail;
use test_nets::{is_fed, is_joined};

/// What a test's counter counts.
#[derive(Drop)]
struct Runs;

impl Ledger for Runs {}

/// The loop of self-timed execution of a net, which must go on for ever.
pub(crate) fn found_loop<F: Firing>(
    rt: &impl Abort,
    alloc: Global,
    net: &F,
) -> Result<LoopTable, Fail>
    ensures inputs { IfOk result (λ _. HasInputs (F.net net.now)) }
    ensures found { IfOk result (IsFound (F.net net.now) 20000) }
{
    Ok(run_net(rt, alloc, net, 20_000)??)
}

/// What `run_loop` answers of a net, which must go on for ever.
pub(crate) fn run_net<F: Firing>(
    rt: &impl Abort,
    alloc: Global,
    net: &F,
    states: u64,
) -> Result<Result<LoopTable, RunError>, Fail>
    ensures inputs { IfOk result (λ _. HasInputs (F.net net.now)) }
    ensures found { IfOk result (λ answer. IfOk answer (IsFound (F.net net.now) states)) }
{
    assert!(rt; is_live(alloc, net)?);
    assert!(rt; is_joined(net));
    assert!(rt; is_fed(net));
    assert!(rt; 1 <= states && states <= 200_000);
    let mut steps = Steps::new(Runs);
    let answer = run_loop(alloc, net, states, &mut steps);
    let Runs = steps.finish();
    Ok(answer)
}

/// What the search by events alone answers of a net, which must go on for ever.
pub(crate) fn run_by_events<F: Firing>(
    rt: &impl Abort,
    alloc: Global,
    net: &F,
    states: u64,
) -> Result<Result<LoopTable, RunError>, Fail> {
    assert!(rt; is_live(alloc, net)?);
    assert!(rt; is_joined(net));
    assert!(rt; is_fed(net));
    assert!(rt; 1 <= states);
    let wiring = Wiring::new(alloc, net)?;
    let wired = Wired {
        net,
        wiring: &wiring,
    };
    Ok(loop_by_events(alloc, &wired, states))
}

/// The least time for some rounds of a net, which must go on for ever.
pub(crate) fn completed<F: Firing>(
    rt: &impl Abort,
    alloc: Global,
    net: &F,
    rounds: u64,
) -> Result<Completion, Fail> {
    assert!(rt; is_live(alloc, net)?);
    assert!(rt; is_joined(net));
    assert!(rt; is_fed(net));
    assert!(rt; 1 <= rounds && rounds <= 1_000_000);
    let mut steps = Steps::new(Runs);
    let answer = complete(alloc, net, rounds, 20_000, &mut steps);
    let Runs = steps.finish();
    Ok(answer?)
}

/// Whether a round of a net can be completed.
pub(crate) fn is_live<F: Firing>(alloc: Global, net: &F) -> Result<bool, NoMemory>
    ensures { IfOk result (λ live. live ≡ true → IsLive (F.net net.now)) }
{
    match one_round(alloc, net)? {
        Round::Live { .. } => Ok(true),
        Round::Blocked { .. } => Ok(false),
    }
}
