ghost use Rattle.std.specs.Prelude.{◌≡◌, ℕ, ◌+◌, ◌-◌, ◌≤◌, IfOk, map};
ghost use Rattle.sd_base.specs.Connection.{IsStronglyConnected};
ghost use Rattle.sd_base.specs.Untimed.{IsLive};
ghost use Rattle.completion.specs.Completions.{HasLoopWithin, IsCompletionOf};
ghost use Rattle.report.specs.LinkTexts.{IsNamed};
ghost use Rattle.sd_words.specs.Asked.{AreRounds, AreStates};
ghost use Rattle.sd_steps.specs.Courses.{deciding};
ghost use Rattle.sd_command.specs.commands.LeastTimes.{completion, pair_of};
ghost use Rattle.sd_steps.specs.Nets.{IsFed, on_live};
ghost use Rattle.sd_steps.specs.Findings.{IsRunRefusal};
ghost use Rattle.completion.specs.declared.least_time.Completion.{Completion as ACompletion};
ghost use Rattle.sd_steps.specs.Steps.{Does};
ghost use Rattle.sd_command.specs.inside.Goings.{Goes};

use crate::commands::wanted::WantedRounds;
use completion::{Completion, Part};
use firing::{Firing, Wired, Wiring, know_laws};
use report::complete_text;
use sd_base::{GraphFile, Ledger, NoMemory, Steps};
use sd_steps::finding::run_refusal;
use sd_steps::nets::test;
use sd_steps::{Answer, Stop};
use std::alloc::Global;

/// The least time for some rounds of a net, and what a way of needs of that time is made of. `graph` has the names of its
/// actors and channels.
pub(crate) fn time_of<F: Firing, L: Ledger>(
    alloc: Global,
    net: &F,
    graph: &GraphFile,
    wanted: &WantedRounds,
    steps: &mut Steps<L>,
) -> Result<Answer, Stop>
    requires named { IsNamed graph.now (F.net net.now) }
    requires states { AreStates wanted.now.states }
    requires rounds { AreRounds wanted.now.rounds }
    ensures goes { (faults : ℕ) →
        Goes (on_live graph.now (F.net net.now) (completion graph.now (F.net net.now) wanted.now)) result (steps.new.count - steps.old.count) faults faults }
    ensures rises { steps.old.count ≤ steps.new.count }
    ensures share { steps.new.share ≡ steps.old.share }
{
    let wiring = Wiring::new(alloc, net)?;
    let wired = Wired {
        net,
        wiring: &wiring,
    };
    test(alloc, &wired, graph)?;
    let completion = completed(alloc, &wired, wanted, steps)?;
    let parts = pairs_of(alloc, completion.parts.as_slice())?;
    let text = complete_text(
        alloc,
        graph,
        wanted.rounds,
        completion.time,
        completion.firings,
        parts.as_slice(),
    )?;
    Ok(Answer { text, put: None })
}

// The least time for the rounds, or the refusal of an execution that passes a bound.
fn completed<F: Firing, L: Ledger>(
    alloc: Global,
    wired: &Wired<F>,
    wanted: &WantedRounds,
    steps: &mut Steps<L>,
) -> Result<Completion, Stop>
    requires joined { IsStronglyConnected (F.net wired.now.net.now) }
    requires fed { IsFed (F.net wired.now.net.now) }
    requires live { IsLive (F.net wired.now.net.now) }
    requires states { AreStates wanted.now.states }
    requires rounds { AreRounds wanted.now.rounds }
    ensures does { Does (deciding (λ (c : ACompletion). IsCompletionOf (F.net wired.now.net.now) wanted.now.rounds c × HasLoopWithin (F.net wired.now.net.now) wanted.now.states) (IsRunRefusal (F.net wired.now.net.now) wanted.now.states)) result }
    ensures counts { steps.new.count ≡ steps.old.count + 1 }
    ensures share { steps.new.share ≡ steps.old.share }
{
    know_laws(wired.net);
    match completion::complete_wired(alloc, wired, wanted.rounds, wanted.states, steps) {
        Ok(completion) => Ok(completion),
        Err(error) => Err(Stop::Refused(run_refusal(alloc, error, wanted.states)?)),
    }
}

// The firings and times of the parts, as the printed lines have them.
fn pairs_of(alloc: Global, parts: &[Part]) -> Result<Vec<(u64, u128)>, NoMemory>
    ensures { IfOk result (λ v. v.items ≡ map pair_of parts.now) }
{
    let mut pairs = Vec::with_capacity(alloc, parts.len())?;
    for part in parts {
        pairs.push((part.firings, part.time))?;
    }
    Ok(pairs)
}
