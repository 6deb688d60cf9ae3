ghost use Rattle.std.specs.Prelude.{◌≡◌, ◌+◌, ◌≤◌, ◌<◌, ℕ, IfErr, IfOk, IsTrue, List, Option, length, slice_index};
ghost use Rattle.sd_base.specs.declared.limits.TheConstants.{LEAST_STATES, STATES};
ghost use Rattle.sd_base.specs.Net.{Net};
ghost use Rattle.sd_base.specs.Schedules.{HasInputs};
ghost use Rattle.sd_base.specs.Connection.{IsConnected};
ghost use Rattle.sd_base.specs.Untimed.{IsBlockedBy, IsLive};
ghost use Rattle.firing.specs.Wiring.{IsWiringOf};
ghost use Rattle.liveness.specs.RoundAnswers.{IsEnding, AreReachedCounts};
ghost use Rattle.lasso.specs.LoopAnswers.{IsRunRefusal};
ghost use Rattle.storage.specs.BoundedNets.{bound};
ghost use Rattle.guide.specs.Evaluations.{IsEvaluable, IsEvaluated, IsRefused, loops_run};

use crate::held_up::shown_channels;
use critical::{NeedCycle, critical_cycle};
use firing::{Firing, LoopTable, Wired, Wiring, is_single_phase, know_laws, single_phase_copy};
use lasso::{RunError, find_loop};
use liveness::{Ending, finish_round, no_counts};
use sd_base::{Fraction, Ledger, NoMemory, Rows, Steps};
use std::alloc::Global;
use storage::laws::need_cycles_hold_with_more_room;
use storage::{Bounded, Distribution};

/// What shows the rate of a distribution.
#[derive(Debug, Drop)]
pub enum Outcome {
    /// The loop of self-timed execution of the bounded net, and a critical need cycle of it.
    Live {
        table: LoopTable,
        cycle: NeedCycle,
    },
    /// No round can be completed. By actor the firings after which none can go on, and the first channel of the bounded
    /// net on which an actor below its round lacks tokens.
    Blocked {
        counts: Rows<u64>,
        lacks: Rows<Option<u32>>,
    },
}

/// The rate of a distribution in rounds per time unit, the channels on which more room could raise it, ascending, and
/// what shows both.
#[derive(Debug, Drop)]
pub struct Evaluation {
    pub rate: Fraction,
    pub enlarge: Rows<u32>,
    pub outcome: Outcome,
}

/// A distribution of a net, with what is known of the net that it bounds.
#[derive(Drop)]
pub struct Trial<'a, F: Firing> {
    pub net: &'a F,
    pub capacities: &'a Distribution,
    /// By actor the channels of the bounded net.
    pub wiring: &'a Wiring,
    /// By actor firings that some order of firings of the bounded net reaches: none, those at which a net with less room is
    /// blocked, or those of a whole round where one with less room is live.
    pub counts: &'a [u64],
    ghost wired: { IsWiringOf (bound (F.net net.now) capacities.now.capacities) wiring.now },
    ghost reached: { ∥ AreReachedCounts (bound (F.net net.now) capacities.now.capacities) counts.now ∥₁ },
}

/// The rate of the net bounded by a distribution: by the loop of its self-timed execution, or 0 where a round can't be
/// completed. More room can raise it on the channels alone whose free space is on the critical cycle, or whose free space
/// holds up an actor of the blocked net (Stuijk, Geilen and Basten 2008, narrowed to one cycle). It counts a step where a
/// loop is run. Cost: that of `one_round` and, where the net is live, of `run_loop` and `cycle_of`, on the bounded net.
pub fn evaluate<F: Firing, L: Ledger>(
    alloc: Global,
    net: &F,
    capacities: &Distribution,
    states: u64,
    steps: &mut Steps<L>,
) -> Result<Evaluation, RunError>
    requires fits { IsEvaluable (F.net net.now) capacities.now.capacities }
    requires some { LEAST_STATES ≤ states }
    requires few { states ≤ STATES }
    ensures evaluated { IfOk result (IsEvaluated (F.net net.now) capacities.now.capacities states) }
    ensures refused { IfErr result (IsRefused (F.net net.now) capacities.now.capacities states) }
    ensures count { IfOk result (λ e. steps.new.count ≡ steps.old.count + loops_run e.outcome) }
    ensures most { steps.new.count ≤ steps.old.count + 1 }
    ensures rises { steps.old.count ≤ steps.new.count }
    ensures share { steps.new.share ≡ steps.old.share }
{
    let bounded = Bounded::new(alloc, net, capacities)?;
    let wiring = Wiring::new(alloc, &bounded)?;
    let counts = no_counts(alloc, net)?;
    let trial = Trial {
        net,
        capacities,
        wiring: &wiring,
        counts: counts.as_slice(),
    };
    trial.evaluate_on(alloc, &bounded, states, steps)
}

impl<'a, F: Firing> Trial<'a, F> {
    /// What the function `evaluate` answers, where the channels by actor of the bounded net are there already, and the test for a
    /// round begins from counts that are. Cost: that of `finish_round`, unless they are those of a whole round, and, where the
    /// net is live, of `run_loop` and `cycle_of`.
    pub fn evaluate<L: Ledger>(
        &self,
        alloc: Global,
        states: u64,
        steps: &mut Steps<L>,
    ) -> Result<Evaluation, RunError>
        requires fits { IsEvaluable (F.net self.now.net.now) self.now.capacities.now.capacities }
        requires some { LEAST_STATES ≤ states }
        requires few { states ≤ STATES }
        ensures evaluated { IfOk result (IsEvaluated (F.net self.now.net.now) self.now.capacities.now.capacities states) }
        ensures refused { IfErr result (IsRefused (F.net self.now.net.now) self.now.capacities.now.capacities states) }
        ensures count { IfOk result (λ e. steps.new.count ≡ steps.old.count + loops_run e.outcome) }
        ensures most { steps.new.count ≤ steps.old.count + 1 }
        ensures rises { steps.old.count ≤ steps.new.count }
        ensures share { steps.new.share ≡ steps.old.share }
    {
        let bounded = Bounded::new(alloc, self.net, self.capacities)?;
        self.evaluate_on(alloc, &bounded, states, steps)
    }

    /// The same on the net that the distribution bounds.
    fn evaluate_on<B: Firing, L: Ledger>(
        &self,
        alloc: Global,
        bounded: &B,
        states: u64,
        steps: &mut Steps<L>,
    ) -> Result<Evaluation, RunError>
        requires fits { IsEvaluable (F.net self.now.net.now) self.now.capacities.now.capacities }
        requires bounded { B.net bounded.now ≡ bound (F.net self.now.net.now) self.now.capacities.now.capacities }
        requires some { LEAST_STATES ≤ states }
        requires few { states ≤ STATES }
        ensures evaluated { IfOk result (IsEvaluated (F.net self.now.net.now) self.now.capacities.now.capacities states) }
        ensures refused { IfErr result (IsRefused (F.net self.now.net.now) self.now.capacities.now.capacities states) }
        ensures count { IfOk result (λ e. steps.new.count ≡ steps.old.count + loops_run e.outcome) }
        ensures most { steps.new.count ≤ steps.old.count + 1 }
        ensures rises { steps.old.count ≤ steps.new.count }
        ensures share { steps.new.share ≡ steps.old.share }
    {
        let wired = Wired {
            net: bounded,
            wiring: self.wiring,
        };
        match ending_from(alloc, &wired, self.counts)? {
            Ending::Whole => evaluate_whole(alloc, &wired, states, steps),
            Ending::Blocked { counts, lacks } => {
                Ok(evaluate_blocked(alloc, self.net, self.capacities, counts, lacks)?)
            }
        }
    }
}

/// What `finish_round` answers. Counts of a whole round show that one can be completed, which is seen at once. Cost: linear in
/// the actors where they are, else that of `finish_round`.
fn ending_from<B: Firing>(
    alloc: Global,
    wired: &Wired<B>,
    counts: &[u64],
) -> Result<Ending, NoMemory>
    requires { AreReachedCounts (B.net wired.now.net.now) counts.now }
    ensures { IfOk result (IsEnding (B.net wired.now.net.now)) }
{
    if are_whole(wired.net, counts) {
        return Ok(Ending::Whole);
    }
    finish_round(alloc, wired, counts)
}

/// Whether each actor has fired its round.
fn are_whole<B: Firing>(bounded: &B, counts: &[u64]) -> bool
    requires { length counts.now ≡ length (B.net bounded.now).times }
    ensures { IsTrue result → (a : ℕ) → a < length (B.net bounded.now).times → slice_index counts.now a ≡ slice_index (B.net bounded.now).round a }
{
    for actor in 0..bounded.actors() {
        if counts[actor as usize] != bounded.round(actor) {
            return false;
        }
    }
    true
}

/// What counts that block a distribution show.
fn evaluate_blocked<F: Firing>(
    alloc: Global,
    net: &F,
    capacities: &Distribution,
    counts: Rows<u64>,
    lacks: Rows<Option<u32>>,
) -> Result<Evaluation, NoMemory>
    requires fits { IsEvaluable (F.net net.now) capacities.now.capacities }
    requires blocked { IsBlockedBy (bound (F.net net.now) capacities.now.capacities) counts lacks }
    ensures evaluated { IfOk result (λ e. (states : ℕ) → IsEvaluated (F.net net.now) capacities.now.capacities states e) }
    ensures none { IfOk result (λ e. loops_run e.outcome ≡ 0) }
{
    know_laws(net);
    let enlarge = shown_channels(alloc, net, capacities, counts.as_slice(), lacks.as_slice())?;
    Ok(Evaluation {
        rate: Fraction::new(0, 1),
        enlarge,
        outcome: Outcome::Blocked { counts, lacks },
    })
}

/// The rate of a live distribution by the loop of the net that it bounds, or of a copy that is quicker to read.
fn evaluate_whole<B: Firing, L: Ledger>(
    alloc: Global,
    wired: &Wired<B>,
    states: u64,
    steps: &mut Steps<L>,
) -> Result<Evaluation, RunError>
    requires live { IsLive (B.net wired.now.net.now) }
    requires connected { IsConnected (B.net wired.now.net.now) }
    requires inputs { HasInputs (B.net wired.now.net.now) }
    requires some { LEAST_STATES ≤ states }
    requires few { states ≤ STATES }
    ensures evaluated { IfOk result (λ e. (net : Net) (ds : List (Option ℕ)) → B.net wired.now.net.now ≡ bound net ds → IsEvaluated net ds states e) }
    ensures refused { IfErr result (IsRunRefusal (B.net wired.now.net.now) states) }
    ensures count { IfOk result (λ e. steps.new.count ≡ steps.old.count + loops_run e.outcome) }
    ensures most { steps.new.count ≤ steps.old.count + 1 }
    ensures rises { steps.old.count ≤ steps.new.count }
    ensures share { steps.new.share ≡ steps.old.share }
{
    if !is_single_phase(wired.net) {
        return evaluate_live(alloc, wired, states, steps);
    }
    let copy = single_phase_copy(alloc, wired.net)?;
    let copied = Wired {
        net: &copy,
        wiring: wired.wiring,
    };
    evaluate_live(alloc, &copied, states, steps)
}

/// The rate of a live distribution by the loop of the net that it bounds.
fn evaluate_live<B: Firing, L: Ledger>(
    alloc: Global,
    wired: &Wired<B>,
    states: u64,
    steps: &mut Steps<L>,
) -> Result<Evaluation, RunError>
    requires live { IsLive (B.net wired.now.net.now) }
    requires connected { IsConnected (B.net wired.now.net.now) }
    requires inputs { HasInputs (B.net wired.now.net.now) }
    requires some { LEAST_STATES ≤ states }
    requires few { states ≤ STATES }
    ensures evaluated { IfOk result (λ e. (net : Net) (ds : List (Option ℕ)) → B.net wired.now.net.now ≡ bound net ds → IsEvaluated net ds states e) }
    ensures refused { IfErr result (IsRunRefusal (B.net wired.now.net.now) states) }
    ensures count { IfOk result (λ e. steps.new.count ≡ steps.old.count + loops_run e.outcome) }
    ensures most { steps.new.count ≤ steps.old.count + 1 }
    ensures rises { steps.old.count ≤ steps.new.count }
    ensures share { steps.new.share ≡ steps.old.share }
{
    know_laws(wired.net);
    need_cycles_hold_with_more_room();
    steps.tick();
    let table = find_loop(alloc, wired, states)?;
    let cycle = critical_cycle(alloc, wired, &table)?;
    let enlarge = cycle.storage_channels(alloc, wired.net)?;
    Ok(Evaluation {
        rate: Fraction::new(table.rounds, table.period),
        enlarge,
        outcome: Outcome::Live { table, cycle },
    })
}
