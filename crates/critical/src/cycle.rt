ghost use Rattle.std.specs.Prelude.{◌≡◌, ◌+◌, ◌*◌, ◌^◌, ◌<◌, ◌≤◌, ◌↔◌, IsTrue, MatchOption, flat_map, length, slice_index};
ghost use Rattle.sd_base.specs.Ranges.{MOMENT_BOUND, WAY_TIME_BOUND};
ghost use Rattle.sd_base.specs.declared.limits.TheConstants.{TIME};
ghost use Rattle.sd_base.specs.Net.{channel_at, total};
ghost use Rattle.sd_base.specs.Schedules.{time_of, LastNeed};
ghost use Rattle.critical.specs.Cycles.{IsStep, IsChain, last_of, time_along, HoldsOn};
ghost use Rattle.critical.specs.Stretches.{steps_in};

use crate::steps::CycleSteps;
use crate::stretch::Stretch;
use firing::{Firing, know_laws, made_sum, taken_sum};
use sd_base::Fraction;

/// A firing: an actor and the number of its firing, both from 0.
#[derive(Clone, Copy, Debug, PartialEq, Eq)]
pub struct FiringNo {
    pub actor: u32,
    pub number: u64,
}

/// A step of a chain of needs: along a channel of the net, to a firing of its target.
#[derive(Clone, Copy, Debug, PartialEq, Eq)]
pub struct CycleStep {
    pub channel: u32,
    pub to: FiringNo,
}

/// A need cycle. From `first` on, each step's firing needs the firing before it, as its last need on the
/// step's channel; the last firing is `rounds` rounds after the first, of the same actor. `time` is how
/// long all firings but the last take one after another, in time units.
#[derive(Debug, Drop)]
pub struct NeedCycle {
    pub time: u64,
    pub rounds: u64,
    pub first: FiringNo,
    pub steps: CycleSteps,
}

impl NeedCycle {
    /// The bound on rates, in rounds per time unit.
    pub fn bound(&self) -> Fraction
        requires { 1 ≤ self.now.time }
        ensures { result.num * self.now.time ≡ self.now.rounds * result.den }
    {
        Fraction::new(self.rounds, self.time)
    }

    /// Whether this is a need cycle on a net, with its time and rounds. Cost: linear in the steps and the
    /// phases of the actors at their channels.
    pub fn holds<F: Firing>(&self, net: &F) -> bool
        ensures { IsTrue result ↔ HoldsOn (F.net net.now) self.now }
    {
        know_laws(net);
        if self.rounds == 0 || self.steps.is_empty() {
            return false;
        }
        match end_of_chain(net, self.first, self.steps.stretches()) {
            Some(end) => end.time == self.time as u128 && self.closes_at(net, end.last),
            None => false,
        }
    }

    /// Whether a firing is that of the first actor as many rounds later as the cycle has.
    fn closes_at<F: Firing>(&self, net: &F, last: FiringNo) -> bool
        requires { self.now.first.actor < length (F.net net.now).times }
        ensures { IsTrue result ↔ ((last.actor ≡ self.now.first.actor)
            × (last.number ≡ self.now.first.number + self.now.rounds * slice_index (F.net net.now).round self.now.first.actor)) }
    {
        let turn = self.rounds as u128 * net.round(self.first.actor) as u128;
        last.actor == self.first.actor && last.number as u128 == self.first.number as u128 + turn
    }
}

/// Where a chain ends: its last firing, and the times of all its firings but that one.
#[derive(Clone, Copy)]
struct ChainEnd {
    last: FiringNo,
    time: u128,
}

/// The end of a chain, and None where the steps are no chain from there on.
fn end_of_chain<F: Firing>(net: &F, from: FiringNo, stretches: &[Stretch]) -> Option<ChainEnd>
    ensures { MatchOption result (¬ IsChain (F.net net.now) from (flat_map steps_in stretches.now)) (λ e. IsChain (F.net net.now) from (flat_map steps_in stretches.now)
        × (e.last ≡ last_of from (flat_map steps_in stretches.now)) × (e.time ≡ time_along (F.net net.now) from (flat_map steps_in stretches.now))) }
{
    let mut end = ChainEnd {
        last: from,
        time: 0,
    };
    for stretch in stretches {
        match end_of_stretch(net, end, *stretch) {
            Some(farther) => end = farther,
            None => return None,
        }
    }
    Some(end)
}

/// The end of a chain that goes on along a stretch, and None where that is no chain from there on.
fn end_of_stretch<F: Firing>(net: &F, from: ChainEnd, stretch: Stretch) -> Option<ChainEnd>
    requires { from.time ≤ WAY_TIME_BOUND }
    ensures { MatchOption result (¬ IsChain (F.net net.now) from.last (steps_in stretch)) (λ e. IsChain (F.net net.now) from.last (steps_in stretch)
        × (e.last ≡ last_of from.last (steps_in stretch)) × (e.time ≡ from.time + time_along (F.net net.now) from.last (steps_in stretch))
        × (e.time ≤ from.time + MOMENT_BOUND)) }
{
    let mut end = from;
    for behind in 0..stretch.count {
        let step = stretch.step(behind);
        if !is_step(net, end.last, step) {
            return None;
        }
        end = ChainEnd {
            last: step.to,
            time: end.time + time_at(net, end.last) as u128,
        };
    }
    Some(end)
}

/// Whether a step leads on from a firing.
fn is_step<F: Firing>(net: &F, from: FiringNo, step: CycleStep) -> bool
    ensures { IsTrue result ↔ IsStep (F.net net.now) from step }
{
    step.channel < net.channels()
        && net.source(step.channel) == from.actor
        && net.target(step.channel) == step.to.actor
        && is_last_need(net, step.channel, step.to.number, from.number)
}

/// Whether firing `number` of the source of a channel is the last need of firing `later` of its target.
fn is_last_need<F: Firing>(net: &F, channel: u32, later: u64, number: u64) -> bool
    requires { channel < length (F.net net.now).channels }
    ensures { IsTrue result ↔ LastNeed (channel_at (F.net net.now) channel) later number }
{
    let wanted = taken_sum(net, channel, later as u128 + 1);
    tokens_after(net, channel, number as u128) < wanted
        && wanted <= tokens_after(net, channel, number as u128 + 1)
}

/// The tokens that a channel has had after so many firings of its source, with those that it started with.
fn tokens_after<F: Firing>(net: &F, channel: u32, firings: u128) -> u128
    requires channel { channel < length (F.net net.now).channels }
    requires few { firings ≤ 2 ^ 64 }
    ensures { result ≡ (channel_at (F.net net.now) channel).tokens + total (channel_at (F.net net.now) channel).made firings }
{
    know_laws(net);
    net.tokens(channel) as u128 + made_sum(net, channel, firings)
}

/// The time of a firing.
pub(crate) fn time_at<F: Firing>(net: &F, firing: FiringNo) -> u64
    requires { firing.actor < length (F.net net.now).times }
    ensures time { result ≡ time_of (F.net net.now) firing.actor firing.number }
    ensures short { result ≤ TIME }
{
    know_laws(net);
    let phases = net.phases(firing.actor) as u64;
    net.time(firing.actor, (firing.number % phases) as u32)
}
