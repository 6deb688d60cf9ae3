ghost use Rattle.test_engine.specs.declared.run.TheConstants.{MOST};
ghost use Rattle.std.specs.Prelude.{◌^◌, ◌<◌, ◌≤◌, length};

use crate::sums::{lacks, made_by, taken_by};
use firing::{Firing, know_laws};
use sd_base::{NoMemory, Rows};
use selftimed::Shape;
use std::alloc::Global;

/// The most starts that a plain run makes.
const MOST: usize = 1_000_000;

/// A firing: its actor, and the moments at which it starts and ends.
#[derive(Clone, Copy)]
struct Span {
    actor: u32,
    start: u64,
    end: u64,
}

/// The firings that start in an execution from moment 0 on, each as soon as all firings that it needs have ended.
/// Those of one actor stand in their order.
#[derive(Drop)]
pub(crate) struct PlainRun {
    spans: Vec<Span>,
    ghost few: { length spans.items ≤ MOST },
}

/// The firings that start by a moment. None: they are more than a million. Cost: for each moment and start a look at
/// each channel, with sums over all firings before.
pub(crate) fn run_until<F: Firing>(
    alloc: Global,
    net: &F,
    last: u64,
) -> Result<Option<PlainRun>, NoMemory>
    requires { last < 2 ^ 62 }
{
    let mut run = PlainRun {
        spans: Vec::new(alloc),
    };
    for now in 0..last + 1 {
        if !run.start_all(net, now)? {
            return Ok(None);
        }
    }
    Ok(Some(run))
}

impl PlainRun {
    /// Starts what can start at a moment. False: there are too many starts.
    fn start_all<F: Firing>(&mut self, net: &F, now: u64) -> Result<bool, NoMemory>
        requires { now ≤ 2 ^ 62 }
    {
        for actor in 0..net.actors() {
            if !self.start_actor(net, actor, now)? {
                return Ok(false);
            }
        }
        Ok(true)
    }

    /// Starts firings of an actor at a moment as long as one can. False: there are too many starts.
    fn start_actor<F: Firing>(&mut self, net: &F, actor: u32, now: u64) -> Result<bool, NoMemory>
        requires actor { actor < length (F.net net.now).times }
        requires soon { now ≤ 2 ^ 62 }
    {
        for _start in 0..MOST {
            if !self.can_start(net, actor, now) {
                return Ok(true);
            }
            if self.spans.len() >= MOST {
                return Ok(false);
            }
            let span = self.next_span(net, actor, now);
            self.spans.push(span)?;
        }
        Ok(false)
    }

    /// The next firing of an actor, if it starts at a moment.
    fn next_span<F: Firing>(&self, net: &F, actor: u32, now: u64) -> Span
        requires actor { actor < length (F.net net.now).times }
        requires soon { now ≤ 2 ^ 62 }
    {
        know_laws(net);
        let phase = self.started_by(actor, now) % net.phases(actor) as usize;
        Span {
            actor,
            start: now,
            end: now + net.time(actor, phase as u32),
        }
    }

    /// Whether the next firing of an actor can start at a moment: no channel into the actor lacks tokens.
    fn can_start<F: Firing>(&self, net: &F, actor: u32, now: u64) -> bool {
        let started = self.started_by(actor, now);
        for channel in 0..net.channels() {
            let ended = self.ended_by(net.source(channel), now);
            if net.target(channel) == actor && lacks(net, channel, ended, started) {
                return false;
            }
        }
        true
    }

    /// How many firings of an actor start by a moment.
    pub(crate) fn started_by(&self, actor: u32, now: u64) -> usize
        ensures { result ≤ MOST }
    {
        self.spans
            .as_slice()
            .iter()
            .filter(|span| span.actor == actor && span.start <= now)
            .count()
    }

    /// How many firings of an actor end by a moment.
    pub(crate) fn ended_by(&self, actor: u32, now: u64) -> usize
        ensures { result ≤ MOST }
    {
        self.spans
            .as_slice()
            .iter()
            .filter(|span| span.actor == actor && span.end <= now)
            .count()
    }

    /// Moment 0, if a firing starts there.
    pub(crate) fn first_event(&self) -> Option<u64> {
        if self.spans.as_slice().iter().any(|span| span.start == 0) {
            Some(0)
        } else {
            None
        }
    }

    /// The first moment after `now` at which a firing ends that has started by then.
    pub(crate) fn next_end(&self, now: u64) -> Option<u64> {
        let mut first = None;
        for span in self.spans.as_slice() {
            if span.start <= now && now < span.end {
                first = Some(first.map_or(span.end, |end| span.end.min(end)));
            }
        }
        first
    }

    /// What stands at a moment after its starts.
    pub(crate) fn shape_at<F: Firing>(
        &self,
        alloc: Global,
        net: &F,
        now: u64,
    ) -> Result<Shape, NoMemory> {
        Ok(Shape {
            tokens: self.tokens_at(alloc, net, now)?,
            phases: self.phases_at(alloc, net, now)?,
            remaining: self.remaining_at(alloc, net, now)?,
        })
    }

    /// By channel its tokens: the first ones and those that ended firings made, without those that started firings
    /// took. These are never more than the others.
    fn tokens_at<F: Firing>(
        &self,
        alloc: Global,
        net: &F,
        now: u64,
    ) -> Result<Rows<u128>, NoMemory> {
        let mut rows = Rows::new(alloc);
        for channel in 0..net.channels() {
            let ended = self.ended_by(net.source(channel), now);
            let started = self.started_by(net.target(channel), now);
            let came = net.tokens(channel) as u128 + made_by(net, channel, ended as u64);
            rows.push(came.saturating_sub(taken_by(net, channel, started as u64)))?;
        }
        Ok(rows)
    }

    /// By actor the phase of its next firing.
    fn phases_at<F: Firing>(
        &self,
        alloc: Global,
        net: &F,
        now: u64,
    ) -> Result<Rows<u32>, NoMemory> {
        know_laws(net);
        let mut rows = Rows::new(alloc);
        for actor in 0..net.actors() {
            let phase = self.started_by(actor, now) % net.phases(actor) as usize;
            rows.push(phase as u32)?;
        }
        Ok(rows)
    }

    /// By actor the times that its running firings have left, in their order.
    fn remaining_at<F: Firing>(
        &self,
        alloc: Global,
        net: &F,
        now: u64,
    ) -> Result<Rows<Rows<u64>>, NoMemory> {
        let mut rows = Rows::new(alloc);
        for actor in 0..net.actors() {
            rows.push(self.times_left(alloc, actor, now)?)?;
        }
        Ok(rows)
    }

    fn times_left(&self, alloc: Global, actor: u32, now: u64) -> Result<Rows<u64>, NoMemory> {
        let mut row = Rows::new(alloc);
        for span in self.spans.as_slice() {
            if span.actor == actor && span.start <= now && now < span.end {
                row.push(span.end - now)?;
            }
        }
        Ok(row)
    }
}
