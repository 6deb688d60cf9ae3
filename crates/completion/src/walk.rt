//! The way of needs to a firing, followed backwards.
//!
//! The way to a completion isn't listed. A way of needs has as many firings as the rounds make it, so its firings are
//! counted by actor as it is followed backwards, and none of them is kept but one, with which later ones are compared
//! (Brent 1980, as in the search for the loop). Where the way comes to a firing of that one's actor, whole passes before it
//! and after the entry, one multiplication an actor counts the segment in between for each time that it has room after the
//! entry. A firing after the entry has the same tight needs as the firing a pass later, so these are the firings that would
//! be passed one by one. A mark for each firing of a pass would find the first such place, and cost a list as long as the
//! loop; what is told is the same.
ghost use Rattle.std.specs.Prelude.{◌≡◌, ◌≢◌, ℕ, ◌≤◌, ◌<◌, IfOk, MatchOption, length};
ghost use Rattle.sd_base.specs.Ranges.{PART_BOUND, WIDE_MOMENT_BOUND};
ghost use Rattle.sd_base.specs.declared.limits.TheConstants.{ROUNDS};
ghost use Rattle.sd_base.specs.Net.{Net, channel_at};
ghost use Rattle.firing.specs.declared.sums.Port.TheVariants.{Taken};
ghost use Rattle.firing.specs.Wiring.{IsListed};
ghost use Rattle.completion.specs.Ways.{HasWay, InRounds, no_part, part_at};
ghost use Rattle.completion.specs.inside.Timetables.{EndsLast, IsLastOf, IsStart, IsTimetable, end_at};
ghost use Rattle.completion.specs.inside.Walks.{FitsTimes, IsFirstNeed, IsSlackOn, IsTightNeedOn, IsWalkBack};

use crate::counts::{Part, clear, count, count_segments, no_parts};
use crate::timetable::{Start, Timetable, end, time_at};
use firing::{Firing, Wired, know_laws, need};
use sd_base::NoMemory;
use std::alloc::Global;

/// A way of needs as far as it has been followed backwards, and a firing on it that is kept to be compared with.
#[derive(Drop)]
pub(crate) struct Walk {
    /// The last firing of the way, from which it is followed.
    last: Start,
    /// The first firing of the way so far.
    here: Start,
    /// By actor what the way is made of.
    parts: Vec<Part>,
    /// The firing that is kept.
    kept: Start,
    /// By actor what the way before it is made of.
    segment: Vec<Part>,
    /// For how many firings more it is kept, and for how many it is in all.
    left: u64,
    reach: u64,
}

/// By actor what the way of tight needs to a firing is made of, the one of the first rounds that ends last.
pub(crate) fn parts_of_way<F: Firing>(
    alloc: Global,
    wired: &Wired<F>,
    times: &Timetable,
    rounds: u64,
    last: Start,
) -> Result<Vec<Part>, NoMemory>
    requires times { IsTimetable (F.net wired.now.net.now) times.now }
    requires few { rounds ≤ ROUNDS }
    requires last { EndsLast (F.net wired.now.net.now) times.now rounds last }
    requires soon { last.moment ≤ WIDE_MOMENT_BOUND }
    ensures way { IfOk result (λ parts. HasWay (F.net wired.now.net.now) rounds (end_at (F.net wired.now.net.now) last) parts.items) }
    ensures few { IfOk result (λ parts. (a : ℕ) → a < length parts.items → (part_at parts.items a).firings ≤ PART_BOUND) }
{
    let mut walk = Walk::new(alloc, wired.net, times, rounds, last)?;
    'way: while walk.here.moment != 0 {
        walk.step_back(wired, times);
        walk.look_back(wired.net, times);
    }
    Ok(walk.parts)
}

impl Walk {
    /// The way of one firing alone.
    fn new<F: Firing>(
        alloc: Global,
        net: &F,
        times: &Timetable,
        rounds: u64,
        last: Start,
    ) -> Result<Walk, NoMemory>
        requires times { IsTimetable (F.net net.now) times.now }
        requires few { rounds ≤ ROUNDS }
        requires last { IsLastOf (F.net net.now) times.now rounds last }
        requires soon { last.moment ≤ WIDE_MOMENT_BOUND }
        ensures last { IfOk result (λ walk. walk.last ≡ last) }
        ensures walk { IfOk result (IsWalkBack (F.net net.now) times.now) }
    {
        let mut parts = no_parts(alloc, net.actors())?;
        count(
            &mut parts,
            last.actor,
            time_at(net, last.actor, last.number),
        );
        let segment = no_parts(alloc, net.actors())?;
        Ok(Walk {
            last,
            here: last,
            parts,
            kept: last,
            segment,
            left: 1,
            reach: 1,
        })
    }

    /// Goes back to the first tight need of the firing here.
    fn step_back<F: Firing>(&mut self, wired: &Wired<F>, times: &Timetable)
        requires times { IsTimetable (F.net wired.now.net.now) times.now }
        requires walk { IsWalkBack (F.net wired.now.net.now) times.now self.old }
        requires later { self.old.here.moment ≢ 0 }
        ensures last { self.new.last ≡ self.old.last }
        ensures walk { IsWalkBack (F.net wired.now.net.now) times.now self.new }
        ensures back { self.new.here.moment < self.old.here.moment }
        ensures order { self.new.here.moment < self.new.kept.moment }
    {
        let inputs = wired.inputs_of(self.here.actor);
        let here = tight_need(wired.net, times, inputs, self.here);
        let time = time_at(wired.net, here.actor, here.number);
        count(&mut self.parts, here.actor, time);
        count(&mut self.segment, here.actor, time);
        self.here = here;
    }

    /// Where the firing here lies whole passes before the one kept, goes back as many segments more as fit after the
    /// entry; else keeps this one if the other has been kept for long (Brent 1980).
    fn look_back<F: Firing>(&mut self, net: &F, times: &Timetable)
        requires times { IsTimetable (F.net net.now) times.now }
        requires walk { IsWalkBack (F.net net.now) times.now self.old }
        requires order { self.old.here.moment < self.old.kept.moment }
        ensures last { self.new.last ≡ self.old.last }
        ensures walk { IsWalkBack (F.net net.now) times.now self.new }
        ensures back { self.new.here.moment ≤ self.old.here.moment }
    {
        know_laws(net);
        if let Some(segments) = times.segments(self.here, self.kept) {
            self.jump(times, segments);
        } else if self.left > 1 {
            self.left -= 1;
        } else {
            self.reach = self.reach.saturating_mul(2);
            self.keep();
        }
    }

    /// Goes back so many segments more, each like that back from the kept firing.
    fn jump(&mut self, times: &Timetable, segments: u64)
        requires walk { (net : Net) × IsTimetable net times.now × IsWalkBack net times.now self.old }
        requires order { self.old.here.moment < self.old.kept.moment }
        requires fits { FitsTimes times.now self.old.here self.old.kept segments }
        ensures last { self.new.last ≡ self.old.last }
        ensures walk { (net : Net) → IsTimetable net times.now → IsWalkBack net times.now self.old → IsWalkBack net times.now self.new }
        ensures back { self.new.here.moment ≤ self.old.here.moment }
    {
        let apart = self.kept.number - self.here.number;
        count_segments(&mut self.parts, &self.segment, segments);
        self.here = times.start(self.here.actor, self.here.number - segments * apart);
        self.keep();
    }

    /// Keeps the firing here in place of the one kept.
    fn keep(&mut self)
        ensures last { self.new.last ≡ self.old.last }
        ensures here { self.new.here ≡ self.old.here }
        ensures parts { self.new.parts.items ≡ self.old.parts.items }
        ensures kept { self.new.kept ≡ self.old.here }
        ensures actors { length self.new.segment.items ≡ length self.old.segment.items }
        ensures segment { (a : ℕ) → a < length self.old.segment.items → part_at self.new.segment.items a ≡ no_part }
    {
        clear(&mut self.segment);
        self.kept = self.here;
        self.left = self.reach;
    }
}

/// The first tight need of a firing that starts after moment 0, in the order of the channels into its actor.
fn tight_need<F: Firing>(net: &F, times: &Timetable, inputs: &[u32], later: Start) -> Start
    requires times { IsTimetable (F.net net.now) times.now }
    requires start { IsStart (F.net net.now) times.now later }
    requires listed { IsListed (F.net net.now) Taken later.actor inputs.now }
    requires later { later.moment ≢ 0 }
    requires within { (n : ℕ) × (n ≤ ROUNDS) × InRounds (F.net net.now) n later.actor later.number }
    ensures start { IsStart (F.net net.now) times.now result }
    ensures need { IsFirstNeed (F.net net.now) times.now later result }
{
    for channel in inputs {
        if let Some(needed) = tight_on(net, times, *channel, later) {
            return needed;
        }
    }
    unreachable!()
}

/// The last need of a firing on a channel into its actor, where it is tight.
fn tight_on<F: Firing>(net: &F, times: &Timetable, channel: u32, later: Start) -> Option<Start>
    requires times { IsTimetable (F.net net.now) times.now }
    requires start { IsStart (F.net net.now) times.now later }
    requires place { channel < length (F.net net.now).channels }
    requires into { (channel_at (F.net net.now) channel).target ≡ later.actor }
    requires within { (n : ℕ) × (n ≤ ROUNDS) × InRounds (F.net net.now) n later.actor later.number }
    ensures { MatchOption result (IsSlackOn (F.net net.now) times.now later channel)
        (λ needed. IsStart (F.net net.now) times.now needed × IsTightNeedOn (F.net net.now) later channel needed) }
{
    let firings = need(net, channel, later.number);
    if firings == 0 {
        return None;
    }
    let needed = times.start(net.source(channel), firings - 1);
    if end(net, needed) == later.moment {
        Some(needed)
    } else {
        None
    }
}
