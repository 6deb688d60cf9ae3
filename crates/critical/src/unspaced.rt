//! The search for a need cycle on no free space: depth first back along the tight needs of the second pass round the loop, by
//! which a cycle with the loop's rounds per time goes. A firing is left only after all that it needs so, so where no way comes
//! round there is no such cycle.
ghost use Rattle.std.specs.Prelude.{◌≡◌, ◌≢◌, ◌+◌, ◌-◌, ◌<◌, ◌≤◌, ℕ, [], None, IfOk, IfSome, MatchBool, MatchOption, length};
ghost use Rattle.sd_base.specs.Ranges.{COUNT_BOUND, MOMENT_BOUND};
ghost use Rattle.sd_base.specs.declared.limits.TheConstants.{STARTS};
ghost use Rattle.sd_base.specs.declared.role.Role.TheVariants.{Space};
ghost use Rattle.sd_base.specs.Schedules.{HasInputs};
ghost use Rattle.sd_base.specs.SelfTimed.{starts_by};
ghost use Rattle.sd_base.specs.Rates.{IsLoopTable};
ghost use Rattle.sd_base.specs.Net.{channel_at};
ghost use Rattle.firing.specs.declared.sums.Port.TheVariants.{Taken};
ghost use Rattle.firing.specs.Wiring.{IsListed};
ghost use Rattle.critical.specs.declared.cycle.FiringNo.{FiringNo as AFiring};
ghost use Rattle.critical.specs.CriticalCycles.{IsCriticalCycleOf};
ghost use Rattle.critical.specs.Unspaced.{IsUnspaced, HasNoUnspaced};
ghost use Rattle.critical.specs.inside.Trails.{IsSearchable, IsSecond, IsTightNeed, Leads, class_at, met_at};
ghost use Rattle.critical.specs.inside.Searches.{IsNoSpace, HasRanks, IsMarked, IsLeft, IsOpen, IsOpenNeed, HasLeftOn, HasLeftAll, IsSearch, TurnsTo, GoesOn, ComesRound};

use crate::closing::closed_cycle;
use crate::cycle::{FiringNo, NeedCycle, time_at};
use crate::marks::{class_of, mark, mark_at, no_marks, offsets, places_of};
use crate::pass::{pass_of, second_of};
use crate::tight::{ReadNeed, tight_on};
use crate::walk::{Met, Way};
use firing::{Firing, LoopTable, Wired, know_laws};
use sd_base::{NoMemory, Role};
use std::alloc::Global;

/// What is searched: the firings of the second pass round the loop of a net. The offsets say where those of an actor begin in a
/// list of marks.
#[derive(Drop)]
struct Pass<'a, F: Firing> {
    wired: &'a Wired<'a, F>,
    table: &'a LoopTable,
    offsets: &'a [usize],
}

/// A critical need cycle that goes along no free space, so that no room speeds it up; None where no need cycle on no free space
/// has the loop's rounds per time. Cost: linear in the starts of a pass times the channels into an actor.
pub fn cycle_without_spaces<F: Firing>(
    alloc: Global,
    wired: &Wired<F>,
    table: &LoopTable,
) -> Result<Option<NeedCycle>, NoMemory>
    requires inputs { HasInputs (F.net wired.now.net.now) }
    requires table { IsLoopTable (F.net wired.now.net.now) table.now.entry table.now.period table.now.rounds table.now.before table.now.starts }
    requires few { starts_by (F.net wired.now.net.now) (table.now.entry + table.now.period) ≤ STARTS }
    ensures unspaced { IfOk result (λ found. IfSome found (IsUnspaced (F.net wired.now.net.now))) }
    ensures critical { IfOk result (λ found. IfSome found (IsCriticalCycleOf (F.net wired.now.net.now) table.now)) }
    ensures none { IfOk result (λ found. found ≡ None → HasNoUnspaced (F.net wired.now.net.now) table.now.period table.now.rounds) }
{
    know_laws(wired.net);
    let offsets = offsets(alloc, table)?;
    let begins = offsets.as_slice();
    let mut marks = no_marks(alloc, places_of(table, begins))?;
    let pass = Pass {
        wired,
        table,
        offsets: begins,
    };
    match pass.way_round(alloc, marks.as_mut_slice())? {
        Some(way) => Ok(Some(pass.closed(alloc, &way)?)),
        None => Ok(None),
    }
}

impl<'a, F: Firing> Pass<'a, F> {
    /// A way that comes round.
    fn way_round(&self, alloc: Global, marks: &mut [Option<u32>]) -> Result<Option<Way>, NoMemory>
        requires pass { IsSearchable (F.net self.now.wired.now.net.now) self.now.table.now self.now.offsets.now }
        requires marks { IsSearch (F.net self.now.wired.now.net.now) self.now.table.now [] marks.old }
        ensures { IfOk result (λ found. MatchOption found (HasRanks (F.net self.now.wired.now.net.now) self.now.table.now)
            (λ w. ComesRound (F.net self.now.wired.now.net.now) self.now.table.now w.met.items w.from)) }
    {
        know_laws(self.wired.net);
        for actor in 0..self.wired.net.actors() {
            if let Some(way) = self.way_from_actor(alloc, actor, marks)? {
                return Ok(Some(way));
            }
        }
        Ok(None)
    }

    /// One that begins at a firing of an actor.
    fn way_from_actor(
        &self,
        alloc: Global,
        actor: u32,
        marks: &mut [Option<u32>],
    ) -> Result<Option<Way>, NoMemory>
        requires pass { IsSearchable (F.net self.now.wired.now.net.now) self.now.table.now self.now.offsets.now }
        requires actor { actor < length self.now.table.now.starts }
        requires marks { IsSearch (F.net self.now.wired.now.net.now) self.now.table.now [] marks.old }
        ensures { IfOk result (λ found. MatchOption found
            (GoesOn (F.net self.now.wired.now.net.now) self.now.table.now marks.old marks.new
            × ((x : AFiring) → IsSecond self.now.table.now x → x.actor ≡ actor → IsMarked marks.new (class_at self.now.table.now x)))
            (λ w. ComesRound (F.net self.now.wired.now.net.now) self.now.table.now w.met.items w.from)) }
    {
        let second = second_of(self.table, actor);
        for behind in 0..pass_of(self.table, actor) {
            let first = FiringNo {
                actor,
                number: second + behind,
            };
            if let Some(way) = self.way_from(alloc, first, marks)? {
                return Ok(Some(way));
            }
        }
        Ok(None)
    }

    /// One that begins at a firing, unless that was met before. Each turn meets a firing for the first time, leaves one for good,
    /// or is the last.
    fn way_from(
        &self,
        alloc: Global,
        first: FiringNo,
        marks: &mut [Option<u32>],
    ) -> Result<Option<Way>, NoMemory>
        requires pass { IsSearchable (F.net self.now.wired.now.net.now) self.now.table.now self.now.offsets.now }
        requires first { IsSecond self.now.table.now first }
        requires marks { IsSearch (F.net self.now.wired.now.net.now) self.now.table.now [] marks.old }
        ensures { IfOk result (λ found. MatchOption found
            (GoesOn (F.net self.now.wired.now.net.now) self.now.table.now marks.old marks.new × IsMarked marks.new (class_at self.now.table.now first))
            (λ w. ComesRound (F.net self.now.wired.now.net.now) self.now.table.now w.met.items w.from)) }
    {
        let before = mark(marks, class_of(self.table, self.offsets, first), 0);
        if let Some(_place) = before {
            return Ok(None);
        }
        let mut met = Vec::new(alloc);
        met.push(Met {
            firing: first,
            passes: 0,
            time: 0,
            channel: 0,
        })?;
        'turns: while let Some(last) = met.as_slice().last() {
            let here = *last;
            if let Some(from) = self.turn(here, &mut met, marks)? {
                return Ok(Some(Way { met, from }));
            }
        }
        Ok(None)
    }

    /// Goes on to a firing that the last one met needs, or back from that where there is none; answers with the place of a
    /// firing that comes again.
    fn turn(
        &self,
        here: Met,
        met: &mut Vec<Met>,
        marks: &mut [Option<u32>],
    ) -> Result<Option<usize>, NoMemory>
        requires pass { IsSearchable (F.net self.now.wired.now.net.now) self.now.table.now self.now.offsets.now }
        requires some { 1 ≤ length met.old.items }
        requires here { here ≡ met_at met.old.items (length met.old.items - 1) }
        requires so_far { IsSearch (F.net self.now.wired.now.net.now) self.now.table.now met.old.items marks.old }
        ensures { IfOk result (λ found. MatchOption found
            (TurnsTo (F.net self.now.wired.now.net.now) self.now.table.now met.old.items marks.old met.new.items marks.new)
            (ComesRound (F.net self.now.wired.now.net.now) self.now.table.now met.new.items)) }
    {
        let inputs = self.wired.inputs_of(here.firing.actor);
        let Some(need) = self.open_need(inputs, here.firing, met.as_slice(), marks) else {
            met.pop();
            return Ok(None);
        };
        let next = self.met_next(here, need);
        let class = class_of(self.table, self.offsets, next.firing);
        let before = mark(marks, class, met.len() as u32);
        met.push(next)?;
        match before {
            Some(place) => Ok(Some(place as usize)),
            None => Ok(None),
        }
    }

    /// A tight need of a firing met, met next.
    fn met_next(&self, here: Met, need: ReadNeed) -> Met
        requires pass { IsSearchable (F.net self.now.wired.now.net.now) self.now.table.now self.now.offsets.now }
        requires near { here.passes ≤ COUNT_BOUND }
        requires soon { here.time ≤ MOMENT_BOUND }
        requires need { IsTightNeed (F.net self.now.wired.now.net.now) self.now.table.now here.firing need }
        ensures leads { Leads (F.net self.now.wired.now.net.now) self.now.table.now here result }
        ensures firing { result.firing ≡ need.firing }
        ensures channel { result.channel ≡ need.channel }
    {
        Met {
            firing: need.firing,
            passes: here.passes + need.passes,
            time: here.time + time_at(self.wired.net, need.firing),
            channel: need.channel,
        }
    }

    /// The first tight need of a firing on no free space, of a firing that isn't marked or stands on the way.
    fn open_need(
        &self,
        inputs: &[u32],
        later: FiringNo,
        met: &[Met],
        marks: &[Option<u32>],
    ) -> Option<ReadNeed>
        requires pass { IsSearchable (F.net self.now.wired.now.net.now) self.now.table.now self.now.offsets.now }
        requires second { IsSecond self.now.table.now later }
        requires listed { IsListed (F.net self.now.wired.now.net.now) Taken later.actor inputs.now }
        requires so_far { IsSearch (F.net self.now.wired.now.net.now) self.now.table.now met.now marks.now }
        ensures { MatchOption result (HasLeftAll (F.net self.now.wired.now.net.now) self.now.table.now met.now marks.now later)
            (IsOpenNeed (F.net self.now.wired.now.net.now) self.now.table.now met.now marks.now later) }
    {
        for channel in inputs {
            if let Some(need) = self.need_along(*channel, later, met, marks) {
                return Some(need);
            }
        }
        None
    }

    /// That on a channel.
    fn need_along(
        &self,
        channel: u32,
        later: FiringNo,
        met: &[Met],
        marks: &[Option<u32>],
    ) -> Option<ReadNeed>
        requires pass { IsSearchable (F.net self.now.wired.now.net.now) self.now.table.now self.now.offsets.now }
        requires second { IsSecond self.now.table.now later }
        requires place { channel < length (F.net self.now.wired.now.net.now).channels }
        requires target { (channel_at (F.net self.now.wired.now.net.now) channel).target ≡ later.actor }
        requires so_far { IsSearch (F.net self.now.wired.now.net.now) self.now.table.now met.now marks.now }
        ensures { MatchOption result (HasLeftOn (F.net self.now.wired.now.net.now) self.now.table.now met.now marks.now later channel)
            (IsOpenNeed (F.net self.now.wired.now.net.now) self.now.table.now met.now marks.now later) }
    {
        if is_space(self.wired.net, channel) {
            return None;
        }
        let need = tight_on(self.wired.net, self.table, channel, later)?;
        if self.is_open(need.firing, met, marks) {
            Some(need)
        } else {
            None
        }
    }

    /// Whether a firing isn't marked, or stands on the way.
    fn is_open(&self, firing: FiringNo, met: &[Met], marks: &[Option<u32>]) -> bool
        requires pass { IsSearchable (F.net self.now.wired.now.net.now) self.now.table.now self.now.offsets.now }
        requires second { IsSecond self.now.table.now firing }
        requires so_far { IsSearch (F.net self.now.wired.now.net.now) self.now.table.now met.now marks.now }
        ensures { MatchBool result (IsOpen self.now.table.now met.now marks.now firing) (IsLeft self.now.table.now met.now marks.now firing) }
    {
        let before = mark_at(marks, class_of(self.table, self.offsets, firing));
        match before {
            None => true,
            Some(place) => stands_at(met, place as usize, firing),
        }
    }

    /// The need cycle of a way that comes round.
    fn closed(&self, alloc: Global, way: &Way) -> Result<NeedCycle, NoMemory>
        requires pass { IsSearchable (F.net self.now.wired.now.net.now) self.now.table.now self.now.offsets.now }
        requires round { ComesRound (F.net self.now.wired.now.net.now) self.now.table.now way.now.met.items way.now.from }
        ensures unspaced { IfOk result (IsUnspaced (F.net self.now.wired.now.net.now)) }
        ensures critical { IfOk result (IsCriticalCycleOf (F.net self.now.wired.now.net.now) self.now.table.now) }
    {
        let met = way.met.as_slice();
        let cycle = closed_cycle(alloc, self.wired.net, self.table, met, way.from)?;
        Ok(cycle)
    }
}

/// Whether a channel is a free space.
fn is_space<F: Firing>(net: &F, channel: u32) -> bool
    requires { channel < length (F.net net.now).channels }
    ensures { MatchBool result ((c : ℕ) × ((channel_at (F.net net.now) channel).role ≡ Space c)) (IsNoSpace (F.net net.now) channel) }
{
    match net.role(channel) {
        Role::Space(_) => true,
        Role::Token(_) | Role::Own(_) | Role::Order(_, _) => false,
    }
}

/// Whether a firing stands at a place of a way.
fn stands_at(met: &[Met], place: usize, firing: FiringNo) -> bool
    ensures { MatchBool result ((place < length met.now) × ((met_at met.now place).firing ≡ firing))
        (place < length met.now → (met_at met.now place).firing ≢ firing) }
{
    place < met.len() && met[place].firing == firing
}
