//! Starts of self-timed execution by needs: a firing starts when the last of the firings that it needs ends.
ghost use Rattle.std.specs.Prelude.{◌≡◌, ◌≢◌, ℕ, ◌≤◌, ◌<◌, [], IsTrue, MatchOption, OnOk, length, slice_index, slice_index_or};
ghost use Rattle.sd_base.specs.Ranges.{FIRING_BOUND, MOMENT_BOUND, ROUND_BOUND};
ghost use Rattle.sd_base.specs.Schedules.{HasInputs, count_of};
ghost use Rattle.loops.specs.StartRows.{AreStarts};
ghost use Rattle.need_loops.specs.inside.Needing.{AreDue, AreNext, IsNextOf, IsStuck, StartsNext};

use crate::feeds::NextFiring;
use firing::{Firing, Wired, know_laws};
use sd_base::{NoMemory, Rows};

/// How often the actors are gone through at most until none goes on.
const SWEEPS: u32 = u32::MAX;

/// How far rows of starts grow.
#[derive(Clone, Copy)]
pub(crate) struct Reach {
    /// Up to and with this moment, in time units.
    pub(crate) until: u64,
    /// Up to so many rounds in each row.
    pub(crate) rounds: u64,
}

/// When the next firing of an actor starts, by the rows. None: a firing that it needs isn't there. Cost: linear in the channels
/// into the actor.
#[inline(always)]
fn next_start<F: Firing>(
    net: &F,
    next: &NextFiring,
    starts: &[Rows<u64>],
    actor: u32,
) -> Option<u64>
    requires actor { actor < length (F.net net.now).times }
    requires due { (until : ℕ) × (until ≤ MOMENT_BOUND) × AreDue (F.net net.now) until starts.now }
    requires next { IsNextOf (F.net net.now) actor (count_of starts.now actor) next.now }
    ensures { MatchOption result (IsStuck (F.net net.now) starts.now actor) (StartsNext (F.net net.now) starts.now actor) }
{
    know_laws(net);
    let mut start = match starts[actor as usize].as_slice().last() {
        Some(last) => *last + next.pause,
        None => 0,
    };
    for feed in &next.feeds {
        if feed.firings != 0 {
            let row = starts[feed.source as usize].as_slice();
            if feed.firings > row.len() as u64 {
                return None;
            }
            let end = row[feed.firings as usize - 1] + feed.time;
            if start < end {
                start = end;
            }
        }
    }
    Some(start)
}

/// Adds the starts of an actor up to a moment that the rows tell, up to `most` in its row, and says whether there is one.
#[inline(always)]
fn extend<F: Firing>(
    net: &F,
    next: &mut NextFiring,
    starts: &mut [Rows<u64>],
    actor: u32,
    until: u64,
    most: u64,
) -> Result<bool, NoMemory>
    requires actor { actor < length (F.net net.now).times }
    requires due { AreDue (F.net net.now) until starts.old }
    requires next { IsNextOf (F.net net.now) actor (count_of starts.old actor) next.old }
    requires soon { until ≤ MOMENT_BOUND }
    requires few { most ≤ FIRING_BOUND }
    ensures long { length starts.new ≡ length starts.old }
    ensures due { OnOk result (AreDue (F.net net.now) until starts.new) }
    ensures next { OnOk result (IsNextOf (F.net net.now) actor (count_of starts.new actor) next.new) }
    ensures others { (a : ℕ) → a ≢ actor → slice_index_or starts.new a [] ≡ slice_index_or starts.old a [] }
{
    let before = starts[actor as usize].len() as u64;
    for firing in before..most {
        match next_start(net, next, starts, actor) {
            Some(start) if start <= until => {
                starts[actor as usize].push(start)?;
                next.advance(net, actor, firing);
            }
            _ => return Ok(before < firing),
        }
    }
    Ok(before < most)
}

/// Adds all starts within a reach that the rows tell. `flags` is by actor. Cost: linear in the channels into each actor for each of
/// its starts, and for each time that one of them has new starts.
pub(crate) fn extend_all<F: Firing>(
    wired: &Wired<F>,
    firings: &mut [NextFiring],
    starts: &mut [Rows<u64>],
    flags: &mut [bool],
    reach: Reach,
) -> Result<(), NoMemory>
    requires due { AreDue (F.net wired.now.net.now) reach.until starts.old }
    requires next { AreNext (F.net wired.now.net.now) starts.old firings.old }
    requires flags { length flags.old ≡ length (F.net wired.now.net.now).times }
    requires soon { reach.until ≤ MOMENT_BOUND }
    requires few { reach.rounds ≤ ROUND_BOUND }
    ensures flags { length flags.new ≡ length flags.old }
    ensures due { OnOk result (AreDue (F.net wired.now.net.now) reach.until starts.new) }
    ensures next { OnOk result (AreNext (F.net wired.now.net.now) starts.new firings.new) }
{
    know_laws(wired.net);
    for actor in 0..wired.net.actors() {
        flags[actor as usize] = true;
    }
    for _sweep in 0..SWEEPS {
        if !sweep(wired, firings, starts, flags, reach)? {
            return Ok(());
        }
    }
    Ok(())
}

/// Adds such starts of each actor that is flagged, in turn, and says whether there is one. It takes the actors' flags off, and
/// flags those that take tokens of one with new starts.
#[inline(always)]
fn sweep<F: Firing>(
    wired: &Wired<F>,
    firings: &mut [NextFiring],
    starts: &mut [Rows<u64>],
    flags: &mut [bool],
    reach: Reach,
) -> Result<bool, NoMemory>
    requires due { AreDue (F.net wired.now.net.now) reach.until starts.old }
    requires next { AreNext (F.net wired.now.net.now) starts.old firings.old }
    requires flags { length flags.old ≡ length (F.net wired.now.net.now).times }
    requires soon { reach.until ≤ MOMENT_BOUND }
    requires few { reach.rounds ≤ ROUND_BOUND }
    ensures flags { length flags.new ≡ length flags.old }
    ensures due { OnOk result (AreDue (F.net wired.now.net.now) reach.until starts.new) }
    ensures next { OnOk result (AreNext (F.net wired.now.net.now) starts.new firings.new) }
{
    let net = wired.net;
    know_laws(net);
    let mut found = false;
    for actor in 0..net.actors() {
        if flags[actor as usize] {
            flags[actor as usize] = false;
            let room = net.round(actor) * reach.rounds;
            if extend(
                net,
                &mut firings[actor as usize],
                starts,
                actor,
                reach.until,
                room,
            )? {
                flag_targets(net, actor, wired.outputs_of(actor), flags);
                found = true;
            }
        }
    }
    Ok(found)
}

/// Flags the actors other than this one into which channels lead.
#[inline(always)]
fn flag_targets<F: Firing>(net: &F, actor: u32, channels: &[u32], flags: &mut [bool])
    requires there { (j : ℕ) → j < length channels.now → slice_index channels.now j < length (F.net net.now).channels }
    requires flags { length flags.old ≡ length (F.net net.now).times }
    ensures { length flags.new ≡ length flags.old }
{
    know_laws(net);
    for channel in channels {
        let target = net.target(*channel);
        if target != actor {
            flags[target as usize] = true;
        }
    }
}

/// Whether no actor has another start up to a moment, so that the rows have all of self-timed execution. Cost: linear in the
/// channels.
pub(crate) fn are_whole<F: Firing>(
    net: &F,
    firings: &[NextFiring],
    starts: &[Rows<u64>],
    until: u64,
) -> bool
    requires inputs { HasInputs (F.net net.now) }
    requires due { AreDue (F.net net.now) until starts.now }
    requires next { AreNext (F.net net.now) starts.now firings.now }
    requires soon { until ≤ MOMENT_BOUND }
    ensures { IsTrue result → AreStarts (F.net net.now) until starts.now }
{
    know_laws(net);
    for actor in 0..net.actors() {
        if let Some(start) = next_start(net, &firings[actor as usize], starts, actor) {
            if start <= until {
                return false;
            }
        }
    }
    true
}
