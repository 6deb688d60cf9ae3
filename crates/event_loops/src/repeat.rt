//! The first shape that comes again, once the time from a shape to its like is known.
ghost use Rattle.std.specs.Prelude.{◌≡◌, ℕ, ◌↔◌, ◌+◌, ◌≤◌, [], IfErr, IfOk, IsTrue, MatchBool, length, replicate};
ghost use Rattle.sd_base.specs.SelfTimed.{IsEvent, starts_by};
ghost use Rattle.selftimed.specs.declared.engine.Stage.TheVariants.{Running};
ghost use Rattle.loops.specs.LoopAnswers.{IsRunRefusal};
ghost use Rattle.loops.specs.StartRows.{AreStarts};
ghost use Rattle.event_loops.specs.inside.Going.{Follows, IsReady, NeverStops};
ghost use Rattle.event_loops.specs.inside.Searching.{IsPeriod, IsLikeness, IsRepeat};

use crate::collect::add_starts;
use crate::steps::{go_on, next_event};
use firing::Firing;
use loops::RunError;
use sd_base::{NoMemory, Rows};
use selftimed::Engine;

/// Runs `lead` until it stands where `trail`, which follows it `period` time units behind, stands too, for
/// at most `states` shapes, and adds the starts of `lead` to the rows of its actors. Answers the moment of `lead`.
pub(crate) fn first_repeat<'a, F: Firing>(
    lead: &mut Engine<'a, F>,
    trail: &mut Engine<'a, F>,
    starts: &mut [Rows<u64>],
    period: u64,
    states: u64,
) -> Result<u64, RunError>
    requires runs { NeverStops (F.net lead.old.net.now) }
    requires net { trail.old.net.now ≡ lead.old.net.now }
    requires lead { IsReady lead.old.stage lead.old.most }
    requires start { lead.old.moment ≡ 0 }
    requires trail { IsReady trail.old.stage trail.old.most }
    requires starts { starts.old ≡ replicate (length (F.net lead.old.net.now).times) [] }
    requires period { IsPeriod (F.net lead.old.net.now) period }
    requires some { 1 ≤ states }
    ensures net { trail.new.net ≡ trail.old.net }
    ensures most { trail.new.most ≡ trail.old.most }
    ensures running { IfOk result (λ end. trail.new.stage ≡ Running) }
    ensures found { IfOk result (λ end. IsRepeat (F.net lead.old.net.now) states trail.new.moment end) }
    ensures starts { IfOk result (λ end. AreStarts (F.net lead.old.net.now) end starts.new) }
    ensures refused { IfErr result (IsRunRefusal (F.net lead.old.net.now) states) }
{
    if !go_on(trail)? {
        return Err(RunError::TooManyStarts);
    }
    'events: for _event in 0..states {
        if !go_on(lead)? {
            return Err(RunError::TooManyStarts);
        }
        add_starts(lead, starts)?;
        if meets(lead, trail, period)? {
            return Ok(lead.moment());
        }
    }
    Err(RunError::StatesSpent)
}

/// Brings `trail` so far behind `lead`, and tells whether the same stands at both.
fn meets<'a, F: Firing>(
    lead: &Engine<'a, F>,
    trail: &mut Engine<'a, F>,
    period: u64,
) -> Result<bool, NoMemory>
    requires runs { NeverStops (F.net lead.now.net.now) }
    requires net { trail.old.net.now ≡ lead.now.net.now }
    requires lead { lead.now.stage ≡ Running }
    requires trail { trail.old.stage ≡ Running }
    requires some { 1 ≤ period }
    requires event { IsEvent (F.net lead.now.net.now) lead.now.moment }
    requires few { starts_by (F.net lead.now.net.now) lead.now.moment ≤ trail.old.most }
    requires follows { Follows (F.net lead.now.net.now) period lead.now.moment trail.old.moment }
    ensures net { trail.new.net ≡ trail.old.net }
    ensures most { trail.new.most ≡ trail.old.most }
    ensures running { IfOk result (λ met. trail.new.stage ≡ Running) }
    ensures follows { IfOk result (λ met. Follows (F.net lead.now.net.now) period lead.now.moment trail.new.moment) }
    ensures met { IfOk result (λ met. MatchBool met (IsLikeness (F.net lead.now.net.now) period trail.new.moment lead.now.moment)
        ((x : ℕ) → ¬ IsLikeness (F.net lead.now.net.now) period x lead.now.moment)) }
{
    if !follow(trail, lead.moment(), period)? {
        return Ok(false);
    }
    Ok(lead.same_as(trail))
}

/// Brings an engine to the first event that is not before `period` time units ahead of `end`, and tells
/// whether it stands just there.
fn follow<F: Firing>(trail: &mut Engine<F>, end: u64, period: u64) -> Result<bool, NoMemory>
    requires runs { NeverStops (F.net trail.old.net.now) }
    requires running { trail.old.stage ≡ Running }
    requires some { 1 ≤ period }
    requires event { IsEvent (F.net trail.old.net.now) end }
    requires few { starts_by (F.net trail.old.net.now) end ≤ trail.old.most }
    requires follows { Follows (F.net trail.old.net.now) period end trail.old.moment }
    ensures net { trail.new.net ≡ trail.old.net }
    ensures most { trail.new.most ≡ trail.old.most }
    ensures running { IfOk result (λ there. trail.new.stage ≡ Running) }
    ensures follows { IfOk result (λ there. Follows (F.net trail.old.net.now) period end trail.new.moment) }
    ensures reached { IfOk result (λ there. end ≤ trail.new.moment + period) }
    ensures there { IfOk result (λ there. IsTrue there ↔ (trail.new.moment + period ≡ end)) }
{
    if end < period {
        return Ok(false);
    }
    'events: while trail.moment() < end - period {
        next_event(trail)?;
    }
    Ok(trail.moment() == end - period)
}
