//! The search for two equal shapes, by one execution that keeps two of its shapes (Brent 1980).
//!
//! The shapes that are kept are checkpoints, and later ones are compared with them. A new checkpoint takes the place of the older
//! one when the starts are half as many again as those up to the newer one, but not before this one has stood for a time: a
//! quarter of a round for the first one, and three quarters for each later one. No loop has fewer starts than a round, and most
//! have just a round; a checkpoint is compared with until the next but one takes its place, so for a round and a half or more. So a
//! loop that is entered soon is found after a round and a quarter, and one that is entered late after half as many starts
//! again as up to its first repeat, or sooner.
//!
//! A shape that comes again within what is allowed may be none of those that are kept. So the last allowed one becomes a
//! checkpoint too, and the search goes on up to twice its moment: if a shape has come again up to there, this one stands on the
//! loop itself, whose period is no longer than its moment.
ghost use Rattle.std.specs.Prelude.{◌≡◌, ◌↔◌, ◌*◌, ◌+◌, ◌≤◌, ◌<◌, [], IfErr, IfOk, IsTrue, OnOk, MatchOption, length, replicate};
ghost use Rattle.sd_base.specs.declared.limits.TheConstants.{STARTS};
ghost use Rattle.sd_base.specs.SelfTimed.{shape_at, starts_by};
ghost use Rattle.selftimed.specs.Fingerprints.{running_fingerprint_of};
ghost use Rattle.selftimed.specs.declared.engine.Stage.TheVariants.{Fresh, Running};
ghost use Rattle.loops.specs.LoopAnswers.{IsRunRefusal};
ghost use Rattle.loops.specs.declared.error.RunError.TheVariants.{StatesSpent, TooManyStarts};
ghost use Rattle.event_loops.specs.inside.Fingerprinting.{AreFingerprints};
ghost use Rattle.event_loops.specs.inside.Going.{IsAtEvent, NeverStops};
ghost use Rattle.event_loops.specs.inside.Tracing.{AreAllowed, IsTrace};
ghost use Rattle.event_loops.specs.inside.Searching.{IsPair, IsCheckpoint, IsWatch, IsLast, NoneSoon};

use crate::fingerprints::{is_new, upper_half};
use crate::steps::go_on;
use crate::trace::Trace;
use firing::Firing;
use loops::{Pair, RunError, room_for, starts_of_round};
use sd_base::NoMemory;
use sd_base::limits::STARTS;
use selftimed::{Engine, Shape};
use std::alloc::Global;
use std::mem;

/// How many starts the search makes at most. If a shape comes again within `STARTS` starts, the last
/// checkpoint stands within twice as many, and comes again within as many more.
pub(crate) const SEARCH_STARTS: u64 = 4 * STARTS;

/// A shape that the later ones are compared with.
pub(crate) struct Checkpoint {
    pub(crate) shape: Shape,
    pub(crate) fingerprint: u64,
    pub(crate) running_fingerprint: u64,
    pub(crate) moment: u64,
    pub(crate) starts: u64,
    /// Up to how many starts it stays.
    pub(crate) stays_to: u64,
}

// By hand, so that what drops one calls this, and does not drop each of its parts.
impl Drop for Checkpoint {
    fn drop(self) {
        let Checkpoint {
            shape: _shape,
            fingerprint: _fingerprint,
            running_fingerprint: _running_fingerprint,
            moment: _moment,
            starts: _starts,
            stays_to: _stays_to,
        } = self;
    }
}

/// The two shapes that later ones are compared with, the newer one first.
pub(crate) struct Watch {
    pub(crate) last: Checkpoint,
    pub(crate) before: Checkpoint,
}

// By hand, so that what drops one calls this, and does not drop each of its parts.
impl Drop for Watch {
    fn drop(self) {
        let Watch {
            last: _last,
            before: _before,
        } = self;
    }
}

/// Finds a shape and the first one after it that is equal, and leaves the events and starts on the way in a trace. Each later
/// shape is compared with those of the last two checkpoints. The first shape is the first checkpoint; a later one becomes one
/// when the last one has stood for some time (`end_of_stay`). Where none is found again, the last shape that is allowed
/// tells: if a shape up to there came again, then this one came before. So a new fingerprint of its tokens shows that all
/// shapes differ; else it becomes a checkpoint, which comes again if a shape up to there does.
pub(crate) fn find_pair<F: Firing>(
    alloc: Global,
    engine: &mut Engine<F>,
    trace: &mut Trace,
    states: u64,
) -> Result<Pair, RunError>
    requires runs { NeverStops (F.net engine.old.net.now) }
    requires fresh { engine.old.stage ≡ Fresh }
    requires most { engine.old.most ≡ 4 * STARTS }
    requires some { 1 ≤ states }
    requires no_events { trace.old.moments.items ≡ [] }
    requires no_starts { trace.old.starts.items ≡ replicate (length (F.net engine.old.net.now).times) [] }
    ensures net { engine.new.net ≡ engine.old.net }
    ensures found { IfOk result (IsPair (F.net engine.old.net.now)) }
    ensures traced { IfOk result (λ pair. AreAllowed (F.net engine.old.net.now) states trace.new.moments.items trace.new.starts.items) }
    ensures refused { IfErr result (IsRunRefusal (F.net engine.old.net.now) states) }
{
    let mut fingerprints = Vec::with_capacity(alloc, room_for(starts_of_round(engine.net)))?;
    if let Some(pair) = search_allowed(alloc, engine, trace, &mut fingerprints, states)? {
        return Ok(pair);
    }
    if is_new(upper_half(engine), fingerprints.as_slice()) {
        return Err(refusal_at(engine.starts()));
    }
    let last = checkpoint_of(alloc, engine, starts_of_round(engine.net))?;
    if let Some(pair) = search_on(engine, &last)? {
        return Ok(pair);
    }
    Err(refusal_at(last.starts))
}

/// Why the search ends with the last shape that is allowed, where none comes twice.
fn refusal_at(starts: u64) -> RunError
    ensures spent { starts ≤ STARTS → result ≡ StatesSpent }
    ensures many { STARTS < starts → result ≡ TooManyStarts }
{
    if starts <= STARTS {
        RunError::StatesSpent
    } else {
        RunError::TooManyStarts
    }
}

/// Compares each of the first `states` shapes with those of the last two checkpoints, up to the first one with more than `STARTS`
/// starts, and adds their events to a trace and the fingerprints of all but the last one to others. None: no checkpoint was
/// found again.
fn search_allowed<F: Firing>(
    alloc: Global,
    engine: &mut Engine<F>,
    trace: &mut Trace,
    fingerprints: &mut Vec<u32>,
    states: u64,
) -> Result<Option<Pair>, RunError>
    requires runs { NeverStops (F.net engine.old.net.now) }
    requires fresh { engine.old.stage ≡ Fresh }
    requires most { engine.old.most ≡ 4 * STARTS }
    requires some { 1 ≤ states }
    requires no_events { trace.old.moments.items ≡ [] }
    requires no_fingerprints { fingerprints.old.items ≡ [] }
    requires no_starts { trace.old.starts.items ≡ replicate (length (F.net engine.old.net.now).times) [] }
    ensures net { engine.new.net ≡ engine.old.net }
    ensures most { engine.new.most ≡ engine.old.most }
    ensures traced { IfOk result (λ o. AreAllowed (F.net engine.old.net.now) states trace.new.moments.items trace.new.starts.items) }
    ensures fingerprints { IfOk result (λ o. MatchOption o (AreFingerprints (F.net engine.old.net.now) engine.new.moment fingerprints.new.items) (λ pair. Unit {0})) }
    ensures found { IfOk result (λ o. MatchOption o ((engine.new.stage ≡ Running) × IsLast (F.net engine.old.net.now) states engine.new.moment) (IsPair (F.net engine.old.net.now))) }
    ensures refused { IfErr result (IsRunRefusal (F.net engine.old.net.now) states) }
{
    if !go_on(engine)? {
        return Err(RunError::TooManyStarts);
    }
    trace.add(engine)?;
    let mut watch = watch_from(alloc, engine)?;
    search_after(alloc, engine, trace, fingerprints, &mut watch, states)
}

/// What the shapes after one are compared with: with this one at first.
fn watch_from<F: Firing>(alloc: Global, engine: &Engine<F>) -> Result<Watch, NoMemory>
    requires { IsAtEvent (F.net engine.now.net.now) engine.now.stage engine.now.moment }
    ensures { IfOk result (IsWatch (F.net engine.now.net.now) (engine.now.moment + 1)) }
{
    let round = starts_of_round(engine.net);
    let last = checkpoint_of(alloc, engine, round)?;
    let before = checkpoint_of(alloc, engine, round)?;
    Ok(Watch { last, before })
}

/// Goes on with what `search_allowed` does from the first shape, at which the engine stands.
fn search_after<F: Firing>(
    alloc: Global,
    engine: &mut Engine<F>,
    trace: &mut Trace,
    fingerprints: &mut Vec<u32>,
    watch: &mut Watch,
    states: u64,
) -> Result<Option<Pair>, RunError>
    requires runs { NeverStops (F.net engine.old.net.now) }
    requires running { engine.old.stage ≡ Running }
    requires first { engine.old.moment ≡ 0 }
    requires most { engine.old.most ≡ 4 * STARTS }
    requires some { 1 ≤ states }
    requires watch { IsWatch (F.net engine.old.net.now) (engine.old.moment + 1) watch.old }
    requires trace { starts_by (F.net engine.old.net.now) engine.old.moment ≤ STARTS →
        IsTrace (F.net engine.old.net.now) engine.old.moment trace.old.moments.items trace.old.starts.items }
    requires allowed { AreAllowed (F.net engine.old.net.now) states trace.old.moments.items trace.old.starts.items }
    requires no_fingerprints { fingerprints.old.items ≡ [] }
    ensures net { engine.new.net ≡ engine.old.net }
    ensures most { engine.new.most ≡ engine.old.most }
    ensures traced { IfOk result (λ o. AreAllowed (F.net engine.old.net.now) states trace.new.moments.items trace.new.starts.items) }
    ensures fingerprints { IfOk result (λ o. MatchOption o (AreFingerprints (F.net engine.old.net.now) engine.new.moment fingerprints.new.items) (λ pair. Unit {0})) }
    ensures found { IfOk result (λ o. MatchOption o ((engine.new.stage ≡ Running) × IsLast (F.net engine.old.net.now) states engine.new.moment) (IsPair (F.net engine.old.net.now))) }
    ensures refused { IfErr result (IsRunRefusal (F.net engine.old.net.now) states) }
{
    let round = starts_of_round(engine.net);
    for _event in 1..states {
        if engine.starts() > STARTS {
            return Ok(None);
        }
        fingerprints.push(upper_half(engine))?;
        if !go_on(engine)? {
            return Err(RunError::TooManyStarts);
        }
        trace.add(engine)?;
        if let Some(pair) = pair_with(engine, watch) {
            return Ok(Some(pair));
        }
        renew(alloc, engine, watch, round)?;
    }
    Ok(None)
}

/// The event at which an engine stands and that of a checkpoint, if their shapes are equal. Cost: where no checkpoint has this
/// shape, mostly constant if their tokens differ from its, and linear in the actors if the running firings do.
#[inline(always)]
fn pair_with<F: Firing>(engine: &Engine<F>, watch: &Watch) -> Option<Pair>
    requires stands { IsAtEvent (F.net engine.now.net.now) engine.now.stage engine.now.moment }
    requires watch { IsWatch (F.net engine.now.net.now) engine.now.moment watch.now }
    ensures { MatchOption result (IsWatch (F.net engine.now.net.now) (engine.now.moment + 1) watch.now) (IsPair (F.net engine.now.net.now)) }
{
    let fingerprint = engine.fingerprint();
    if fingerprint == watch.last.fingerprint || fingerprint == watch.before.fingerprint {
        return pair_of_alike(engine, watch);
    }
    None
}

/// What `pair_with` finds where the tokens may be those of a checkpoint: told by the running firings first.
#[inline(never)]
fn pair_of_alike<F: Firing>(engine: &Engine<F>, watch: &Watch) -> Option<Pair>
    requires stands { IsAtEvent (F.net engine.now.net.now) engine.now.stage engine.now.moment }
    requires watch { IsWatch (F.net engine.now.net.now) engine.now.moment watch.now }
    ensures { MatchOption result (IsWatch (F.net engine.now.net.now) (engine.now.moment + 1) watch.now) (IsPair (F.net engine.now.net.now)) }
{
    let later = engine.moment();
    let running_fingerprint = engine.running_fingerprint();
    if has_shape(engine, running_fingerprint, &watch.last) {
        return Some(Pair {
            earlier: watch.last.moment,
            later,
        });
    }
    if has_shape(engine, running_fingerprint, &watch.before) {
        return Some(Pair {
            earlier: watch.before.moment,
            later,
        });
    }
    None
}

/// Makes the shape at which an engine stands a checkpoint, if the last one has stayed long enough.
#[inline(always)]
fn renew<F: Firing>(
    alloc: Global,
    engine: &Engine<F>,
    watch: &mut Watch,
    round: u64,
) -> Result<(), NoMemory>
    requires stands { IsAtEvent (F.net engine.now.net.now) engine.now.stage engine.now.moment }
    requires watch { IsWatch (F.net engine.now.net.now) (engine.now.moment + 1) watch.old }
    ensures { OnOk result (IsWatch (F.net engine.now.net.now) (engine.now.moment + 1) watch.new) }
{
    if engine.starts() > watch.last.stays_to {
        put_checkpoint(alloc, engine, watch, round)?;
    }
    Ok(())
}

/// Makes the shape at which an engine stands the newer checkpoint, and the newer one the older one.
#[inline(never)]
fn put_checkpoint<F: Firing>(
    alloc: Global,
    engine: &Engine<F>,
    watch: &mut Watch,
    round: u64,
) -> Result<(), NoMemory>
    requires stands { IsAtEvent (F.net engine.now.net.now) engine.now.stage engine.now.moment }
    requires watch { IsWatch (F.net engine.now.net.now) (engine.now.moment + 1) watch.old }
    ensures watch { OnOk result (IsWatch (F.net engine.now.net.now) (engine.now.moment + 1) watch.new) }
    ensures last { OnOk result (watch.new.last.moment ≡ engine.now.moment) }
    ensures before { OnOk result (watch.new.before ≡ watch.old.last) }
{
    let next = checkpoint_of(alloc, engine, round)?;
    watch.before = mem::replace(&mut watch.last, next);
    Ok(())
}

/// Up to how many starts a checkpoint is the newer one, where a round has `round` of them: up to half as many again as its own,
/// and for three quarters of a round. The first one is it for a quarter of a round: where a loop is entered by then, the second
/// one stands on it.
fn end_of_stay(moment: u64, starts: u64, round: u64) -> u64 {
    let quarter = round / 4;
    let stay = if moment == 0 {
        quarter
    } else {
        quarter.saturating_mul(3)
    };
    starts
        .saturating_add(stay.max(starts / 2))
        .saturating_add(1)
}

/// The shape at which an engine stands, where a round has `round` starts.
fn checkpoint_of<F: Firing>(
    alloc: Global,
    engine: &Engine<F>,
    round: u64,
) -> Result<Checkpoint, NoMemory>
    requires { IsAtEvent (F.net engine.now.net.now) engine.now.stage engine.now.moment }
    ensures moment { IfOk result (λ c. c.moment ≡ engine.now.moment) }
    ensures checkpoint { IfOk result (IsCheckpoint (F.net engine.now.net.now)) }
{
    Ok(Checkpoint {
        shape: engine.shape(alloc)?,
        fingerprint: engine.fingerprint(),
        running_fingerprint: engine.running_fingerprint(),
        moment: engine.moment(),
        starts: engine.starts(),
        stays_to: end_of_stay(engine.moment(), engine.starts(), round),
    })
}

/// Whether an engine stands at the shape of a checkpoint. Cost: where it doesn't, mostly constant if the tokens
/// differ, and linear in the actors if the running firings do.
#[inline(always)]
fn stands_at<F: Firing>(engine: &Engine<F>, checkpoint: &Checkpoint) -> bool
    requires running { engine.now.stage ≡ Running }
    requires checkpoint { IsCheckpoint (F.net engine.now.net.now) checkpoint.now }
    ensures { IsTrue result ↔ (shape_at (F.net engine.now.net.now) engine.now.moment ≡ shape_at (F.net engine.now.net.now) checkpoint.now.moment) }
{
    if engine.fingerprint() != checkpoint.fingerprint {
        return false;
    }
    has_shape(engine, engine.running_fingerprint(), checkpoint)
}

/// Whether an engine, with this fingerprint of its running firings, stands at the shape of a checkpoint.
#[inline(never)]
fn has_shape<F: Firing>(
    engine: &Engine<F>,
    running_fingerprint: u64,
    checkpoint: &Checkpoint,
) -> bool
    requires running { engine.now.stage ≡ Running }
    requires fingerprint { running_fingerprint ≡ running_fingerprint_of (shape_at (F.net engine.now.net.now) engine.now.moment).remaining }
    requires checkpoint { IsCheckpoint (F.net engine.now.net.now) checkpoint.now }
    ensures { IsTrue result ↔ (shape_at (F.net engine.now.net.now) engine.now.moment ≡ shape_at (F.net engine.now.net.now) checkpoint.now.moment) }
{
    if running_fingerprint != checkpoint.running_fingerprint {
        return false;
    }
    engine.same_shape(&checkpoint.shape)
}

/// Looks for the shape of the checkpoint at which the engine stands, up to twice its moment and over
/// `STARTS` more starts.
fn search_on<F: Firing>(
    engine: &mut Engine<F>,
    checkpoint: &Checkpoint,
) -> Result<Option<Pair>, NoMemory>
    requires runs { NeverStops (F.net engine.old.net.now) }
    requires running { engine.old.stage ≡ Running }
    requires checkpoint { IsCheckpoint (F.net engine.old.net.now) checkpoint.now }
    requires here { engine.old.moment ≡ checkpoint.now.moment }
    ensures net { engine.new.net ≡ engine.old.net }
    ensures found { IfOk result (λ o. MatchOption o (NoneSoon (F.net engine.old.net.now) checkpoint.now.moment engine.old.most) (IsPair (F.net engine.old.net.now))) }
{
    'events: while engine.moment() - checkpoint.moment < checkpoint.moment {
        if !go_on(engine)? {
            return Ok(None);
        }
        if stands_at(engine, checkpoint) {
            return Ok(Some(Pair {
                earlier: checkpoint.moment,
                later: engine.moment(),
            }));
        }
        if engine.starts() - checkpoint.starts > STARTS {
            return Ok(None);
        }
    }
    Ok(None)
}
