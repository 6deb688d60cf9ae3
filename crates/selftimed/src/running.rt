//! The firings of an actor that run.
//!
//! The firings of an actor that run are kept as runs: a moment, and how many firings beside each other end at it. So a
//! million firings that start together cost what one costs. Two runs beside each other end at different moments, so that
//! equal lists of ends have the same runs, and are compared run by run. Mostly there is one run, and so an actor's first
//! one stands in its state itself, and only the later ones in a vector.
ghost use Rattle.std.specs.Prelude.{◌≡◌, ℕ, ◌+◌, ◌-◌, ◌%◌, ◌^◌, ◌<◌, ◌≤◌, [], ◌∷◌, ◌++◌, All, MatchOption, OnErr, OnOk, drop, length, map, replicate, slice_get, slice_index, sum, take};
ghost use Rattle.selftimed.specs.inside.Runs.{run_at, ends_of, AreRuns};

use crate::queue::{Queue, Run};
use std::alloc::{AllocError, Global};
use std::marker::Model;

/// The firings of an actor that run, as the moments at which they end, ascending, with the sum of these
/// moments, by which most unequal lists of them are told apart at once. Contracts see the list; the firings beside
/// each other that end together are kept as one run. Mostly all end together: so the first run stands here itself.
#[derive(Debug, Drop)]
pub(crate) struct Running {
    /// The first run. It has no firings where none run.
    first: Run,
    /// How many firings there are in all.
    firings: u64,
    /// The sum of the ends, in 64 bits.
    total: u64,
    /// The later runs.
    later: Queue,
}

/// Runs of firings, of which there is one at least.
#[derive(Clone, Copy, Debug)]
pub(crate) struct Runs<'a> {
    pub(crate) first: Run,
    pub(crate) later: &'a [Run],
}

impl Model for Running {
    ghost use Rattle.std.specs.Prelude.{List, ℕ};

    ghost Value = { List ℕ };

    ghost use Rattle.selftimed.specs.inside.Kept.{kept_ends, IsKept};

    ghost view = { kept_ends };

    ghost invariant = { IsKept };
}

impl Running {
    pub(crate) fn new(alloc: Global) -> Running
        ensures { result ≡ [] }
    {
        Running {
            first: Run { end: 0, firings: 0 },
            firings: 0,
            total: 0,
            later: Queue::new(alloc),
        }
    }

    /// The end of the first firing, if one runs.
    pub(crate) fn first(&self) -> Option<u64>
        ensures { result ≡ slice_get self.now 0 }
    {
        if self.firings == 0 {
            return None;
        }
        Some(self.first.end)
    }

    /// The runs of firings that end together, if firings run.
    pub(crate) fn as_runs(&self) -> Option<Runs<'_>>
        ensures { MatchOption result (self.now ≡ [])
            (λ runs. (ends_of (runs.first ∷ runs.later.now) ≡ self.now) × AreRuns (runs.first ∷ runs.later.now)) }
    {
        if self.firings == 0 {
            return None;
        }
        Some(Runs {
            first: self.first,
            later: self.later.as_slice(),
        })
    }

    /// Adds firings that end together.
    pub(crate) fn push(&mut self, end: u64, firings: u64) -> Result<(), AllocError>
        requires some { 0 < firings }
        requires few { length self.old + firings < 2 ^ 64 }
        ensures ok { OnOk result (self.new ≡ self.old ++ replicate firings end) }
        ensures err { OnErr result (self.new ≡ self.old) }
    {
        if self.firings > 0 {
            return self.push_behind(end, firings);
        }
        self.first = Run { end, firings };
        self.firings = firings;
        self.total = end.wrapping_mul(firings);
        Ok(())
    }

    /// Adds firings that end together to others.
    #[inline(never)]
    fn push_behind(&mut self, end: u64, firings: u64) -> Result<(), AllocError>
        requires some { 0 < firings }
        requires others { 0 < length self.old }
        requires few { length self.old + firings < 2 ^ 64 }
        ensures ok { OnOk result (self.new ≡ self.old ++ replicate firings end) }
        ensures err { OnErr result (self.new ≡ self.old) }
    {
        add_behind(&mut self.first, &mut self.later, end, firings)?;
        self.firings += firings;
        self.total = self.total.wrapping_add(end.wrapping_mul(firings));
        Ok(())
    }

    /// Takes off the firings before the first one that ends after a moment, and tells how many there are. Cost: linear in
    /// the runs that they make.
    pub(crate) fn pop_ended(&mut self, moment: u64) -> u64
        ensures within { result ≤ length self.old }
        ensures rest { self.new ≡ drop result self.old }
        ensures past { (k : ℕ) → k < result → slice_index self.old k ≤ moment }
        ensures next { result < length self.old → moment < slice_index self.old result }
    {
        if self.first.end > moment {
            return 0;
        }
        // mostly the first run has all firings, and no later one has to be looked at
        let firings = self.firings;
        if self.first.firings < firings {
            return self.pop_runs(moment);
        }
        self.first.firings = 0;
        self.firings = 0;
        self.total = 0;
        firings
    }

    /// The same where the first firing ends by the moment.
    #[inline(never)]
    fn pop_runs(&mut self, moment: u64) -> u64
        requires some { 0 < length self.old }
        requires first { slice_index self.old 0 ≤ moment }
        ensures within { result ≤ length self.old }
        ensures rest { self.new ≡ drop result self.old }
        ensures past { (k : ℕ) → k < result → slice_index self.old k ≤ moment }
        ensures next { result < length self.old → moment < slice_index self.old result }
    {
        let ended = ended_by(self.first, self.later.as_slice(), moment);
        self.first = self.later.pop_past(ended.later);
        self.firings -= ended.firings;
        self.total = self.total.wrapping_sub(ended.total);
        ended.firings
    }

    /// The sum of the times from a moment to the ends, in 64 bits. Cost: constant.
    pub(crate) fn time_left(&self, moment: u64) -> u64
        requires { (k : ℕ) → k < length self.now → moment ≤ slice_index self.now k }
        ensures { result ≡ sum (map (λ end. end - moment) self.now) % 2 ^ 64 }
    {
        self.total.wrapping_sub(moment.wrapping_mul(self.firings))
    }
}

/// Adds firings that end together after all others: to the last run, where it has the same end.
fn add_behind(first: &mut Run, later: &mut Queue, end: u64, firings: u64) -> Result<(), AllocError>
    requires some { 0 < firings }
    requires few { length (ends_of (first.old ∷ later.old)) + firings < 2 ^ 64 }
    requires runs { AreRuns (first.old ∷ later.old) }
    ensures ok { OnOk result (ends_of (first.new ∷ later.new) ≡ ends_of (first.old ∷ later.old) ++ replicate firings end) }
    ensures runs { AreRuns (first.new ∷ later.new) }
    ensures err { OnErr result ((first.new ≡ first.old) × (later.new ≡ later.old)) }
{
    if later.as_slice().is_empty() && first.end == end {
        first.firings += firings;
        return Ok(());
    }
    later.add(end, firings)?;
    Ok(())
}

/// A first run and those of the later ones that ended too.
#[derive(Clone, Copy, Debug)]
struct Ended {
    /// How many of the later runs ended.
    later: usize,
    firings: u64,
    /// The sum of the firings' ends, in 64 bits.
    total: u64,
}

/// The runs before the first one that ends after a moment, where the first of all ends by then.
fn ended_by(first: Run, later: &[Run], moment: u64) -> Ended
    requires first { first.end ≤ moment }
    requires few { length (ends_of (first ∷ later.now)) < 2 ^ 64 }
    ensures within { result.later ≤ length later.now }
    ensures past { All (λ (end : ℕ). end ≤ moment) (ends_of (first ∷ take result.later later.now)) }
    ensures next { result.later < length later.now → moment < (run_at later.now result.later).end }
    ensures firings { result.firings ≡ length (ends_of (first ∷ take result.later later.now)) }
    ensures total { result.total ≡ sum (ends_of (first ∷ take result.later later.now)) % 2 ^ 64 }
{
    let mut firings = first.firings;
    let mut total = first.end.wrapping_mul(first.firings);
    for (k, run) in later.iter().enumerate() {
        if run.end > moment {
            return Ended {
                later: k,
                firings,
                total,
            };
        }
        firings += run.firings;
        total = total.wrapping_add(run.end.wrapping_mul(run.firings));
    }
    Ended {
        later: later.len(),
        firings,
        total,
    }
}
