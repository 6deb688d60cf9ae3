ghost use Rattle.std.specs.Prelude.{◌≡◌, ◌↔◌, ℕ, ◌+◌, ◌-◌, ◌^◌, ◌<◌, ◌≤◌, [], ◌∷◌, ◌++◌, IsTrue, OnErr, OnOk, drop, length, replicate, set, take};
ghost use Rattle.selftimed.specs.declared.queue.Run.{Run};
ghost use Rattle.selftimed.specs.inside.Runs.{no_run, run_at, ends_of, AreRuns, EndsLastAt, grown, more_of};

use smallvec::SmallVec;
use std::alloc::{AllocError, Global};
use std::marker::Model;

/// Firings that end together.
#[derive(Clone, Copy, Debug, Default)]
pub(crate) struct Run {
    /// The moment at which they end.
    pub(crate) end: u64,
    /// How many they are.
    pub(crate) firings: u64,
}

/// A queue of runs. Contracts see the list of them. A few runs need no allocation.
#[derive(Debug, Drop)]
pub(crate) struct Queue {
    runs: SmallVec<Run, 2>,
    /// The runs before this place are past.
    head: usize,
}

impl Model for Queue {
    ghost use Rattle.std.specs.Prelude.{List};
    ghost use Rattle.selftimed.specs.declared.queue.Run.{Run};

    ghost Value = { List Run };

    ghost use Rattle.selftimed.specs.inside.Queues.{still_to_come, IsQueue};

    ghost view = { still_to_come };

    ghost invariant = { IsQueue };
}

impl Queue {
    pub(crate) fn new(alloc: Global) -> Queue
        ensures { result ≡ [] }
    {
        Queue {
            runs: SmallVec::new(alloc),
            head: 0,
        }
    }

    pub(crate) fn as_slice(&self) -> &[Run]
        ensures { result.now ≡ self.now }
    {
        &self.runs.as_slice()[self.head..]
    }

    /// Adds firings that end together after all others: to the last run, where it has the same end.
    pub(crate) fn add(&mut self, end: u64, firings: u64) -> Result<(), AllocError>
        requires some { 0 < firings }
        requires few { length (ends_of self.old) + firings < 2 ^ 64 }
        requires runs { AreRuns self.old }
        ensures ok { OnOk result (ends_of self.new ≡ ends_of self.old ++ replicate firings end) }
        ensures runs { AreRuns self.new }
        ensures err { OnErr result (self.new ≡ self.old) }
    {
        if ends_last_at(self.as_slice(), end) {
            self.grow_last(firings);
            return Ok(());
        }
        self.push(Run { end, firings })?;
        Ok(())
    }

    fn push(&mut self, run: Run) -> Result<(), AllocError>
        ensures ok { OnOk result (self.new ≡ self.old ++ run ∷ []) }
        ensures err { OnErr result (self.new ≡ self.old) }
    {
        self.runs.push(run)?;
        Ok(())
    }

    /// Adds firings to the last run.
    fn grow_last(&mut self, firings: u64)
        requires some { 0 < length self.old }
        requires few { (run_at self.old (length self.old - 1)).firings + firings < 2 ^ 64 }
        ensures { self.new ≡ grown self.old firings }
    {
        let last = self.runs.len() - 1;
        grow(self.runs.as_mut_slice(), last, firings);
    }

    /// Takes off the first runs and the one after them, which it gives: one without firings, if there is none. Cost: in
    /// all linear in the runs that were added.
    pub(crate) fn pop_past(&mut self, count: usize) -> Run
        requires { count ≤ length self.old }
        ensures next { count < length self.old → result ∷ self.new ≡ drop count self.old }
        ensures none { length self.old ≤ count → (result ≡ no_run) × (self.new ≡ []) }
    {
        let left = self.as_slice();
        if count >= left.len() {
            self.pop_front(count);
            return Run { end: 0, firings: 0 };
        }
        let next = left[count];
        self.pop_front(count + 1);
        next
    }

    /// Takes off the first runs.
    fn pop_front(&mut self, count: usize)
        requires { count ≤ length self.old }
        ensures { self.new ≡ drop count self.old }
    {
        let all = self.runs.len();
        self.head += count;
        let left = all - self.head;
        if left < self.head {
            shift_down(self.runs.as_mut_slice(), self.head);
            self.runs.truncate(left);
            self.head = 0;
        }
    }
}

/// Whether there are runs, and the last one ends at a moment.
fn ends_last_at(runs: &[Run], moment: u64) -> bool
    ensures { IsTrue result ↔ EndsLastAt runs.now moment }
{
    match runs.len() {
        0 => false,
        count => runs[count - 1].end == moment,
    }
}

/// Adds firings to the run at a place.
fn grow(runs: &mut [Run], place: usize, firings: u64)
    requires place { place < length runs.old }
    requires few { (run_at runs.old place).firings + firings < 2 ^ 64 }
    ensures { runs.new ≡ set runs.old place (more_of (run_at runs.old place) firings) }
{
    runs[place].firings += firings;
}

/// Moves what stands from a place on to the front.
fn shift_down(runs: &mut [Run], from: usize)
    requires { from ≤ length runs.old }
    ensures { take (length runs.old - from) runs.new ≡ drop from runs.old }
{
    for place in from..runs.len() {
        runs[place - from] = runs[place];
    }
}
