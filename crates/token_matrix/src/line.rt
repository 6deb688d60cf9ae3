//! The tokens on a channel, in the order in which they are taken.
ghost use Rattle.std.specs.Prelude.{◌≡◌, ◌≤◌, ◌<◌, ◌-◌, ◌++◌, [], IfOk, OnOk, length, take, drop, replicate};
ghost use Rattle.token_matrix.specs.inside.LaterRows.{AreWide, IsRaised};

use crate::batch::Batch;
use crate::entries::{Entry, raise};
use sd_base::{NoMemory, Rows};
use std::alloc::Global;
use std::collections::VecDeque;
use std::marker::Model;
use std::rc::Rc;

/// The tokens on a channel, batch by batch; contracts see the row of each token in order. It keeps the rows of those
/// alone that are still there.
#[derive(Debug, Drop)]
pub(crate) struct Line {
    batches: VecDeque<Batch>,
}

impl Model for Line {
    ghost use Rattle.std.specs.Prelude.{ℕ, List, Option};
    ghost use Rattle.token_matrix.specs.inside.Batches.{rows_of};

    ghost Value = { List (List (Option ℕ)) };

    ghost view = { λ l. rows_of l.batches.items };
}

impl Line {
    /// A channel without tokens.
    pub(crate) fn new(alloc: Global) -> Line
        ensures { result ≡ [] }
    {
        Line {
            batches: VecDeque::new(alloc),
        }
    }

    /// Puts tokens that have one row.
    pub(crate) fn put(&mut self, row: Rc<Rows<Entry>>, tokens: u64) -> Result<(), NoMemory>
        ensures { OnOk result (self.new ≡ self.old ++ replicate tokens row.value) }
    {
        if tokens > 0 {
            self.batches.push_back(Batch { row, tokens })?;
        }
        Ok(())
    }

    /// Takes tokens, and raises a row to theirs. Cost: linear in the batches of which tokens are taken, times the
    /// width of the rows.
    pub(crate) fn take(&mut self, tokens: u64, row: &mut [Entry]) -> Result<(), NoMemory>
        requires enough { tokens ≤ length self.old }
        requires wide { AreWide (length row.old) self.old }
        ensures left { OnOk result (self.new ≡ drop tokens self.old) }
        ensures raised { OnOk result (IsRaised (take tokens self.old) row.old row.new) }
    {
        let mut left = tokens;
        'batches: while left > 0 {
            left = self.take_some(left, row)?;
        }
        Ok(())
    }

    /// Takes tokens of the first batch, at most so many, and tells how many are still to be taken.
    fn take_some(&mut self, tokens: u64, row: &mut [Entry]) -> Result<u64, NoMemory>
        requires some { 1 ≤ tokens }
        requires enough { tokens ≤ length self.old }
        requires wide { AreWide (length row.old) self.old }
        ensures fewer { IfOk result (λ left. left < tokens) }
        ensures left { IfOk result (λ left. self.new ≡ drop (tokens - left) self.old) }
        ensures raised { IfOk result (λ left. IsRaised (take (tokens - left) self.old) row.old row.new) }
    {
        match self.batches.pop_front() {
            None => unreachable!(),
            Some(batch) => {
                raise(row, batch.row.as_ref().as_slice());
                if batch.tokens <= tokens {
                    return Ok(tokens - batch.tokens);
                }
                self.put_back(batch, tokens)?;
                Ok(0)
            },
        }
    }

    /// Puts a batch back at the front without the tokens that were taken of it.
    fn put_back(&mut self, batch: Batch, taken: u64) -> Result<(), NoMemory>
        requires { taken < batch.tokens }
        ensures { OnOk result (self.new ≡ replicate (batch.tokens - taken) batch.row.value ++ self.old) }
    {
        let Batch { row, tokens } = batch;
        let tokens = tokens - taken;
        self.batches.push_front(Batch { row, tokens })?;
        Ok(())
    }

    /// Adds the row of each token, in order.
    pub(crate) fn spell(&self, alloc: Global, rows: &mut Rows<Rows<Entry>>) -> Result<(), NoMemory>
        ensures { OnOk result (rows.new ≡ rows.old ++ self.now) }
    {
        for place in 0..self.batches.len() {
            self.batches[place].spell(alloc, rows)?;
        }
        Ok(())
    }
}
