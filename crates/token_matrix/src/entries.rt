//! Rows of entries: the later of two, and one that comes some time later.
ghost use Rattle.std.specs.Prelude.{◌≡◌, ◌≤◌, ◌<◌, ◌+◌, ◌*◌, ◌^◌, IfOk, MatchOption, Some, None, length, replicate};
ghost use Rattle.std.specs.Option.{option_map};
ghost use Rattle.sd_base.specs.declared.limits.TheConstants.{TIME, ROUND};
ghost use Rattle.token_matrix.specs.inside.LaterRows.{later, later_row, shifted, AreWithin, IsUnit};

use sd_base::{NoMemory, Rows};
use std::alloc::Global;
use std::marker::Model;

/// A place of a row of a matrix: an entry, in time units, or none. It takes one word, and of two places the later has
/// the greater word. Contracts see it as an option.
#[derive(Clone, Copy, Debug)]
pub struct Entry {
    /// One more than the entry; 0 where there is none.
    word: u64,
}

impl Model for Entry {
    ghost use Rattle.std.specs.Prelude.{ℕ, Option};

    ghost Value = { Option ℕ };

    ghost use Rattle.token_matrix.specs.Words.{entry_of, word_of, same_word};

    ghost view = { λ e. entry_of e.word };

    ghost inverse = { λ o. record { word = word_of o } };

    ghost inverse_ok = { λ e h. same_word e };
}

impl Entry {
    /// No entry.
    pub fn none() -> Entry
        ensures { result ≡ None }
    {
        Entry { word: 0 }
    }

    /// An entry, in time units. The greatest `u64` has no word; no entry of a scenario's matrix comes near it.
    pub fn new(entry: u64) -> Entry
        requires { entry + 1 < 2 ^ 64 }
        ensures { result ≡ Some entry }
    {
        Entry { word: entry + 1 }
    }

    /// The entry, if there is one.
    pub fn get(self) -> Option<u64>
        ensures { result ≡ self }
    {
        if self.word == 0 {
            return None;
        }
        Some(self.word - 1)
    }

    /// The later of two.
    fn later(self, other: Entry) -> Entry
        ensures { result ≡ later self other }
    {
        Entry {
            word: self.word.max(other.word),
        }
    }

    /// The same so many time units later.
    fn after(self, time: u64) -> Entry
        requires time { time ≤ TIME }
        requires within { MatchOption self (Unit {0}) (λ e. e ≤ TIME * ROUND) }
        ensures { result ≡ option_map (λ e. e + time) self }
    {
        match self.get() {
            Some(entry) => Entry::new(entry + time),
            None => self,
        }
    }
}

/// Raises the entries of a row to those of another one that are greater.
pub(crate) fn raise(row: &mut [Entry], other: &[Entry])
    requires { length row.old ≡ length other.now }
    ensures { row.new ≡ later_row row.old other.now }
{
    for column in 0..row.len() {
        row[column] = row[column].later(other[column]);
    }
}

/// Makes each entry of a row so many time units later.
pub(crate) fn delay(row: &mut [Entry], time: u64)
    requires time { time ≤ TIME }
    requires within { AreWithin (TIME * ROUND) row.old }
    ensures { row.new ≡ shifted time row.old }
{
    for column in 0..row.len() {
        row[column] = row[column].after(time);
    }
}

/// The row of a shared token before a round: it waits for itself alone.
pub(crate) fn unit_row(alloc: Global, size: usize, column: usize) -> Result<Rows<Entry>, NoMemory>
    requires { column < size }
    ensures { IfOk result (IsUnit size column) }
{
    let mut row = vec![in alloc; Entry::none(); size]?;
    row[column] = Entry::new(0);
    Ok(Rows::from_vec(row))
}

/// A row that waits for nothing.
pub(crate) fn free_row(alloc: Global, size: usize) -> Result<Vec<Entry>, NoMemory>
    ensures { IfOk result (λ row. row.items ≡ replicate size None) }
{
    let row = vec![in alloc; Entry::none(); size]?;
    Ok(row)
}

/// A row with the same entries.
pub(crate) fn copied(alloc: Global, row: &[Entry]) -> Result<Rows<Entry>, NoMemory>
    ensures { IfOk result (λ list. list ≡ row.now) }
{
    let list = Vec::from_slice(alloc, row)?;
    Ok(Rows::from_vec(list))
}
