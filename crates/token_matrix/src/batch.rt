//! Tokens that have one row.
ghost use Rattle.std.specs.Prelude.{◌≡◌, ◌≤◌, ◌++◌, OnOk, replicate};

use crate::entries::{Entry, copied};
use sd_base::{NoMemory, Rows};
use std::alloc::Global;
use std::rc::Rc;

/// Tokens that one firing has put on a channel, or one that was there before the round: one row for all, which the
/// firing's tokens on other channels share.
#[derive(Debug, Drop)]
pub(crate) struct Batch {
    pub(crate) row: Rc<Rows<Entry>>,
    pub(crate) tokens: u64,
    ghost some: { 1 ≤ tokens },
}

impl Batch {
    /// Adds the row once for each token.
    pub(crate) fn spell(&self, alloc: Global, rows: &mut Rows<Rows<Entry>>) -> Result<(), NoMemory>
        ensures { OnOk result (rows.new ≡ rows.old ++ replicate self.now.tokens self.now.row.value) }
    {
        for _ in 0..self.tokens {
            rows.push(copied(alloc, self.row.as_ref().as_slice())?)?;
        }
        Ok(())
    }
}
