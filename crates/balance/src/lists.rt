ghost use Rattle.std.specs.Prelude.{◌≡◌, ◌<◌, [], IfOk, OnOk, length, replicate};
ghost use Rattle.balance.specs.inside.Lists.{appended, list_at};

use sd_base::Rows;
use std::alloc::{AllocError, Global};

/// A list of numbers for each actor.
#[derive(Drop)]
pub(crate) struct Lists {
    rows: Vec<Rows<u32>>,
}

impl Lists {
    /// As many empty lists.
    pub fn new(alloc: Global, actors: usize) -> Result<Lists, AllocError>
        ensures { IfOk result (λ lists. lists.rows.items ≡ replicate actors []) }
    {
        let mut rows = Vec::new(alloc);
        for _actor in 0..actors {
            rows.push(Rows::new(alloc))?;
        }
        Ok(Lists { rows })
    }

    /// Puts a number at the end of an actor's list.
    pub fn add(&mut self, actor: usize, number: u32) -> Result<(), AllocError>
        requires { actor < length self.old.rows.items }
        ensures { OnOk result (self.new.rows.items ≡ appended self.old.rows.items actor number) }
    {
        self.rows[actor].push(number)?;
        Ok(())
    }

    /// An actor's list.
    pub fn at(&self, actor: usize) -> &[u32]
        requires { actor < length self.now.rows.items }
        ensures { result.now ≡ list_at self.now.rows.items actor }
    {
        self.rows[actor].as_slice()
    }
}
