ghost use Rattle.std.specs.Prelude.{◌≡◌, [], IfErr, IfOk, Ok, OnOk};
ghost use Rattle.cert_text.specs.declared.reading.fault.Fault.TheVariants.{Large, Memory};
ghost use Rattle.cert_text.specs.Collected.{collected, one_more};

use crate::reading::fault::Fault;
use sd_base::Rows;
use std::alloc::Global;

/// Values that are read in turn; where one passes its limit, there is no list of them.
#[derive(Drop)]
pub(crate) struct Collected<T> {
    pub(crate) items: Vec<T>,
    pub(crate) is_large: bool,
}

impl<T: Drop> Collected<T> {
    /// None yet, with room for so many. Lines are many and short, so that room which grows would be most of what they take.
    pub(crate) fn with_room(alloc: Global, room: usize) -> Result<Collected<T>, Fault>
        ensures none { IfOk result (λ c. collected c.items.items c.is_large ≡ Ok []) }
        ensures memory { IfErr result (λ e. e ≡ Memory) }
    {
        Ok(Collected {
            items: Vec::with_capacity(alloc, room)?,
            is_large: false,
        })
    }

    /// Takes the next value, or notes that it passes its limit.
    pub(crate) fn push(&mut self, value: Result<T, Fault>) -> Result<(), Fault>
        requires { IfErr value (λ e. e ≡ Large) }
        ensures exact { OnOk result (collected self.new.items.items self.new.is_large ≡ one_more (collected self.old.items.items self.old.is_large) value) }
        ensures memory { IfErr result (λ e. e ≡ Memory) }
    {
        match value {
            Ok(item) => self.items.push(item)?,
            Err(_) => self.is_large = true,
        }
        Ok(())
    }

    pub(crate) fn rows(self) -> Result<Rows<T>, Fault>
        ensures { result ≡ collected self.items.items self.is_large }
    {
        let Collected { items, is_large } = self;
        if is_large {
            return Err(Fault::Large);
        }
        Ok(Rows::from_vec(items))
    }
}
