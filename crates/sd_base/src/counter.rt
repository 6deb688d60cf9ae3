ghost use Rattle.std.specs.Prelude.{◌≡◌, ◌+◌, true, false};

mod number;

use number::Number;
use std::marker::Model;

/// A kind of step, by whose name counters are told apart.
pub trait Ledger {}

/// A count of steps. It is exact and has no greatest number, since only contracts see it: it takes no
/// memory. A counter can't be dropped: it ends in `finish`, or in `absorb` where it is a share.
pub struct Steps<L: Ledger> {
    ledger: Option<L>,
    counted: Number,
}

impl<L: Ledger> Model for Steps<L> {
    ghost use Rattle.std.specs.Prelude.{is_none};
    ghost use Rattle.sd_base.specs.Counter.{Tally};

    ghost Value = { Tally };

    ghost view = { λ s. record { count = s.counted.value; share = is_none s.ledger } };
}

impl<L: Ledger> Steps<L> {
    /// A counter that has counted nothing, over the ledger that `finish` gives back.
    pub fn new(ledger: L) -> Steps<L>
        ensures count { result.count ≡ 0 }
        ensures share { result.share ≡ false }
    {
        Steps {
            ledger: Some(ledger),
            counted: Number::zero(),
        }
    }

    /// Counts one step more.
    pub fn tick(&mut self)
        ensures count { self.new.count ≡ self.old.count + 1 }
        ensures share { self.new.share ≡ self.old.share }
    {
        self.counted = self.counted.next();
    }

    /// A share that has counted nothing, to count elsewhere for this counter; `absorb` takes it back.
    pub fn share(&mut self) -> Steps<L>
        ensures stays { self.new ≡ self.old }
        ensures count { result.count ≡ 0 }
        ensures share { result.share ≡ true }
    {
        Steps {
            ledger: None,
            counted: Number::zero(),
        }
    }

    /// Adds what a share has counted, and spends the share.
    pub fn absorb(&mut self, share: Steps<L>)
        requires { share.share ≡ true }
        ensures count { self.new.count ≡ self.old.count + share.count }
        ensures share { self.new.share ≡ self.old.share }
    {
        let Steps { ledger, counted } = share;
        match ledger {
            None => self.counted = self.counted.plus(&counted),
            Some(_) => unreachable!(),
        }
    }

    /// Spends a counter that isn't a share, and gives back the ledger that `new` took.
    pub fn finish(self) -> L
        requires { self.share ≡ false }
    {
        let Steps { ledger, counted: _ } = self;
        match ledger {
            Some(ledger) => ledger,
            None => unreachable!(),
        }
    }
}
