// A number that only proofs see: it takes no bytes and has no end.
ghost use Rattle.std.specs.Prelude.{◌≡◌, ℕ, ◌+◌};
ghost use Rattle.std.specs.Borrow.{ftrue};

use std::marker::Model;

#[derive(Drop)]
pub(crate) struct Number {
    seal: (),
    pub ghost value: { ℕ },
}

impl Model for Number {
    ghost also_owns = { λ _. ftrue };
}

// It owns nothing, so it may go to another thread.
unsafe impl Send for Number {}

impl Number {
    pub(crate) fn zero() -> Number
        ensures { result.value ≡ 0 }
    {
        Number { seal: () }
    }

    pub(crate) fn next(&self) -> Number
        ensures { result.value ≡ self.now.value + 1 }
    {
        Number { seal: () }
    }

    pub(crate) fn plus(&self, other: &Number) -> Number
        ensures { result.value ≡ self.now.value + other.now.value }
    {
        Number { seal: () }
    }
}
