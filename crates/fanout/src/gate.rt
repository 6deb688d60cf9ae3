ghost use Rattle.std.specs.Prelude.{ℕ};

/// Is told of each job of a list just before that job runs, on the thread that runs it. What it does may make jobs
/// wait for each other, but not change them.
pub trait Gate {
    /// That it was told of job number `item` of the list with number `level`. Whoever knows no more of a gate than that it
    /// is one learns this by `enter` alone.
    ghost entered: { Self → ℕ → ℕ → Type 0 } = { λ _ _ _. Unit {0} };

    /// Job number `item` of the list with number `level` is about to run. Items are numbered from 0.
    fn enter(&self, level: u64, item: usize)
        ensures { entered self.now level item };
}

/// A gate that does nothing.
#[derive(Clone, Copy, Debug)]
pub struct OpenGate;

impl Gate for OpenGate {
    fn enter(&self, _level: u64, _item: usize) {}
}
