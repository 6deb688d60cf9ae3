ghost use Rattle.std.specs.Prelude.{◌≡◌, ℕ, List, [], ◌∷◌, ◌++◌, OnOk};

use sd_base::NoMemory;

/// Takes note of firings one after another. Contracts see which lists of firings may have been noted.
pub(crate) trait Note {
    ghost holds: { Self → List ℕ → Type 0 };

    /// Takes note of one more firing.
    fn fired(&mut self, actor: u32) -> Result<(), NoMemory>
        ensures { OnOk result ((order : List ℕ) → holds self.old order → holds self.new (order ++ actor ∷ [])) };
}

/// The order of the firings.
impl Note for Vec<u32> {
    ghost holds = { λ v order. v.items ≡ order };

    fn fired(&mut self, actor: u32) -> Result<(), NoMemory> {
        self.push(actor)?;
        Ok(())
    }
}

/// Keeps nothing.
#[derive(Clone, Copy, Debug)]
pub(crate) struct NoNote;

impl Note for NoNote {
    ghost holds = { λ n order. order ≡ order };

    fn fired(&mut self, _actor: u32) -> Result<(), NoMemory> {
        Ok(())
    }
}
