ghost use Rattle.std.specs.Prelude.{◌≡◌, ◌⊎◌, ℕ, List};
ghost use Rattle.file_text.specs.Node.{Node};
ghost use Rattle.file_text.specs.Grammar.{IsText};
ghost use Rattle.file_text.specs.Fault.{FirstFault};
ghost use Rattle.file_text.specs.declared.error.TextError.{TextError};

/// Each text has a tree or a first fault, one alone, and never both.
pub fn answers_are_one()
    ensures some { (bytes : List ℕ) → ((e : Node) × IsText e bytes) ⊎ ((f : TextError) × FirstFault bytes f) }
    ensures one_tree { (bytes : List ℕ) (d e : Node) → IsText d bytes → IsText e bytes → d ≡ e }
    ensures one_fault { (bytes : List ℕ) (f g : TextError) → FirstFault bytes f → FirstFault bytes g → f ≡ g }
    ensures not_both { (bytes : List ℕ) (e : Node) (f : TextError) → IsText e bytes → FirstFault bytes f → ⊥ }
{}
