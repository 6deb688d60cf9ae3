//! Laws of the texts of certificates, each on a function that does nothing.
ghost use Rattle.std.specs.Prelude.{◌≡◌, ◌⊎◌, ℕ, List};
ghost use Rattle.cert_text.specs.declared.certificates.Certificate.{Certificate};
ghost use Rattle.cert_text.specs.Limits.{IsReadable, IsWithinLimits};
ghost use Rattle.cert_text.specs.Orderly.{IsOrderly};
ghost use Rattle.cert_text.specs.Reading.{IsCertText};
ghost use Rattle.cert_text.specs.Spellable.{IsSpellable};
ghost use Rattle.cert_text.specs.Spelling.{spelling};

/// Each spelling is read again: where a certificate is orderly, has a spelling and numbers within their limits, its spelling in
/// a version is a text of it in that version.
pub fn spellings_are_read()
    ensures { (bytes : List ℕ) (version : ℕ) (c : Certificate) → (version ≡ 1) ⊎ (version ≡ 2) → IsOrderly c → IsSpellable c →
        IsWithinLimits c → bytes ≡ spelling version c → IsCertText bytes version c }
{}

/// And nothing else is read: a text of a certificate in a version is its spelling in that version.
pub fn texts_are_spelled()
    ensures { (bytes : List ℕ) (version : ℕ) (c : Certificate) → IsCertText bytes version c →
        IsReadable version c × (bytes ≡ spelling version c) }
{}

/// A spelling is that of one certificate, in one version.
pub fn spellings_are_one()
    ensures { (v w : ℕ) (c d : Certificate) → IsReadable v c → IsReadable w d → spelling v c ≡ spelling w d → (v ≡ w) × (c ≡ d) }
{}
