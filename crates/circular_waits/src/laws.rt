//! Laws of circular waits, each on a function that does nothing.
ghost use Rattle.std.specs.Prelude.{◌≡◌, ℕ, ◌≤◌, ◌<◌, Option, Some, List, length};
ghost use Rattle.sd_base.specs.Net.{Net};
ghost use Rattle.sd_base.specs.Schedules.{Schedule, count_of, Admissible};
ghost use Rattle.sd_base.specs.Lawful.{Lawful};
ghost use Rattle.sd_base.specs.Rates.{Rate};
ghost use Rattle.storage.specs.Distributions.{capacity_at};
ghost use Rattle.storage.specs.BoundedNets.{bound};
ghost use Rattle.circular_waits.specs.CircularWaits.{IsCircularWait, WaitsForSpace, waiting_at};

/// Circular waits stop all: no actor on one ever fires again, so the rate of the net is 0. That of a bounded net stands
/// in the net of each distribution that has no more room on the channels whose free space is on it, whatever the others have.
pub fn circular_waits_stop_all()
    ensures firings { (net : Net) (v : ℕ → ℕ) (channels : List ℕ) (s : Schedule) (j : ℕ) → Lawful net → IsCircularWait net v channels →
        Admissible net s → j < length channels → count_of s (waiting_at net channels j) ≤ v (waiting_at net channels j) }
    ensures rate { (net : Net) (v : ℕ → ℕ) (channels : List ℕ) (x y : ℕ) → Lawful net → IsCircularWait net v channels → Rate net x y → x ≡ 0 }
    ensures roomless { (net : Net) (ds es : List (Option ℕ)) (v : ℕ → ℕ) (channels : List ℕ) (x y : ℕ) → Lawful (bound net es) →
        IsCircularWait (bound net ds) v channels →
        ((c k : ℕ) → WaitsForSpace (bound net ds) channels c → capacity_at ds c ≡ Some k → (n : ℕ) × (capacity_at es c ≡ Some n) × (n ≤ k)) →
        Rate (bound net es) x y → x ≡ 0 }
{}
