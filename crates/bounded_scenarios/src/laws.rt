//! Laws of bounded files, each on a function that does nothing.
ghost use Rattle.std.specs.Prelude.{◌≤◌, ℕ, List, Option};
ghost use Rattle.std.specs.Int.{IsGcd};
ghost use Rattle.sd_base.specs.declared.tables.ScenarioFile.{ScenarioFile};
ghost use Rattle.storage.specs.Distributions.{AtMost, IsDistribution, storage_of};
ghost use Rattle.storage.specs.Steps.{IsCorner, rounded};
ghost use Rattle.bounded_scenarios.specs.SharedChannels.{shared_channels};
ghost use Rattle.bounded_scenarios.specs.StorageRates.{HasWorstRate};
ghost use Rattle.bounded_scenarios.specs.Boundings.{CanBeBounded, CanBeMeasured};
ghost use Rattle.bounded_scenarios.specs.ShownSpaces.{BlockedBounds, LiveBounds, SpacelessBounds};

/// Of a file that can be bounded within a limit of storage, the file bounded by each distribution within it gives matrices,
/// a timed graph and a worst rate: no limit on stamps and nodes is passed.
pub fn bounded_files_can_be_measured()
    ensures { (file : ScenarioFile) (total : ℕ) (ds : List (Option ℕ)) → CanBeBounded file total → IsDistribution (shared_channels file) ds →
        storage_of (shared_channels file) ds ≤ total → CanBeMeasured file ds }
{}

/// A distribution with a worst rate above 0 is, rounded down, at least the corner.
pub fn running_distributions_are_above_the_corner()
    ensures { (file : ScenarioFile) (total : ℕ) (corner : List (Option ℕ)) (ds : List (Option ℕ)) (p q : ℕ) → CanBeBounded file total → IsCorner (shared_channels file) corner →
        IsDistribution (shared_channels file) ds → storage_of (shared_channels file) ds ≤ total → HasWorstRate file ds p q → 1 ≤ p → AtMost corner (rounded (shared_channels file) ds) }
{}

/// Worst rates are in lowest terms, over a denominator of at least 1.
pub fn worst_rates_are_lowest()
    ensures { (file : ScenarioFile) (ds : List (Option ℕ)) (p q : ℕ) → HasWorstRate file ds p q → (1 ≤ q) × IsGcd p q 1 }
{}

/// What holds up the actors of a blocked scenario blocks each distribution that, rounded down, agrees on it and has no less
/// room elsewhere.
pub fn blocked_spaces_bound()
    ensures { BlockedBounds }
{}

/// The rate of a critical cycle bounds the worst rate of each distribution that, rounded down, agrees on the free space that
/// one way of each of its edges takes, and has no less room elsewhere: the ways are there too, and as long.
pub fn critical_spaces_bound()
    ensures { LiveBounds }
{}

/// Where no way of a critical cycle takes free space, its rate bounds the worst rate of every distribution within the limit:
/// these ways are there at each capacity.
pub fn spaceless_cycles_bound_all()
    ensures { SpacelessBounds }
{}
