//! Laws of searches by levels, each on a function that does nothing.
ghost use Rattle.std.specs.Prelude.{◌≡◌, ◌+◌, ◌≤◌, ◌↔◌, ℕ, [], Contains, List, Option};
ghost use Rattle.sd_base.specs.Net.{Channel};
ghost use Rattle.levels.specs.declared.levels.Levels.{Levels as SomeLevels};
ghost use Rattle.levels.specs.Visits.{AreVisits, IsComeTo, Visit, visited};
ghost use Rattle.levels.specs.Frontiers.{IsFrontier};

/// The visits of a search are exactly what is come to from its start within the limit: each once, by ascending storage.
pub fn visits_are_what_is_come_to()
    ensures { (cs : List Channel) (start : List (Option ℕ)) (limit : ℕ) (visits : List Visit) → AreVisits cs start limit visits →
        (ds : List (Option ℕ)) → Contains (visited visits) ds ↔ IsComeTo cs start limit visits ds }
{}

/// A search that is left after the level of some storage has made the visits of a search up to that storage.
pub fn levels_end_anywhere<H: Copy + Drop>()
    ensures { (cs : List Channel) (start : List (Option ℕ)) (storage : ℕ) (visits : List Visit) (levels : SomeLevels H) →
        IsFrontier cs start (storage + 1) visits [] levels → storage ≤ levels.bounds.total → AreVisits cs start storage visits }
{}
