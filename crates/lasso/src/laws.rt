//! Laws of the endings of `run_loop`, each on a function that does nothing.
ghost use Rattle.std.specs.Prelude.{◌≡◌, ℕ, ◌+◌, ◌≤◌, ◌↔◌};
ghost use Rattle.sd_base.specs.declared.limits.TheConstants.{STARTS};
ghost use Rattle.sd_base.specs.Net.{Net};
ghost use Rattle.sd_base.specs.Schedules.{HasInputs};
ghost use Rattle.sd_base.specs.SelfTimed.{events_by, starts_by};
ghost use Rattle.sd_base.specs.Untimed.{IsLive};
ghost use Rattle.sd_base.specs.Connection.{IsStronglyConnected};
ghost use Rattle.sd_base.specs.Lawful.{Lawful};
ghost use Rattle.sd_base.specs.Rates.{IsLoop};
ghost use Rattle.firing.specs.declared.table.LoopTable.{LoopTable};
ghost use Rattle.loops.specs.LoopAnswers.{IsFound, IsStatesSpent, IsTooManyStarts, PassesStarts};

/// At most one ending fits a net and a number of shapes, and a net has one loop with one table. A loop
/// within the shapes and starts that are allowed leaves no refusal.
pub fn one_ending()
    ensures table { (net : Net) (states others : ℕ) (table other : LoopTable) → Lawful net → HasInputs net →
        IsFound net states table → IsFound net others other → table ≡ other }
    ensures found_or_spent { (net : Net) (states : ℕ) (table : LoopTable) → Lawful net → HasInputs net → IsFound net states table → ¬ IsStatesSpent net states }
    ensures found_or_many { (net : Net) (states : ℕ) (table : LoopTable) → Lawful net → HasInputs net → IsFound net states table → ¬ IsTooManyStarts net states }
    ensures spent_or_many { (net : Net) (states : ℕ) → Lawful net → HasInputs net → IsStatesSpent net states → ¬ IsTooManyStarts net states }
    ensures not_spent { (net : Net) (states entry period : ℕ) → Lawful net → HasInputs net → IsLoop net entry period →
        events_by net (entry + period) ≤ states → ¬ IsStatesSpent net states }
    ensures not_many { (net : Net) (states entry period : ℕ) → Lawful net → HasInputs net → IsLoop net entry period →
        starts_by net (entry + period) ≤ STARTS → ¬ IsTooManyStarts net states }
{}

/// The answer of too many starts comes exactly where more than `STARTS` firings start by the moment at which a shape comes
/// again, or by the last of the first `states` shapes where none of these does.
pub fn starts_are_counted_to_the_first_repeat()
    ensures { (net : Net) (states : ℕ) → Lawful net → HasInputs net → IsLive net → 1 ≤ states →
        IsTooManyStarts net states ↔ PassesStarts net states }
{}

/// Self-timed execution of a live net in which each actor leads to each comes to a loop, so with enough shapes and starts
/// `run_loop` finds it (Ghamarian et al. 2006).
pub fn live_nets_have_loops()
    ensures { (net : Net) → Lawful net → HasInputs net → IsStronglyConnected net → IsLive net → (entry : ℕ) × (period : ℕ) × IsLoop net entry period }
{}
