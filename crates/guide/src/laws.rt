//! Laws of what holds a distribution back, each on a function that does nothing.
ghost use Rattle.std.specs.Prelude.{◌≡◌, Contains, ℕ, Option, List, ◌*◌, ◌≤◌, ◌<◌, length};
ghost use Rattle.firing.specs.declared.table.LoopTable.{LoopTable};
ghost use Rattle.critical.specs.declared.cycle.NeedCycle.{NeedCycle};
ghost use Rattle.critical.specs.Spaces.{IsSpaceAt};
ghost use Rattle.critical.specs.CriticalCycles.{IsCriticalCycleOf};
ghost use Rattle.sd_base.specs.Net.{Net};
ghost use Rattle.sd_base.specs.Lawful.{Lawful};
ghost use Rattle.sd_base.specs.Connection.{IsConnected};
ghost use Rattle.sd_base.specs.Rates.{IsLoop, Rate};
ghost use Rattle.sd_base.specs.Schedules.{HasInputs};
ghost use Rattle.sd_base.specs.Untimed.{Blocks, IsLive};
ghost use Rattle.firing.specs.Wiring.{IsWiringOf};
ghost use Rattle.firing.specs.declared.wiring.Wiring.{Wiring as Wires};
ghost use Rattle.liveness.specs.RoundAnswers.{AreReachedCounts};
ghost use Rattle.storage.specs.BoundedNets.{bound};
ghost use Rattle.storage.specs.ClosedLists.{AgreesOn};
ghost use Rattle.storage.specs.Distributions.{AtMost, IsDistribution, capacity_at};
ghost use Rattle.storage.specs.ShownSpaces.{ShowsSpace};
ghost use Rattle.guide.specs.declared.rating.Evaluation.{Evaluation};
ghost use Rattle.guide.specs.Covering.{CoversOn};
ghost use Rattle.guide.specs.Evaluations.{IsEvaluable, IsEvaluated};
ghost use Rattle.guide.specs.Guides.{IsDependency, IsInGuide};

/// The channels whose free space is on the critical cycle of a loop are storage dependencies; and so the channels on which
/// a distribution is to be enlarged are in its guide.
pub fn enlarged_channels_are_in_the_guide()
    ensures cycle { (net : Net) (table : LoopTable) (cycle : NeedCycle) (i c : ℕ) → IsCriticalCycleOf net table cycle → i < length cycle.steps → IsSpaceAt net cycle.steps i c →
        IsDependency net table.entry table.period c }
    ensures guide { (net : Net) (ds : List (Option ℕ)) (states : ℕ) (e : Evaluation) (c : ℕ) → IsEvaluated net ds states e → Contains e.enlarge c → IsInGuide net ds c }
{}

/// Ending counts rise with room: counts that some order of firings reaches in a bounded net are reached in each with no
/// less room too; and so a net with no less room than a live one is live.
pub fn counts_are_reached_with_more_room()
    ensures reached { (net : Net) (ds es : List (Option ℕ)) (counts : List ℕ) → AtMost ds es → AreReachedCounts (bound net ds) counts → AreReachedCounts (bound net es) counts }
    ensures live { (net : Net) (ds es : List (Option ℕ)) → AtMost ds es → IsLive (bound net ds) → IsLive (bound net es) }
{}

/// The nets that distributions bound differ in tokens alone, so the wiring of one is that of each.
pub fn distributions_share_a_wiring()
    ensures { (net : Net) (ds es : List (Option ℕ)) (wiring : Wires) → IsDistribution net.channels ds → IsDistribution net.channels es →
        IsWiringOf (bound net ds) wiring → IsWiringOf (bound net es) wiring }
{}

/// Room elsewhere than in its guide gains a distribution nothing, however long its loop is and whether it is evaluated or not:
/// another one with the same capacities on the storage dependencies of its loop has no greater rate, and where counts at
/// which it is blocked show channels, one that gives just these the same capacities has rate 0 (Stuijk, Geilen and Basten 2008).
pub fn room_elsewhere_gains_nothing()
    ensures dependencies { (net : Net) (ds es : List (Option ℕ)) (entry period p q x y : ℕ) → Lawful (bound net ds) → HasInputs (bound net ds) → IsConnected net →
        IsLoop (bound net ds) entry period → ((c : ℕ) → IsDependency (bound net ds) entry period c → capacity_at es c ≡ capacity_at ds c) →
        Rate (bound net ds) p q → Rate (bound net es) x y → x * q ≤ p * y }
    ensures blocked { (net : Net) (ds es : List (Option ℕ)) (v : ℕ → ℕ) (x y : ℕ) → Lawful (bound net es) → Blocks (bound net ds) v →
        ((c : ℕ) → ShowsSpace net ds v c → capacity_at es c ≡ capacity_at ds c) → Rate (bound net es) x y → x ≡ 0 }
{}

/// A distribution that can be evaluated has a rate, whether its loop is found or not; and where it is live, a loop (Ghamarian et
/// al. 2006).
pub fn distributions_have_rates()
    ensures rate { (net : Net) (ds : List (Option ℕ)) → Lawful net → IsEvaluable net ds → (p : ℕ) × (q : ℕ) × Rate (bound net ds) p q }
    ensures closes { (net : Net) (ds : List (Option ℕ)) → Lawful net → IsEvaluable net ds → IsLive (bound net ds) →
        (entry : ℕ) × (period : ℕ) × IsLoop (bound net ds) entry period }
{}

/// The rate of a distribution that was evaluated bounds that of each with no more room on the channels on which more room could
/// raise it, whatever room it has elsewhere: need cycles hold with more room elsewhere, and rates rise with capacities.
pub fn evaluations_bound_what_they_cover()
    ensures { (net : Net) (ds es : List (Option ℕ)) (states : ℕ) (e : Evaluation) (x y : ℕ) → Lawful net → IsEvaluable net ds → IsEvaluable net es →
        IsEvaluated net ds states e → CoversOn e.enlarge ds es → Rate (bound net es) x y → x * e.rate.den ≤ e.rate.num * y }
{}

/// What an evaluation shows holds back, too, each distribution that has no less room anywhere and just as much on the channels
/// that it shows: these have the same rate, and the channels are in its guide.
pub fn evaluations_guide_what_they_tell()
    ensures guide { (net : Net) (ds es : List (Option ℕ)) (states : ℕ) (e : Evaluation) (c : ℕ) → Lawful net → IsEvaluable net es → IsEvaluated net ds states e →
        AtMost ds es → AgreesOn e.enlarge ds es → Contains e.enlarge c → IsInGuide net es c }
    ensures rate { (net : Net) (ds es : List (Option ℕ)) (states : ℕ) (e : Evaluation) (x y : ℕ) → Lawful net → IsEvaluable net es → IsEvaluated net ds states e →
        AtMost ds es → AgreesOn e.enlarge ds es → Rate (bound net es) x y → x * e.rate.den ≡ e.rate.num * y }
{}
