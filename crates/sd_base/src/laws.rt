//! Laws of plain nets: what self-timed execution and untimed runs rest on, each on a function that does nothing.
ghost use Rattle.std.specs.Prelude.{◌≡◌, ℕ, ◌+◌, ◌≤◌, ◌<◌, ◌⊎◌, ◌↔◌, Bool, List, length, sum, slice_index};
ghost use Rattle.sd_base.specs.declared.limits.TheConstants.{FILE_BYTES, CERTIFICATE_BYTES, DEPTH, NAME_BYTES, ACTORS, CHANNELS, PORTS, PHASES, RATE, TOKENS, SIZE, TIME, RATIO, ROUND, STARTS, SCENARIOS, AUTOMATON_STATES, NODES, STAMPS, EDGES, ORDER_PAIRS, CERTIFICATE_NUMBER, NET_CHANNELS, NET_TOKENS, START, LEAST_STATES, STATES, USUAL_STATES, LEAST_DISTRIBUTIONS, DISTRIBUTIONS, USUAL_DISTRIBUTIONS, LEAST_ROUNDS, ROUNDS, STORAGE, CAPACITY};
ghost use Rattle.sd_base.specs.declared.tables.GraphFile.{GraphFile};
ghost use Rattle.sd_base.specs.declared.text.TheConstants.{SHORT_TEXT};
ghost use Rattle.sd_base.specs.Tables.{KeepsWideRules, IsTimed};
ghost use Rattle.sd_base.specs.FileNet.{net_of};
ghost use Rattle.sd_base.specs.Net.{Channel, Net, channel_at, IsRepetitionOf};
ghost use Rattle.sd_base.specs.Lawful.{Lawful};
ghost use Rattle.sd_base.specs.Schedules.{Schedule, HasInputs, LastNeed, IsNeed, Lacks, Admissible, AdmissibleByLast, Earliest, count_of, start_of, end_of};
ghost use Rattle.sd_base.specs.SelfTimed.{earliest};
ghost use Rattle.sd_base.specs.Untimed.{IsLive, Closed, Blocks, IsEnd};

/// The net of a graph file that keeps its rules, also with a free space for each channel, with its repetition vector, keeps
/// the laws of nets.
pub fn file_nets_are_lawful()
    ensures { (g : GraphFile) (gamma : List ℕ) (no_overlap : Bool) → KeepsWideRules g → IsTimed g → IsRepetitionOf g gamma →
        sum gamma ≤ ROUND → Lawful (net_of g gamma no_overlap) }
{}

/// Self-timed execution is one: there is exactly one earliest schedule of each moment where each actor
/// has an input, and no admissible schedule has a firing sooner than it (Ghamarian et al. 2006).
pub fn self_timed_is_earliest()
    ensures exists { (net : Net) (t : ℕ) → Lawful net → HasInputs net → Earliest net t (earliest net t) }
    ensures one { (net : Net) (t : ℕ) (s u : Schedule) → Earliest net t s → Earliest net t u → s ≡ u }
    ensures no_sooner { (net : Net) (s : Schedule) → Lawful net → HasInputs net → Admissible net s →
        (t a k : ℕ) → k < count_of s a → start_of s a k < t →
        (k < count_of (earliest net t) a) × (start_of (earliest net t) a k ≤ start_of s a k) }
{}

/// Both wordings of the need agree: the last needed firing decides whether a schedule is admissible, and
/// it is the one before the least number of firings with which there are tokens enough.
pub fn last_need_decides()
    ensures number { (c : Channel) (j m : ℕ) → LastNeed c j m ↔ IsNeed c j (m + 1) }
    ensures schedule { (net : Net) (s : Schedule) → Lawful net → Admissible net s ↔ AdmissibleByLast net s }
{}

/// Each firing of an earliest schedule that starts after moment 0 starts just when its last need on some
/// channel ends.
pub fn each_firing_has_a_tight_need()
    ensures { (net : Net) (t a k : ℕ) → Lawful net → HasInputs net →
        k < count_of (earliest net t) a → 0 < start_of (earliest net t) a k →
        (i : ℕ) × (m : ℕ) × (i < length net.channels) × ((channel_at net i).target ≡ a)
        × LastNeed (channel_at net i) k m × (m < count_of (earliest net t) (channel_at net i).source)
        × (end_of net (earliest net t) (channel_at net i).source m ≡ start_of (earliest net t) a k) }
{}

/// Where actors fire one after another, none more often than in a round, the counts at the end don't depend on the
/// order. They are the least counts at which no actor can go on.
pub fn ending_counts_are_one()
    ensures one { (net : Net) (v w : ℕ → ℕ) → Lawful net → IsEnd net v → IsEnd net w → (a : ℕ) → a < length net.times → v a ≡ w a }
    ensures least { (net : Net) (v w : ℕ → ℕ) → Lawful net → IsEnd net v → Closed net w → (a : ℕ) → a < length net.times → v a ≤ w a }
{}

/// Counts that block a net bound every admissible schedule, and a round can be completed exactly where
/// none do; else the ending counts block the net too.
pub fn blocking_counts_bound_each_schedule()
    ensures bound { (net : Net) (v : ℕ → ℕ) (s : Schedule) → Lawful net → Blocks net v → Admissible net s →
        (a : ℕ) → a < length net.times → v a < slice_index net.round a → count_of s a ≤ v a }
    ensures live { (net : Net) (v : ℕ → ℕ) → Lawful net → IsLive net → ¬ Blocks net v }
    ensures ends { (net : Net) → IsLive net ⊎ ((v : ℕ → ℕ) × IsEnd net v × Blocks net v) }
{}

/// Where a round can be completed, there are no counts of firings after which each actor lacks tokens.
pub fn live_nets_never_stop()
    ensures { (net : Net) (n : ℕ → ℕ) → Lawful net → IsLive net →
        ¬ ((a : ℕ) → a < length net.times → Lacks net n a (n a)) }
{}

/// Each limit as a number, so that a digit that is wrong where the limit is written is wrong here too.
pub fn limits_are_these_numbers()
    ensures file_bytes { FILE_BYTES ≡ 4194304 }
    ensures certificate_bytes { CERTIFICATE_BYTES ≡ 268435456 }
    ensures depth { DEPTH ≡ 32 }
    ensures name_bytes { NAME_BYTES ≡ 128 }
    ensures actors { ACTORS ≡ 128 }
    ensures channels { CHANNELS ≡ 256 }
    ensures ports { PORTS ≡ 1024 }
    ensures phases { PHASES ≡ 4096 }
    ensures rate { RATE ≡ 1000000 }
    ensures tokens { TOKENS ≡ 1000000 }
    ensures size { SIZE ≡ 1000000 }
    ensures time { TIME ≡ 1000000000 }
    ensures ratio { RATIO ≡ 100000 }
    ensures round { ROUND ≡ 100000 }
    ensures starts { STARTS ≡ 4000000 }
    ensures scenarios { SCENARIOS ≡ 64 }
    ensures automaton_states { AUTOMATON_STATES ≡ 256 }
    ensures nodes { NODES ≡ 1024 }
    ensures stamps { STAMPS ≡ 4000000 }
    ensures edges { EDGES ≡ 65536 }
    ensures order_pairs { ORDER_PAIRS ≡ 128 }
    ensures certificate_number { CERTIFICATE_NUMBER ≡ 18446744073709551615 }
    ensures net_channels { NET_CHANNELS ≡ 768 }
    ensures net_tokens { NET_TOKENS ≡ 2000000000 }
    ensures start { START ≡ 1267650600228229401496703205376 }
    ensures least_states { LEAST_STATES ≡ 1 }
    ensures states { STATES ≡ 200000 }
    ensures usual_states { USUAL_STATES ≡ 20000 }
    ensures least_distributions { LEAST_DISTRIBUTIONS ≡ 1 }
    ensures distributions { DISTRIBUTIONS ≡ 1000000 }
    ensures usual_distributions { USUAL_DISTRIBUTIONS ≡ 10000 }
    ensures least_rounds { LEAST_ROUNDS ≡ 1 }
    ensures rounds { ROUNDS ≡ 1000000 }
    ensures storage { STORAGE ≡ 1000000000 }
    ensures capacity { CAPACITY ≡ 1000000 }
    ensures short_text { SHORT_TEXT ≡ 16 }
{}
