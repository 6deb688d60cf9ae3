//! Laws of storage, each on a function that does nothing.
ghost use Rattle.std.specs.Prelude.{◌≡◌, ◌↔◌, ℕ, ◌*◌, ◌≤◌, ◌<◌, All, Bool, None, Option, List, length};
ghost use Rattle.sd_base.specs.Net.{Net, channel_at};
ghost use Rattle.sd_base.specs.Lawful.{Lawful};
ghost use Rattle.sd_base.specs.Rates.{Rate};
ghost use Rattle.sd_base.specs.Untimed.{Blocks, IsLive};
ghost use Rattle.storage.specs.Distributions.{AtMost, CanHold, IsDistribution, capacity_at};
ghost use Rattle.storage.specs.BoundedNets.{HasNoSpaces, bound};
ghost use Rattle.storage.specs.Steps.{IsCorner, rounded};
ghost use Rattle.storage.specs.ShownSpaces.{ShowsSpace};
ghost use Rattle.storage.specs.ParetoPoints.{IsFront, Pair, Reaches};
ghost use Rattle.storage.specs.ClosedLists.{Entry, IsClosed, IsClosedUnrounded, IsCovered, IsFrontOver};
ghost use Rattle.sd_base.specs.Connection.{IsConnected, IsStronglyConnected};
ghost use Rattle.sd_base.specs.declared.limits.TheConstants.{CAPACITY, NET_CHANNELS, TOKENS};
ghost use Rattle.sd_base.specs.declared.tables.GraphFile.{GraphFile};
ghost use Rattle.sd_base.specs.Tables.{KeepsRules};
ghost use Rattle.sd_base.specs.FileNet.{net_of};
ghost use Rattle.storage.specs.NamedBuffers.{Buffer, capacities_of, first_fault};
ghost use Rattle.sd_base.specs.Schedules.{HasInputs};
ghost use Rattle.storage.specs.RoomElsewhere.{CyclesBoundRoomierNets, CyclesHoldWithMoreRoom};
ghost use Rattle.storage.specs.IncidentActors.{AreIncident, IsIncident};

use critical::laws::cycles_bound_the_rate;

/// A net bounded by capacities that it can hold keeps the laws of nets.
pub fn bounded_nets_are_lawful()
    ensures { (net : Net) (ds : List (Option ℕ)) → Lawful net → HasNoSpaces net → CanHold net.channels ds →
        length (bound net ds).channels ≤ NET_CHANNELS → Lawful (bound net ds) }
{}

/// With no less room a net has no lesser rate.
pub fn rates_rise_with_capacities()
    ensures { (net : Net) (ds es : List (Option ℕ)) (p q x y : ℕ) → Lawful net → AtMost ds es → Rate (bound net ds) p q → Rate (bound net es) x y →
        p * y ≤ x * q }
{}

/// A distribution rounded down to whole steps has the same rate and, if it is live, is at least the corner.
pub fn rounding_keeps_the_rate()
    ensures rate { (net : Net) (ds : List (Option ℕ)) (p q : ℕ) → Lawful net → Rate (bound net ds) p q ↔ Rate (bound net (rounded net.channels ds)) p q }
    ensures corner { (net : Net) (ds corner : List (Option ℕ)) → Lawful net → IsDistribution net.channels ds → IsLive (bound net ds) → IsCorner net.channels corner →
        AtMost corner (rounded net.channels ds) × AtMost (rounded net.channels ds) ds }
{}

/// Counts that block a bounded net block it with other capacities too, if these are the same on the channels that the
/// counts show; and a bounded net that some counts block has rate 0.
pub fn blocked_nets_stay_blocked()
    ensures still { (net : Net) (ds es : List (Option ℕ)) (v : ℕ → ℕ) → ((c : ℕ) → ShowsSpace net ds v c → capacity_at es c ≡ capacity_at ds c) →
        Blocks (bound net ds) v → Blocks (bound net es) v }
    ensures zero { (net : Net) (ds : List (Option ℕ)) (v : ℕ → ℕ) (p q : ℕ) → Lawful net → Blocks (bound net ds) v → Rate (bound net ds) p q → p ≡ 0 }
{}

/// A bounded net of a connected one leads from each actor to each, if all channels but self-loops are bounded; and such a
/// net that some counts block has rate 0.
pub fn blocked_nets_have_rate_zero()
    ensures strong { (net : Net) (ds : List (Option ℕ)) → IsDistribution net.channels ds → IsConnected net → IsStronglyConnected (bound net ds) }
    ensures rate { (net : Net) (v : ℕ → ℕ) → Lawful net → HasInputs net → IsStronglyConnected net → Blocks net v → Rate net 0 1 }
{}

/// Each distribution that reaches a pair within the limit is above a member of a closed list that bounds its rate; so pairs
/// that are reached and cover the members are the front. Of a net it is enough that rates are bounded of what agrees with a
/// member as it stands.
pub fn closed_lists_give_the_front()
    ensures covers { (net : Net) (limit t p q : ℕ) (es : List Entry) (ds : List (Option ℕ)) → Lawful net → IsClosed net limit es → Reaches net limit t p q ds →
        IsCovered es ds p q }
    ensures front { (net : Net) (limit : ℕ) (es : List Entry) (pairs : List Pair) → Lawful net → IsClosed net limit es → IsFrontOver net limit es pairs →
        IsFront net limit pairs }
    ensures nets { (net : Net) (limit : ℕ) (es : List Entry) → Lawful net → IsClosedUnrounded net limit es → IsClosed net limit es }
{}

/// Buffers without a fault give the net of their graph capacities that it can hold, and not too many channels; and no
/// channel of it has more tokens than one of a table may have.
pub fn named_buffers_fit()
    ensures held { (graph : GraphFile) (gamma : List ℕ) (no_overlap : Bool) (buffers : List Buffer) → first_fault graph.channels buffers ≡ None →
        All (λ (b : Buffer). b.1 ≤ CAPACITY) buffers → CanHold (net_of graph gamma no_overlap).channels (capacities_of graph.channels buffers) }
    ensures few { (graph : GraphFile) (gamma : List ℕ) (no_overlap : Bool) (ds : List (Option ℕ)) → KeepsRules graph → length ds ≤ length graph.channels →
        length (bound (net_of graph gamma no_overlap) ds).channels ≤ NET_CHANNELS }
    ensures small { (graph : GraphFile) (gamma : List ℕ) (no_overlap : Bool) (buffers : List Buffer) → KeepsRules graph →
        All (λ (b : Buffer). b.1 ≤ CAPACITY) buffers → (i : ℕ) → i < length (bound (net_of graph gamma no_overlap) (capacities_of graph.channels buffers)).channels →
        (channel_at (bound (net_of graph gamma no_overlap) (capacities_of graph.channels buffers)) i).tokens ≤ TOKENS }
{}

/// A need cycle of a bounded net is one of each with no less room, if the channels whose free space is on the cycle have
/// the same, and so bounds the rate of each.
pub fn need_cycles_hold_with_more_room()
    ensures holds { CyclesHoldWithMoreRoom }
    ensures rate { CyclesBoundRoomierNets }
{
    cycles_bound_the_rate();
}

/// Where some channel begins or ends at each actor, each actor has an input in the net of each distribution; and an actor
/// that has an input in a bounded net is one at which some channel begins or ends, so that no other has one in any of them.
pub fn incident_nets_have_inputs()
    ensures inputs { (net : Net) (ds : List (Option ℕ)) → AreIncident net → IsDistribution net.channels ds → HasInputs (bound net ds) }
    ensures incident { (net : Net) (ds : List (Option ℕ)) (a i : ℕ) → i < length (bound net ds).channels → (channel_at (bound net ds) i).target ≡ a → IsIncident net a }
{}
