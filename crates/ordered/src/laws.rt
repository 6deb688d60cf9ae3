//! Laws of orders, each on a function that does nothing.
ghost use Rattle.std.specs.Prelude.{◌≡◌, ◌↔◌, ◌+◌, ◌≤◌, ℕ, List, None, length};
ghost use Rattle.sd_base.specs.declared.limits.TheConstants.{NET_CHANNELS, ORDER_PAIRS};
ghost use Rattle.sd_base.specs.declared.tables.ActorRow.{ActorRow};
ghost use Rattle.sd_base.specs.Net.{Net};
ghost use Rattle.sd_base.specs.Lawful.{Lawful, is_token_role, is_space_role};
ghost use Rattle.sd_base.specs.Rates.{Rate};
ghost use Rattle.sd_base.specs.Schedules.{Schedule, Admissible};
ghost use Rattle.ordered.specs.Orders.{AreOrders, KeepsOrders};
ghost use Rattle.ordered.specs.OrderedNets.{CanBeOrdered, order_channels, ordered, with_role};
ghost use Rattle.ordered.specs.NamedOrders.{first_fault, lists_of};
ghost use Rattle.ordered.specs.OrderedRates.{HasRateInOrder};

/// What a schedule has to keep on the ordered net is what it has to keep on the net, and the orders.
pub fn ordered_nets_keep_orders()
    ensures { (net : Net) (orders : List (List ℕ)) (s : Schedule) → Lawful net → CanBeOrdered net → AreOrders net orders →
        Admissible (ordered net orders) s ↔ (Admissible net s × KeepsOrders net orders s) }
{}

/// The net of orders keeps the laws of nets, if it has few channels. It gets no more than an own channel an actor,
/// and those of the orders.
pub fn ordered_nets_are_lawful()
    ensures lawful { (net : Net) (orders : List (List ℕ)) → Lawful net → CanBeOrdered net → AreOrders net orders → length (ordered net orders).channels ≤ NET_CHANNELS →
        Lawful (ordered net orders) }
    ensures few { (net : Net) (orders : List (List ℕ)) → Lawful net →
        length (ordered net orders).channels ≤ length (with_role is_token_role net.channels) + (length net.times + (length (with_role is_space_role net.channels) + length (order_channels orders))) }
{}

/// So the ordered net's rate is that of the fastest schedules which keep the orders, and the earliest of these have
/// it.
pub fn ordered_nets_have_the_greatest_rate()
    ensures { (net : Net) (orders : List (List ℕ)) (p q : ℕ) → Lawful net → CanBeOrdered net → AreOrders net orders → Rate (ordered net orders) p q →
        HasRateInOrder net orders p q }
{}

/// Orders by name that have no fault are orders of each net with the actors of the graph and its repetition vector,
/// and have few pairs of neighbours.
pub fn named_orders_fit()
    ensures orders { (net : Net) (actors : List ActorRow) (gamma : List ℕ) (lists : List (List (List ℕ))) → length net.times ≡ length actors → net.round ≡ gamma →
        first_fault actors gamma lists ≡ None → AreOrders net (lists_of actors lists) }
    ensures pairs { (actors : List ActorRow) (gamma : List ℕ) (lists : List (List (List ℕ))) → first_fault actors gamma lists ≡ None →
        length (order_channels (lists_of actors lists)) ≤ ORDER_PAIRS }
{}
