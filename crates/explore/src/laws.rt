//! Laws of explorations, each on a function that does nothing.
ghost use Rattle.std.specs.Prelude.{◌≤◌, ◌*◌, ℕ, Contains, List, length, map};
ghost use Rattle.sd_base.specs.declared.limits.TheConstants.{NET_CHANNELS};
ghost use Rattle.sd_base.specs.Net.{Net};
ghost use Rattle.sd_base.specs.Connection.{IsConnected};
ghost use Rattle.storage.specs.Distributions.{IsPlain};
ghost use Rattle.storage.specs.IncidentActors.{AreIncident};
ghost use Rattle.storage.specs.ParetoPoints.{IsFront};
ghost use Rattle.pareto_front.specs.declared.point.Point.{Point};
ghost use Rattle.explore.specs.Ceilings.{IsGreatest};
ghost use Rattle.explore.specs.Explorations.{pair_of};
ghost use Rattle.explore.specs.Reachable.{IsExplorable};

/// A connected net of channels of a file and self-loops can be explored, if a channel ends at each actor and its channels,
/// counted twice, aren't too many.
pub fn incident_nets_are_explorable()
    ensures { (net : Net) → IsPlain net → IsConnected net → AreIncident net → 2 * length net.channels ≤ NET_CHANNELS → IsExplorable net }
{}

/// Where a point has the greatest rate of all storage distributions, the points within its storage are those of every greater
/// limit too.
pub fn points_to_the_greatest_rate_are_all()
    ensures { (net : Net) (storage limit : ℕ) (points : List Point) (p : Point) → storage ≤ limit → IsFront net storage (map pair_of points) → Contains points p →
        IsGreatest net p.rate → IsFront net limit (map pair_of points) }
{}
