//! Actors at which channels begin or end.
ghost use Rattle.std.specs.Prelude.{◌↔◌, IsTrue};
ghost use Rattle.storage.specs.IncidentActors.{AreIncident};

use firing::Firing;
use storage::first_isolated;

/// Whether some channel begins or ends at each actor, so that each has an input once all channels have a free space. Cost: the
/// actors times the channels.
pub(crate) fn are_incident<F: Firing>(net: &F) -> bool
    ensures { IsTrue result ↔ AreIncident (F.net net.now) }
{
    match first_isolated(net) {
        None => true,
        Some(_first) => false,
    }
}
