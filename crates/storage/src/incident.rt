ghost use Rattle.std.specs.Prelude.{◌↔◌, IsTrue, MatchOption};
ghost use Rattle.storage.specs.IncidentActors.{AreIncident, IsFirstIsolated, IsIncident};

use firing::Firing;

/// The first actor at which no channel begins or ends, if there is one. Where there is none, each actor has an input once all
/// channels have a free space. Cost: the actors times the channels.
pub fn first_isolated<F: Firing>(net: &F) -> Option<u32>
    ensures { MatchOption result (AreIncident (F.net net.now)) (IsFirstIsolated (F.net net.now)) }
{
    for actor in 0..net.actors() {
        if !is_incident(net, actor) {
            return Some(actor);
        }
    }
    None
}

/// Whether a channel begins or ends at an actor.
fn is_incident<F: Firing>(net: &F, actor: u32) -> bool
    ensures { IsTrue result ↔ IsIncident (F.net net.now) actor }
{
    for channel in 0..net.channels() {
        if net.source(channel) == actor || net.target(channel) == actor {
            return true;
        }
    }
    false
}
