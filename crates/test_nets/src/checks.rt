ghost use Rattle.std.specs.Prelude.{◌↔◌, ◌<◌, IsTrue, length};
ghost use Rattle.sd_base.specs.Schedules.{HasInputs};
ghost use Rattle.sd_base.specs.Connection.{IsConnected};
ghost use Rattle.test_nets.specs.Ends.{HasInput, LinksBack, IsLinkedBack, AreLinkedBack};

use firing::Firing;

/// Whether a channel leads into each actor. Cost: at most the actors times the channels.
pub fn is_fed<F: Firing>(net: &F) -> bool
    ensures { IsTrue result ↔ HasInputs (F.net net.now) }
{
    for actor in 0..net.actors() {
        if !has_input(net, actor) {
            return false;
        }
    }
    true
}

fn has_input<F: Firing>(net: &F, actor: u32) -> bool
    ensures { IsTrue result ↔ HasInput (F.net net.now) actor }
{
    for channel in 0..net.channels() {
        if net.target(channel) == actor {
            return true;
        }
    }
    false
}

/// Whether each actor but the first one shares a channel with one before it. Cost: at most the actors times the channels.
pub fn is_joined<F: Firing>(net: &F) -> bool
    ensures linked { IsTrue result ↔ AreLinkedBack (F.net net.now) }
    ensures joined { IsTrue result → IsConnected (F.net net.now) }
{
    for actor in 1..net.actors() {
        if !is_linked_back(net, actor) {
            return false;
        }
    }
    true
}

fn is_linked_back<F: Firing>(net: &F, actor: u32) -> bool
    ensures { IsTrue result ↔ IsLinkedBack (F.net net.now) actor }
{
    for channel in 0..net.channels() {
        if links_back(net, actor, channel) {
            return true;
        }
    }
    false
}

/// Whether a channel leads to an actor from one before it, or back.
fn links_back<F: Firing>(net: &F, actor: u32, channel: u32) -> bool
    requires { channel < length (F.net net.now).channels }
    ensures { IsTrue result ↔ LinksBack (F.net net.now) actor channel }
{
    let source = net.source(channel);
    let target = net.target(channel);
    (source < actor && target == actor) || (target < actor && source == actor)
}
