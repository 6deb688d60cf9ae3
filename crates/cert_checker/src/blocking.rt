//! Counts that block a net.
ghost use Rattle.std.specs.Prelude.{◌≡◌, ◌↔◌, ℕ, ◌≤◌, ◌<◌, IsTrue, length, slice_index};
ghost use Rattle.sd_base.specs.Untimed.{Closed};
ghost use Rattle.cert_checker.specs.StorageCertificates.{AreBlocking};

use firing::{Firing, can_fire};

/// Whether there is a count for each actor, and these block a net. Cost: the actors times the channels.
pub(crate) fn are_blocking<F: Firing>(net: &F, counts: &[u64]) -> bool
    ensures { IsTrue result ↔ AreBlocking (F.net net.now) counts.now }
{
    counts.len() == net.actors() as usize
        && are_within(net, counts)
        && is_short(net, counts)
        && is_closed(net, counts)
}

/// Whether no actor has fired more often than in a round.
fn are_within<F: Firing>(net: &F, counts: &[u64]) -> bool
    requires actors { length counts.now ≡ length (F.net net.now).times }
    ensures { IsTrue result ↔ ((a : ℕ) → a < length (F.net net.now).times → slice_index counts.now a ≤ slice_index (F.net net.now).round a) }
{
    for actor in 0..net.actors() {
        if counts[actor as usize] > net.round(actor) {
            return false;
        }
    }
    true
}

/// Whether some actor is below its round.
fn is_short<F: Firing>(net: &F, counts: &[u64]) -> bool
    requires actors { length counts.now ≡ length (F.net net.now).times }
    ensures { IsTrue result ↔ ((a : ℕ) × (a < length (F.net net.now).times) × (slice_index counts.now a < slice_index (F.net net.now).round a)) }
{
    for actor in 0..net.actors() {
        if counts[actor as usize] < net.round(actor) {
            return true;
        }
    }
    false
}

/// Whether each actor below its round lacks tokens.
fn is_closed<F: Firing>(net: &F, counts: &[u64]) -> bool
    requires actors { length counts.now ≡ length (F.net net.now).times }
    ensures { IsTrue result ↔ Closed (F.net net.now) (slice_index counts.now) }
{
    for actor in 0..net.actors() {
        if counts[actor as usize] < net.round(actor) && can_fire(net, counts, actor) {
            return false;
        }
    }
    true
}
