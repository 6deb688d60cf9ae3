//! Whether the fingerprint of an event is a new one.
//!
//! A new fingerprint shows different shapes. The search for the loop leaves half of the fingerprint of each event's tokens
//! in a list, 32 bits an event. If two shapes up to the last allowed one are equal, then this one is equal to one before
//! it, as execution is determined. So where no checkpoint came again, and its fingerprint is none of those before, all
//! shapes differ, and the refusal needs no further execution. The last shape that is allowed becomes a checkpoint only
//! where its fingerprint isn't new.
ghost use Rattle.std.specs.Prelude.{◌≡◌, IsTrue};
ghost use Rattle.sd_base.specs.SelfTimed.{shape_at};
ghost use Rattle.selftimed.specs.declared.engine.Stage.TheVariants.{Running};
ghost use Rattle.event_loops.specs.inside.Fingerprinting.{IsNew, upper_fingerprint};

use firing::Firing;
use selftimed::Engine;

/// The upper half of the fingerprint of the tokens that stand after the last event: equal shapes have equal ones.
pub(crate) fn upper_half<F: Firing>(engine: &Engine<F>) -> u32
    requires running { engine.now.stage ≡ Running }
    ensures { result ≡ upper_fingerprint (shape_at (F.net engine.now.net.now) engine.now.moment) }
{
    (engine.fingerprint() >> 32) as u32
}

/// Whether a fingerprint is none of some. Cost: linear in these.
pub(crate) fn is_new(fingerprint: u32, fingerprints: &[u32]) -> bool
    ensures { IsTrue result → IsNew fingerprint fingerprints.now }
{
    for place in 0..fingerprints.len() {
        if fingerprints[place] == fingerprint {
            return false;
        }
    }
    true
}
