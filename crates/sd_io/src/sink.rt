ghost use Rattle.std.specs.Prelude.{◌≡◌, ℕ, ◌<◌, ◌≤◌, ◌^◌, List, length, take, Option, IfOk, OnOk, OnErr};
ghost use Rattle.sd_io.specs.Outside.{Rose, with_sent};

use thiserror::Error;

/// A send failed, and its sink counted a fault.
#[derive(Clone, Copy, Debug, PartialEq, Eq, Error)]
#[error("the bytes can't be sent")]
pub struct Failed;

/// Where bytes are sent.
pub trait Sink {
    /// All bytes sent so far, where it tells them.
    ghost sent: { Self → Option (List ℕ) };

    /// How many faults it counted; a count that stands at its end stays there.
    ghost faults: { Self → ℕ };

    /// Sends the first bytes of a piece that isn't empty, at least one, and answers how many. Takes no memory.
    fn send(&mut self, piece: &[u8]) -> Result<usize, Failed>
        requires { 0 < length piece.now }
        ensures some { IfOk result (λ n. (0 < n) × (n ≤ length piece.now)) }
        ensures sent { IfOk result (λ n. sent self.new ≡ with_sent (take n piece.now) (sent self.old)) }
        ensures failed { OnErr result (Rose (faults self.old) (faults self.new)) }
        ensures nothing { OnErr result (sent self.new ≡ sent self.old) }
        ensures quiet { OnOk result (faults self.new ≡ faults self.old) }
        ensures grows { faults self.old ≤ faults self.new };

    ghost counted: { (s : Self) → faults s < 2 ^ 64 };
}

/// The law of a sink's count, for callers under a bound.
pub fn know_sink<K: Sink>(sink: &K)
    ensures { K.faults sink.now < 2 ^ 64 }
{}
