ghost use Rattle.std.specs.Prelude.{◌≡◌, ℕ, ◌≤◌, ◌<◌, IfOk, IfSome, length};
ghost use Rattle.sd_base.specs.declared.limits.TheConstants.{LEAST_STATES};
ghost use Rattle.sd_base.specs.Schedules.{HasInputs, phases_at};
ghost use Rattle.sd_base.specs.Connection.{IsConnected};
ghost use Rattle.loops.specs.LoopAnswers.{IsFound};

use crate::by_moments::loop_by_moments;
use crate::by_rounds::{FEW, loop_by_rounds};
use firing::{Firing, LoopTable, Wired};
use loops::starts_of_round;
use sd_base::NoMemory;
use std::alloc::Global;

/// The loop of self-timed execution of a net of which each actor has one phase, by the needs of firings alone, where these show it:
/// round by round where a round has few firings. None says nothing of the loop.
///
/// Cost: for each start up to a little more than the first repeat, the channels into its actor; where no loop is found, for each of
/// some three rounds, and for some 4,000 starts at most where a round has up to 256.
pub fn loop_by_needs<F: Firing>(
    alloc: Global,
    wired: &Wired<F>,
    states: u64,
) -> Result<Option<LoopTable>, NoMemory>
    requires single { (a : ℕ) → a < length (F.net wired.now.net.now).times → phases_at (F.net wired.now.net.now) a ≡ 1 }
    requires connected { IsConnected (F.net wired.now.net.now) }
    requires inputs { HasInputs (F.net wired.now.net.now) }
    requires some { LEAST_STATES ≤ states }
    ensures found { IfOk result (λ o. IfSome o (IsFound (F.net wired.now.net.now) states)) }
{
    if starts_of_round(wired.net) <= FEW {
        loop_by_rounds(alloc, wired, states)
    } else {
        loop_by_moments(alloc, wired, states)
    }
}
