//! The counts from which the evaluation of a distribution begins.
ghost use Rattle.std.specs.Prelude.{ℕ};
ghost use Rattle.liveness.specs.RoundAnswers.{AreReachedCounts};
ghost use Rattle.storage.specs.BoundedNets.{bound};
ghost use Rattle.guide.specs.Evaluations.{IsEvaluable};
ghost use Rattle.evaluations.specs.Starts.{AreStarts};
ghost use Rattle.explore.specs.inside.Hints.{IsHinted};

use crate::exploration::Member;
use evaluations::Starts;
use firing::{Firing, know_laws};
use guide::laws::counts_are_reached_with_more_room;
use levels::Found;

/// The counts that a distribution reaches to which a member led: those at which the member is blocked, or those of a whole
/// round where it is live. Where none led to it, none has fired.
pub(crate) fn led_to<'a, F: Firing>(
    net: &F,
    starts: &'a Starts,
    members: &'a [Member],
    found: &Found<Option<usize>>,
) -> &'a [u64]
    requires starts { AreStarts (F.net net.now) starts.now }
    requires fits { IsEvaluable (F.net net.now) found.now.capacities.capacities }
    requires hinted { (states : ℕ) × IsHinted (F.net net.now) states members.now found.now.hint found.now.capacities.capacities }
    ensures { AreReachedCounts (bound (F.net net.now) found.now.capacities.capacities) result.now }
{
    know_laws(net);
    counts_are_reached_with_more_room();
    match found.hint {
        None => starts.none.as_slice(),
        Some(place) => starts.at(&members[place].shown),
    }
}
