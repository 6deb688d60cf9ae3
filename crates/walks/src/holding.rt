ghost use Rattle.std.specs.Prelude.{MatchOption};
ghost use Rattle.walks.specs.Tellings.{IsHeld, IsHeldAt};

use crate::telling::Telling;

/// The place of the newest telling that holds the capacities back, if any does. A walk begins at capacities that one of the newest
/// holds back, its own, so it is found soonest from there. Cost: linear in the tellings, and for each in the channels that it
/// shows, or in all channels where these have what was evaluated.
pub fn held_by(tellings: &[Telling], capacities: &[u64]) -> Option<usize>
    ensures { MatchOption result (IsHeld tellings.now capacities.now → ⊥) (IsHeldAt tellings.now capacities.now) }
{
    tellings
        .iter()
        .rposition(|telling| telling.holds_back(capacities))
}
