ghost use Rattle.std.specs.Prelude.{◌≡◌, ◌↔◌, All, IsTrue, slice_index};
ghost use Rattle.walks.specs.Tellings.{HoldsBack, IsUnder};

use covers::capacity_at;
use sd_base::{Fraction, Rows};

/// What the evaluation of capacities told.
#[derive(Drop)]
pub struct Telling {
    /// By channel of the file its capacity; 0 for a self-loop, which has none.
    pub capacities: Rows<u64>,
    /// The channels on which more room could raise the rate, ascending.
    pub enlarge: Rows<u32>,
    /// Of these the channels on which it bounds: capacities with no more on each of them have no greater rate.
    pub bounding: Rows<u32>,
    /// In rounds per time unit.
    pub rate: Fraction,
    /// By actor the firings after which none can go on, where no round can be completed.
    pub blocked: Option<Rows<u64>>,
}

impl Telling {
    /// Whether it holds the capacities back. Cost: linear in the channels that it shows, and where these have what was
    /// evaluated, in all channels.
    pub fn holds_back(&self, capacities: &[u64]) -> bool
        ensures { IsTrue result ↔ HoldsBack self.now capacities.now }
    {
        self.shows_same(capacities) && is_under(self.capacities.as_slice(), capacities)
    }

    /// Whether the channels that it shows have what was evaluated.
    fn shows_same(&self, capacities: &[u64]) -> bool
        ensures { IsTrue result ↔ All (λ c. slice_index capacities.now c ≡ slice_index self.now.capacities c) self.now.enlarge }
    {
        let evaluated = self.capacities.as_slice();
        for channel in self.enlarge.as_slice() {
            if capacity_at(capacities, *channel) != capacity_at(evaluated, *channel) {
                return false;
            }
        }
        true
    }
}

/// Whether no number is above the one at its place of the others.
pub(crate) fn is_under(lesser: &[u64], greater: &[u64]) -> bool
    ensures { IsTrue result ↔ IsUnder lesser.now greater.now }
{
    for (place, number) in lesser.iter().enumerate() {
        if *number > number_at(greater, place) {
            return false;
        }
    }
    true
}

/// The number at a place; 0 past the end.
fn number_at(numbers: &[u64], place: usize) -> u64
    ensures { result ≡ slice_index numbers.now place }
{
    if place < numbers.len() {
        numbers[place]
    } else {
        0
    }
}
