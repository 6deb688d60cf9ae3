use evaluations::Shown;
use pareto_front::Point;
use sd_base::Fraction;
use storage::Distribution;

/// A distribution that was evaluated, with the rate of its bounded net in rounds per time unit.
#[derive(Drop)]
pub struct Member {
    pub capacities: Distribution,
    pub rate: Fraction,
    pub shown: Shown,
}

/// What an exploration comes to: its members by rising storage and then lexicographically, and the Pareto points of all
/// distributions within the limit by rising storage.
#[derive(Drop)]
pub struct Exploration {
    pub members: Vec<Member>,
    pub points: Vec<Point>,
}
