ghost use Rattle.evaluations.specs.Wirings.{WiresAll};

use crate::starts::Starts;
use firing::{Firing, Wiring};
use sd_base::Limits;
use std::alloc::Global;

/// What is explored: a net, the channels by actor of the nets that distributions bound, the counts from which their
/// evaluations may begin, and the limits.
#[derive(Drop)]
pub struct Exploring<'a, F: Firing> {
    pub alloc: Global,
    pub net: &'a F,
    pub wiring: &'a Wiring,
    pub starts: &'a Starts,
    pub limits: Limits,
    pub ghost wired: { WiresAll (F.net net.now) wiring.now },
}
