//! The channels by actor, which the nets that distributions bound share.
ghost use Rattle.std.specs.Prelude.{IfOk};
ghost use Rattle.guide.specs.Evaluations.{IsEvaluable};
ghost use Rattle.evaluations.specs.Wirings.{WiresAll};

use firing::{Firing, Wiring, know_laws};
use guide::laws::distributions_share_a_wiring;
use sd_base::NoMemory;
use std::alloc::Global;
use storage::{Bounded, Distribution};

/// The channels by actor of the nets that distributions bound, by one of the distributions. Cost: that of `Wiring::new`.
pub fn wiring_of<F: Firing>(
    alloc: Global,
    net: &F,
    capacities: &Distribution,
) -> Result<Wiring, NoMemory>
    requires { IsEvaluable (F.net net.now) capacities.now.capacities }
    ensures { IfOk result (WiresAll (F.net net.now)) }
{
    know_laws(net);
    distributions_share_a_wiring();
    let bounded = Bounded::new(alloc, net, capacities)?;
    Wiring::new(alloc, &bounded)
}
