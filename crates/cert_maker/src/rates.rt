ghost use Rattle.std.specs.Prelude.{◌≡◌, ◌^◌, ◌≤◌, ◌<◌, ◌++◌, IfOk, All, [], length, map, drop};
ghost use Rattle.critical.specs.declared.cycle.CycleStep.{CycleStep as AStep};
ghost use Rattle.cert_text.specs.Spellable.{AreStarts, IsSpellable};
ghost use Rattle.cert_text.specs.declared.certificates.Certificate.TheVariants.{Rate};
ghost use Rattle.cert_text.specs.declared.certificates.RateCertificate.{RateCertificate as ACertificate};
ghost use Rattle.cert_maker.specs.Links.{HasNoOrders};
ghost use Rattle.cert_maker.specs.RateCertificates.{IsLowest, IsRateCertificate, buffers_from};

use crate::links::linked;
use cert_text::{Certificate, RateCertificate};
use critical::NeedCycle;
use firing::Firing;
use periodic::Periodic;
use sd_base::{Fraction, NoMemory, Rows};
use std::alloc::{AllocError, Global};
use storage::Distribution;

/// The certificate of a rate: of a net bounded by a distribution, by a schedule that reaches it and a need cycle that bounds
/// it. Cost: linear in the channels and the steps.
pub fn rate_certificate<F: Firing>(
    alloc: Global,
    net: &F,
    no_overlap: bool,
    distribution: &Distribution,
    schedule: Periodic,
    cycle: &NeedCycle,
) -> Result<Certificate, NoMemory>
    requires few { length distribution.now.capacities < 2 ^ 32 }
    requires period { 1 ≤ schedule.period }
    requires starts { All AreStarts schedule.starts }
    requires channels { All (λ (s : AStep). s.channel < length (F.net net.now).channels) cycle.now.steps }
    requires unordered { HasNoOrders (F.net net.now) }
    ensures is { IfOk result (λ c. (r : ACertificate) × (c ≡ Rate r) × IsRateCertificate (F.net net.now) no_overlap distribution.now.capacities schedule cycle.now r) }
    ensures spellable { IfOk result IsSpellable }
{
    let rate = Fraction::new(schedule.rounds, schedule.period);
    Ok(Certificate::Rate(RateCertificate {
        no_overlap,
        buffers: Rows::from_vec(buffers_of(alloc, distribution.capacities.as_slice())?),
        rate: (rate.num(), rate.den()),
        schedule,
        cycle: linked(alloc, net, cycle)?,
    }))
}

/// The channels that have a capacity, each with it.
fn buffers_of(alloc: Global, capacities: &[Option<u64>]) -> Result<Vec<(u32, u64)>, AllocError>
    requires { length capacities.now < 2 ^ 32 }
    ensures { IfOk result (λ b. b.items ≡ buffers_from 0 capacities.now) }
{
    let mut buffers = Vec::new(alloc);
    let mut channel: u32 = 0;
    let mut left = capacities;
    while let [first, rest @ ..] = left {
        if let Some(capacity) = first {
            buffers.push((channel, *capacity))?;
        }
        channel += 1;
        left = rest;
    }
    Ok(buffers)
}
