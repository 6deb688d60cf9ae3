ghost use Rattle.std.specs.Prelude.{◌≡◌, ◌≤◌, IfOk, All, length};
ghost use Rattle.sd_base.specs.declared.limits.TheConstants.{STORAGE};
ghost use Rattle.periodic.specs.declared.schedule.Periodic.{Periodic as APeriodic};
ghost use Rattle.explore.specs.Explorations.{IsExploration};
ghost use Rattle.explore.specs.Reachable.{IsExplorable};
ghost use Rattle.cert_text.specs.declared.certificates.Certificate.TheVariants.{Storage};
ghost use Rattle.cert_text.specs.declared.certificates.StorageCertificate.{StorageCertificate as ACertificate};
ghost use Rattle.cert_text.specs.Orderly.{IsOrderly};
ghost use Rattle.cert_text.specs.Spellable.{AreStarts, IsSpellable};
ghost use Rattle.cert_maker.specs.Links.{HasNoOrders};
ghost use Rattle.cert_maker.specs.StorageCertificates.{IsStorageCertificate};

use crate::members::{Listed, list};
use crate::points::point_lines;
use cert_text::{Certificate, StorageCertificate};
use explore::Exploration;
use firing::{Firing, know_laws};
use periodic::Periodic;
use sd_base::{Limits, NoMemory, Rows};
use std::alloc::Global;

/// The certificate of a trade-off: of the exploration of a net within limits, with the schedule of each point. Cost: linear in
/// what it lists, and in the channels for each member.
pub fn storage_certificate<F: Firing>(
    alloc: Global,
    net: &F,
    no_overlap: bool,
    limits: Limits,
    exploration: Exploration,
    schedules: Vec<Periodic>,
) -> Result<Certificate, NoMemory>
    requires net { IsExplorable (F.net net.now) }
    requires unordered { HasNoOrders (F.net net.now) }
    requires total { limits.total ≤ STORAGE }
    requires explored { IsExploration (F.net net.now) limits exploration.members.items exploration.points.items }
    requires many { length schedules.items ≡ length exploration.points.items }
    requires starts { All (λ (s : APeriodic). All AreStarts s.starts) schedules.items }
    ensures is { IfOk result (λ c. (s : ACertificate) × (c ≡ Storage s) × IsStorageCertificate (F.net net.now) no_overlap limits.total exploration.members.items exploration.points.items schedules.items s) }
    ensures orderly { IfOk result IsOrderly }
    ensures spellable { IfOk result IsSpellable }
{
    know_laws(net);
    let Exploration { members, points } = exploration;
    let points = point_lines(alloc, members.as_slice(), points.as_slice(), schedules)?;
    let Listed { cycles, lines } = list(alloc, net, members)?;
    Ok(Certificate::Storage(StorageCertificate {
        no_overlap,
        limit: limits.total,
        cycles: Rows::from_vec(cycles),
        members: Rows::from_vec(lines),
        points: Rows::from_vec(points),
    }))
}
