//! What is known of the members of a certificate before they are checked one by one.
ghost use Rattle.std.specs.Prelude.{◌≡◌, ◌↔◌, ◌≤◌, IfOk, IsTrue, length};
ghost use Rattle.sd_base.specs.Net.{Net};
ghost use Rattle.sd_base.specs.declared.limits.TheConstants.{STORAGE};
ghost use Rattle.cert_text.specs.declared.certificates.StorageCertificate.{StorageCertificate};
ghost use Rattle.cert_checker.specs.ShownChannels.{IsMember};
ghost use Rattle.cert_checker.specs.inside.KnownSets.{IsChildOfFirst, IsListing};
ghost use Rattle.cert_checker.specs.inside.Marks.{mark_at};

use crate::children::children_of;
use crate::known::Known;
use crate::spaces::Spaces;
use cert_text::StorageCertificate;
use firing::Firing;
use sd_base::NoMemory;
use std::alloc::Global;
use storage::Distribution;

/// The channels that cycles show, the members by their distributions, and by the number of a member whether it has a step
/// more room than another one.
#[derive(Drop)]
pub(crate) struct Listed<'a> {
    pub(crate) spaces: Spaces,
    pub(crate) members: Known<'a>,
    pub(crate) children: Vec<bool>,
}

/// What is known of a certificate's members. Cost: the steps of the cycles and for each member the channels that it shows,
/// each times a search.
pub(crate) fn listed_of<'a, F: Firing>(
    alloc: Global,
    net: &F,
    certificate: &'a StorageCertificate,
) -> Result<Listed<'a>, NoMemory>
    requires limit { certificate.now.limit ≤ STORAGE }
    ensures { IfOk result (IsListing (F.net net.now) certificate.now) }
{
    let spaces = Spaces::of(alloc, certificate.cycles.as_slice())?;
    let members = Known::of(alloc, certificate.members.as_slice())?;
    let children = children_of(alloc, net, certificate, &spaces, &members)?;
    Ok(Listed {
        spaces,
        members,
        children,
    })
}

impl<'a> Listed<'a> {
    /// Whether the distribution of a member has a step more room than another member on a channel that this shows.
    pub(crate) fn is_child(&self, distribution: &Distribution) -> bool
        ensures { (net : Net) (c : StorageCertificate) → IsListing net c self.now → IsMember c.members distribution.now.capacities
            → IsTrue result ↔ IsChildOfFirst net c (length c.members) distribution.now.capacities }
    {
        match self.members.number_of(distribution) {
            Some(number) => self.is_marked(number),
            None => false,
        }
    }

    fn is_marked(&self, number: usize) -> bool
        ensures { result ≡ mark_at self.now.children.items number }
    {
        match self.children.get(number) {
            Some(mark) => *mark,
            None => false,
        }
    }
}
