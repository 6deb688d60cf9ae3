//! Members by their distributions.
ghost use Rattle.std.specs.Prelude.{◌≡◌, IfOk};
ghost use Rattle.cert_checker.specs.inside.KnownSets.{AreMembers, number_of};

use cert_text::MemberLine;
use sd_base::NoMemory;
use std::alloc::Global;
use std::collections::BTreeMap;
use storage::Distribution;

/// The number of a member for each distribution that members have. The distributions are kept in order, so that no file makes
/// a search for one dear: it costs the channels times the logarithm of the members.
#[derive(Drop)]
pub(crate) struct Known<'a> {
    numbers: BTreeMap<&'a [Option<u64>], usize>,
}

impl<'a> Known<'a> {
    /// The distributions of members. Cost: a search for each.
    pub(crate) fn of(alloc: Global, members: &'a [MemberLine]) -> Result<Known<'a>, NoMemory>
        ensures { IfOk result (AreMembers members.now) }
    {
        let mut numbers = BTreeMap::new(alloc);
        for number in 0..members.len() {
            let capacities = members[number].capacities.capacities.as_slice();
            numbers.insert(capacities, number)?;
        }
        Ok(Known { numbers })
    }

    /// The number of a member that has a distribution.
    pub(crate) fn number_of(&self, distribution: &Distribution) -> Option<usize>
        ensures { result ≡ number_of self.now distribution.now.capacities }
    {
        self.numbers
            .get(distribution.capacities.as_slice())
            .copied()
    }
}
