//! Where chains of firings are followed.
ghost use Rattle.entry_ways.specs.inside.Columns.{IsTraceable};

use firing::{Firing, Wired};
use sd_base::Rows;

/// A net in which each actor has one phase, its channels by actor, by channel the number of its first shared token, and
/// the shared token from which chains lead.
#[derive(Drop)]
pub(crate) struct Chains<'a, F: Firing> {
    pub(crate) wired: &'a Wired<'a, F>,
    pub(crate) firsts: &'a Rows<u64>,
    pub(crate) token: u64,
    ghost traceable: { IsTraceable (F.net wired.now.net.now) firsts.now },
}
