//! The channels of a net by what they stand for.
ghost use Rattle.std.specs.Prelude.{◌≡◌, IfOk};
ghost use Rattle.cert_checker.specs.inside.Links.{AreLinks, channel_in, key_of};

use firing::Firing;
use sd_base::{NoMemory, Role};
use std::alloc::Global;
use std::collections::BTreeMap;

/// The number of the channel that stands for a link. It is found in the logarithm of the channels.
#[derive(Drop)]
pub(crate) struct Links {
    channels: BTreeMap<(u32, u32, u32), u32>,
}

impl Links {
    /// Those of a net. Cost: the channels, each times the logarithm of their number.
    pub(crate) fn of<F: Firing>(alloc: Global, net: &F) -> Result<Links, NoMemory>
        ensures { IfOk result (AreLinks (F.net net.now)) }
    {
        let mut channels = BTreeMap::new(alloc);
        for channel in 0..net.channels() {
            channels.insert(key_of(net.role(channel)), channel)?;
        }
        Ok(Links { channels })
    }

    pub(crate) fn channel_of(&self, link: Role) -> Option<u32>
        ensures { result ≡ channel_in self.now link }
    {
        self.channels.get(&key_of(link)).copied()
    }
}

/// What a channel stands for as numbers: of which kind it is, then what it names.
fn key_of(link: Role) -> (u32, u32, u32)
    ensures { result ≡ key_of link }
{
    match link {
        Role::Token(channel) => (0, channel, 0),
        Role::Own(actor) => (1, actor, 0),
        Role::Space(channel) => (2, channel, 0),
        Role::Order(first, second) => (3, first, second),
    }
}
