//! Channels by their names.
ghost use Rattle.std.specs.Prelude.{◌≡◌, IfOk};
ghost use Rattle.bounded_scenarios.specs.SharedChannels.{channel_named};
ghost use Rattle.bounded_scenarios.specs.BoundedFiles.{space_name};
ghost use Rattle.bounded_scenarios.specs.inside.Naming.{IsNamedIn};

use sd_base::{ChannelRow, NoMemory, Text};
use std::alloc::Global;

/// The channel of a name. Cost: linear in the channels.
pub(crate) fn channel_named<'a>(channels: &'a [ChannelRow], name: &Text) -> &'a ChannelRow
    requires { IsNamedIn channels.now name.now }
    ensures { result.now ≡ channel_named channels.now name.now }
{
    for channel in channels {
        if channel.name.is_same(name) {
            return channel;
        }
    }
    unreachable!()
}

/// The name of the free space of a channel: no file gives a name with U+0001 in it.
pub(crate) fn space_name(alloc: Global, name: &Text) -> Result<Text, NoMemory>
    ensures { IfOk result (λ text. text ≡ space_name name.now) }
{
    let mut text = String::from_str(alloc, "\u{1}")?;
    text.push_str(name.as_str())?;
    Ok(Text::new(text))
}
