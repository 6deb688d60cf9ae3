ghost use Rattle.std.specs.Prelude.{◌*◌, ◌^◌, ◌<◌, ◌≤◌, length};

use firing::{Firing, know_laws};

/// The tokens that the first `firings` firings of the source of a channel make, one by one.
pub(crate) fn made_by<F: Firing>(net: &F, channel: u32, firings: u64) -> u128
    requires place { channel < length (F.net net.now).channels }
    requires few { firings ≤ 2 ^ 33 }
    ensures { result ≤ firings * 2 ^ 64 }
{
    know_laws(net);
    let phases = net.phases(net.source(channel)) as u64;
    let mut sum = 0u128;
    for k in 0..firings {
        sum += net.made(channel, (k % phases) as u32) as u128;
    }
    sum
}

/// The tokens that the first `firings` firings of the target of a channel take, one by one.
pub(crate) fn taken_by<F: Firing>(net: &F, channel: u32, firings: u64) -> u128
    requires place { channel < length (F.net net.now).channels }
    requires few { firings ≤ 2 ^ 33 }
    ensures { result ≤ firings * 2 ^ 64 }
{
    know_laws(net);
    let phases = net.phases(net.target(channel)) as u64;
    let mut sum = 0u128;
    for k in 0..firings {
        sum += net.taken(channel, (k % phases) as u32) as u128;
    }
    sum
}

/// Whether a channel has too few tokens for one more firing of its target, when so many firings of its source have
/// ended and so many of its target have started.
pub(crate) fn lacks<F: Firing>(net: &F, channel: u32, ended: usize, started: usize) -> bool
    requires place { channel < length (F.net net.now).channels }
    requires ended { ended < 2 ^ 32 }
    requires started { started < 2 ^ 32 }
{
    let there = net.tokens(channel) as u128 + made_by(net, channel, ended as u64);
    there < taken_by(net, channel, started as u64 + 1)
}
