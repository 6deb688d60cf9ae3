ghost use Rattle.std.specs.Prelude.{◌≡◌, ◌<◌, ◌≤◌, [], length, slice_index, slice_index_or};
ghost use Rattle.sd_base.specs.Net.{Net, channel_at, total};
ghost use Rattle.sd_base.specs.Schedules.{phases_at};
ghost use Rattle.sd_base.specs.Lawful.{Lawful};

use sd_base::Role;

/// A dataflow net. Contracts see it as the plain net `net`, whose laws each implementation proves. Actors
/// and channels are numbered from 0, and phases of an actor from 0. No method takes memory.
pub trait Firing {
    ghost net: { Self → Net };

    /// How many actors there are.
    fn actors(&self) -> u32
        ensures { result ≡ length (net self.now).times };

    /// How many channels there are, with those that stand for free space or keep firings apart.
    fn channels(&self) -> u32
        ensures { result ≡ length (net self.now).channels };

    /// The actor whose firings make the tokens of a channel.
    fn source(&self, channel: u32) -> u32
        requires { channel < length (net self.now).channels }
        ensures { result ≡ (channel_at (net self.now) channel).source };

    /// The actor whose firings take the tokens of a channel.
    fn target(&self, channel: u32) -> u32
        requires { channel < length (net self.now).channels }
        ensures { result ≡ (channel_at (net self.now) channel).target };

    /// The tokens with which a channel starts.
    fn tokens(&self, channel: u32) -> u64
        requires { channel < length (net self.now).channels }
        ensures { result ≡ (channel_at (net self.now) channel).tokens };

    /// The memory that one token of a channel needs.
    fn size(&self, channel: u32) -> u64
        requires { channel < length (net self.now).channels }
        ensures { result ≡ (channel_at (net self.now) channel).size };

    /// The number of phases of an actor: its firing k uses phase k modulo this number.
    fn phases(&self, actor: u32) -> u32
        requires { actor < length (net self.now).times }
        ensures { result ≡ phases_at (net self.now) actor };

    /// The time of a firing in a phase, in time units.
    fn time(&self, actor: u32, phase: u32) -> u64
        requires actor { actor < length (net self.now).times }
        requires phase { phase < phases_at (net self.now) actor }
        ensures { result ≡ slice_index (slice_index_or (net self.now).times actor []) phase };

    /// The tokens that a firing of the source puts on a channel in a phase of the source.
    fn made(&self, channel: u32, phase: u32) -> u64
        requires channel { channel < length (net self.now).channels }
        requires phase { phase < length (channel_at (net self.now) channel).made }
        ensures { result ≡ slice_index (channel_at (net self.now) channel).made phase };

    /// The tokens that a firing of the target takes from a channel in a phase of the target.
    fn taken(&self, channel: u32, phase: u32) -> u64
        requires channel { channel < length (net self.now).channels }
        requires phase { phase < length (channel_at (net self.now) channel).taken }
        ensures { result ≡ slice_index (channel_at (net self.now) channel).taken phase };

    /// The tokens that the source puts on a channel in the phases below `phases`. Cost: linear in them, unless the
    /// net keeps these sums.
    fn made_before(&self, channel: u32, phases: u32) -> u64
        requires channel { channel < length (net self.now).channels }
        requires phases { phases ≤ length (channel_at (net self.now) channel).made }
        ensures { result ≡ total (channel_at (net self.now) channel).made phases }
    {
        let mut sum: u64 = 0;
        for phase in 0..phases {
            sum += self.made(channel, phase);
        }
        sum
    }

    /// The tokens that the target takes from a channel in the phases below `phases`. Cost: as of `made_before`.
    fn taken_before(&self, channel: u32, phases: u32) -> u64
        requires channel { channel < length (net self.now).channels }
        requires phases { phases ≤ length (channel_at (net self.now) channel).taken }
        ensures { result ≡ total (channel_at (net self.now) channel).taken phases }
    {
        let mut sum: u64 = 0;
        for phase in 0..phases {
            sum += self.taken(channel, phase);
        }
        sum
    }

    /// The firings of an actor in a round.
    fn round(&self, actor: u32) -> u64
        requires { actor < length (net self.now).times }
        ensures { result ≡ slice_index (net self.now).round actor };

    /// What a channel stands for: tokens of the file, free space, or an order of firings.
    fn role(&self, channel: u32) -> Role
        requires { channel < length (net self.now).channels }
        ensures { result ≡ (channel_at (net self.now) channel).role };

    ghost lawful: { (x : Self) → Lawful (net x) };
}

/// The laws of a net, for callers that are generic over it. It does nothing.
pub fn know_laws<F: Firing>(net: &F)
    ensures { Lawful (F.net net.now) }
{}
