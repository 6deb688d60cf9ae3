ghost use Rattle.std.specs.Prelude.{◌+◌, ◌<◌, ◌≤◌, ◌^◌};

/// Steps along one channel to `count` firings of its target that follow each other, from firing `number` on.
#[derive(Clone, Copy, Debug)]
pub(crate) struct Stretch {
    pub(crate) number: u64,
    pub(crate) channel: u32,
    pub(crate) actor: u32,
    pub(crate) count: u32,
    ghost some: { 0 < count },
    ghost fits: { number + count ≤ 2 ^ 64 },
}
