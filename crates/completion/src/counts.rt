//! By actor how many firings a way of needs has, and their time.
ghost use Rattle.std.specs.Prelude.{◌≡◌, ℕ, ◌+◌, ◌*◌, ◌<◌, ◌≤◌, IfOk, length, map, replicate, slice_set, sum};
ghost use Rattle.completion.specs.Ways.{no_part, part_at};
ghost use Rattle.sd_base.specs.Ranges.{PART_BOUND, WAY_FIRING_BOUND, WAY_TIME_BOUND};

use sd_base::NoMemory;
use std::alloc::Global;

/// The firings of one actor on a way of needs.
#[derive(Clone, Copy, Debug, PartialEq, Eq)]
pub struct Part {
    /// How many firings they are.
    pub firings: u64,
    /// Their time together, in time units.
    pub time: u128,
}

/// No firing.
const NONE: Part = Part {
    firings: 0,
    time: 0,
};

impl Part {
    /// With so many times more what another part has.
    fn with_times(self, once: Part, times: u64) -> Part
        requires few { self.firings + times * once.firings < WAY_FIRING_BOUND }
        requires soon { self.time + times * once.time < WAY_TIME_BOUND }
        ensures firings { result.firings ≡ self.firings + times * once.firings }
        ensures time { result.time ≡ self.time + times * once.time }
    {
        Part {
            firings: self.firings + times * once.firings,
            time: self.time + u128::from(times) * once.time,
        }
    }
}

/// No firings of so many actors.
pub(crate) fn no_parts(alloc: Global, actors: u32) -> Result<Vec<Part>, NoMemory>
    ensures { IfOk result (λ parts. parts.items ≡ replicate actors no_part) }
{
    let mut parts = Vec::with_capacity(alloc, actors as usize)?;
    for _actor in 0..actors {
        parts.push(NONE)?;
    }
    Ok(parts)
}

/// Counts one more firing of an actor.
pub(crate) fn count(parts: &mut [Part], actor: u32, time: u64)
    requires place { actor < length parts.old }
    requires few { (part_at parts.old actor).firings + 1 < WAY_FIRING_BOUND }
    requires soon { (part_at parts.old actor).time + time < WAY_TIME_BOUND }
    ensures { parts.new ≡ slice_set parts.old actor (record { firings = (part_at parts.old actor).firings + 1; time = (part_at parts.old actor).time + time }) }
{
    let part = parts[actor as usize];
    parts[actor as usize] = Part {
        firings: part.firings + 1,
        time: part.time + u128::from(time),
    };
}

/// Counts the firings of a segment so many times more.
pub(crate) fn count_segments(parts: &mut [Part], segment: &[Part], segments: u64)
    requires same { length segment.now ≡ length parts.old }
    requires few { (a : ℕ) → a < length parts.old → (part_at parts.old a).firings + segments * (part_at segment.now a).firings < WAY_FIRING_BOUND }
    requires soon { (a : ℕ) → a < length parts.old → (part_at parts.old a).time + segments * (part_at segment.now a).time < WAY_TIME_BOUND }
    ensures actors { length parts.new ≡ length parts.old }
    ensures firings { (a : ℕ) → a < length parts.old → (part_at parts.new a).firings ≡ (part_at parts.old a).firings + segments * (part_at segment.now a).firings }
    ensures time { (a : ℕ) → a < length parts.old → (part_at parts.new a).time ≡ (part_at parts.old a).time + segments * (part_at segment.now a).time }
{
    for actor in 0..parts.len() {
        parts[actor] = parts[actor].with_times(segment[actor], segments);
    }
}

/// Counts nothing any more.
pub(crate) fn clear(parts: &mut [Part])
    ensures actors { length parts.new ≡ length parts.old }
    ensures none { (a : ℕ) → a < length parts.old → part_at parts.new a ≡ no_part }
{
    for part in parts.iter_mut() {
        *part = NONE;
    }
}

/// How many firings there are in all.
pub(crate) fn firings_in(parts: &[Part]) -> u64
    requires actors { length parts.now ≤ 128 }
    requires few { (a : ℕ) → a < length parts.now → (part_at parts.now a).firings ≤ PART_BOUND }
    ensures { result ≡ sum (map (λ p. p.firings) parts.now) }
{
    let mut firings = 0;
    for part in parts {
        firings += part.firings;
    }
    firings
}
