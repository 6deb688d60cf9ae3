ghost use Rattle.std.specs.Prelude.{◌≡◌, ℕ, ◌+◌, ◌-◌, ◌*◌, ◌<◌, ◌≤◌, ◌^◌, [], ◌++◌, IfOk, length, map, slice_index, slice_index_or, vec_capacity, vec_len};
ghost use Rattle.sd_base.specs.declared.limits.TheConstants.{STARTS, START};
ghost use Rattle.std.specs.List.{range_with_len};
ghost use Rattle.sd_base.specs.Schedules.{count_of};
ghost use Rattle.periodic.specs.inside.Passes.{turns_back, back_start, back_at, AreParts, IsLeast, IsLeastStart, HasTurns, HasPasses, AreMovedBack};

use firing::LoopTable;
use sd_base::{NoMemory, Rows};
use std::alloc::Global;

/// The firings of an actor in one pass round the loop of a table.
#[derive(Clone, Copy)]
struct Pass<'a> {
    period: u64,
    /// The number of the first one.
    before: u64,
    starts: &'a [u64],
    ghost some: { 0 < length starts.now },
    ghost few: { before ≤ STARTS },
}

impl<'a> Pass<'a> {
    /// How many whole turns lie before the turn that begins in the pass.
    fn turns(&self) -> u64
        ensures turns { result ≡ turns_back self.now.before (length self.now.starts.now) 0 }
        ensures few { result ≤ STARTS }
    {
        let turn = self.starts.len() as u64;
        (self.before + (turn - 1)) / turn
    }

    /// The firings of that turn, which have the first places, and those before it, which have the last ones.
    /// Each is to start earlier by a period for each whole turn before it, and later by `up`.
    fn parts(&self, up: u128) -> (Part<'a>, Part<'a>)
        requires up { turns_back self.now.before (length self.now.starts.now) 0 * self.now.period ≤ up }
        requires small { up ≤ STARTS * 2 ^ 64 }
        ensures { AreParts self.now.period self.now.before self.now.starts.now up result.0.starts.now result.0.up result.1.starts.now result.1.up }
    {
        let turns = self.turns();
        let begun = turns * self.starts.len() as u64;
        let (early, late) = self.starts.split_at((begun - self.before) as usize);
        let up = up - turns as u128 * self.period as u128;
        let late = Part { starts: late, up };
        let early = Part {
            starts: early,
            up: up + self.period as u128,
        };
        (late, early)
    }

    /// The least of these starts.
    fn least(&self, up: u128) -> u128
        requires up { turns_back self.now.before (length self.now.starts.now) 0 * self.now.period ≤ up }
        requires small { up ≤ STARTS * 2 ^ 64 }
        ensures { IsLeast (back_start self.now.period self.now.before self.now.starts.now up) (length self.now.starts.now) result }
    {
        let (late, early) = self.parts(up);
        if early.starts.is_empty() {
            late.least()
        } else {
            late.least().min(early.least())
        }
    }

    /// These starts by place, each less by `down`.
    fn row(&self, alloc: Global, up: u128, down: u128) -> Result<Rows<u128>, NoMemory>
        requires up { turns_back self.now.before (length self.now.starts.now) 0 * self.now.period ≤ up }
        requires small { up ≤ STARTS * 2 ^ 64 }
        requires down { (k : ℕ) → k < length self.now.starts.now → down ≤ back_start self.now.period self.now.before self.now.starts.now up k }
        ensures row { IfOk result (λ row. row
            ≡ map (λ k. back_start self.now.period self.now.before self.now.starts.now up k - down) (range_with_len 0 (length self.now.starts.now))) }
        ensures small { IfOk result (λ row. (k : ℕ) → slice_index row k ≤ START) }
    {
        let (late, early) = self.parts(up);
        let mut row = Vec::with_capacity(alloc, self.starts.len())?;
        late.push_to(&mut row, down);
        early.push_to(&mut row, down);
        Ok(Rows::from_vec(row))
    }
}

/// Firings of an actor in one turn, in order.
#[derive(Clone, Copy)]
struct Part<'a> {
    starts: &'a [u64],
    /// How much later each of them is to start.
    up: u128,
    ghost small: { up ≤ (STARTS + 1) * 2 ^ 64 },
}

impl Part<'_> {
    /// The least of these later starts.
    fn least(&self) -> u128
        requires { 0 < length self.now.starts.now }
        ensures { IsLeast (λ k. slice_index self.now.starts.now k + self.now.up) (length self.now.starts.now) result }
    {
        let mut least = self.starts[0];
        for place in 1..self.starts.len() {
            least = least.min(self.starts[place]);
        }
        least as u128 + self.up
    }

    /// Puts these later starts, each less by `down`, at the end of a row that has room for them.
    fn push_to(&self, row: &mut Vec<u128>, down: u128)
        requires room { vec_len row.old + length self.now.starts.now ≤ vec_capacity row.old }
        requires down { (k : ℕ) → k < length self.now.starts.now → down ≤ slice_index self.now.starts.now k + self.now.up }
        ensures row { row.new.items ≡ row.old.items ++ map (λ start. start + self.now.up - down) self.now.starts.now }
        ensures len { vec_len row.new ≡ vec_len row.old + length self.now.starts.now }
        ensures capacity { vec_capacity row.new ≡ vec_capacity row.old }
        ensures small { ((k : ℕ) → slice_index row.old.items k ≤ START) → (k : ℕ) → slice_index row.new.items k ≤ START }
    {
        for start in self.starts {
            row.push_reserved(*start as u128 + self.up - down);
        }
    }
}

/// By actor the starts of one pass, moved back to the first turn, and all by one constant with which the
/// least is 0.
pub(crate) fn moved_starts(alloc: Global, table: &LoopTable) -> Result<Rows<Rows<u128>>, NoMemory>
    requires { HasPasses table.now }
    ensures { IfOk result (AreMovedBack table.now) }
{
    let most = most_turns(table);
    let up = most as u128 * table.period as u128;
    let down = least_start(table, most);
    let mut rows = Vec::with_capacity(alloc, table.starts.len())?;
    for actor in 0..table.starts.len() {
        rows.push_reserved(pass_of(table, actor).row(alloc, up, down)?);
    }
    Ok(Rows::from_vec(rows))
}

/// The firings of an actor.
fn pass_of(table: &LoopTable, actor: usize) -> Pass<'_>
    requires passes { HasPasses table.now }
    requires actor { actor < length table.now.starts }
    ensures period { result.period ≡ table.now.period }
    ensures before { result.before ≡ slice_index table.now.before actor }
    ensures starts { result.starts.now ≡ slice_index_or table.now.starts actor [] }
{
    Pass {
        period: table.period,
        before: table.before.as_slice()[actor],
        starts: table.starts.as_slice()[actor].as_slice(),
    }
}

/// The most whole turns that lie before a firing of the pass.
fn most_turns(table: &LoopTable) -> u64
    requires { HasPasses table.now }
    ensures turns { HasTurns table.now (length table.now.starts) result }
    ensures few { result ≤ STARTS }
{
    let mut most = 0;
    for actor in 0..table.starts.len() {
        most = most.max(pass_of(table, actor).turns());
    }
    most
}

/// The least start of any actor.
fn least_start(table: &LoopTable, most: u64) -> u128
    requires passes { HasPasses table.now }
    requires turns { HasTurns table.now (length table.now.starts) most }
    requires few { most ≤ STARTS }
    ensures { IsLeastStart table.now (most * table.now.period) (length table.now.starts) result }
{
    let up = most as u128 * table.period as u128;
    let mut least = pass_of(table, 0).least(up);
    for actor in 1..table.starts.len() {
        least = least.min(pass_of(table, actor).least(up));
    }
    least
}
