ghost use Rattle.std.specs.Prelude.{◌≡◌, ◌↔◌, ◌+◌, ◌*◌, ◌/◌, ◌≤◌, ◌<◌, ℕ, IsTrue, [], length, slice_index, slice_index_or};
ghost use Rattle.sd_base.specs.Ranges.{PASS_BOUND, WIDE_START_BOUND};
ghost use Rattle.sd_base.specs.declared.limits.TheConstants.{START};
ghost use Rattle.sd_base.specs.Schedules.{start_of, count_of};
ghost use Rattle.sd_base.specs.Net.{channel_at};
ghost use Rattle.periodic.specs.Periods.{HasRounds, start_in};
ghost use Rattle.periodic.specs.ScheduleLines.{Rises, HasTurn, IsMet, LineHolds};
ghost use Rattle.periodic.specs.inside.FiniteTests.{IsFed, InTime};

use crate::needs::{first_needy, last_need};
use firing::{Firing, know_laws};
use sd_base::Rows;

/// Whether the rows are those of so many rounds.
pub(crate) fn has_rounds<F: Firing>(net: &F, rounds: u64, rows: &[Rows<u128>]) -> bool
    ensures { IsTrue result ↔ HasRounds (F.net net.now) rounds rows.now }
{
    if rows.len() != net.actors() as usize {
        return false;
    }
    for actor in 0..net.actors() {
        if !has_turn(net, rounds, actor, rows) {
            return false;
        }
    }
    true
}

/// Whether the row of an actor is that of so many rounds.
fn has_turn<F: Firing>(net: &F, rounds: u64, actor: u32, rows: &[Rows<u128>]) -> bool
    requires actors { length rows.now ≡ length (F.net net.now).times }
    requires actor { actor < length (F.net net.now).times }
    ensures { IsTrue result ↔ HasTurn (F.net net.now) rounds rows.now actor }
{
    row(rows, actor).len() as u128 == rounds as u128 * net.round(actor) as u128
}

/// Whether the line of an actor is right.
pub(crate) fn line_holds<F: Firing>(
    net: &F,
    actor: u32,
    rounds: u64,
    period: u64,
    rows: &[Rows<u128>],
) -> bool
    requires turns { 1 ≤ rounds }
    requires actors { length rows.now ≡ length (F.net net.now).times }
    requires actor { actor < length (F.net net.now).times }
    requires small { (a k : ℕ) → start_of rows.now a k ≤ START }
    ensures { IsTrue result ↔ LineHolds (F.net net.now) period rounds rows.now actor }
{
    know_laws(net);
    if !has_turn(net, rounds, actor, rows) {
        return false;
    }
    if !rises(period, row(rows, actor)) {
        return false;
    }
    all_met(net, actor, rounds, period, rows)
}

/// Whether on each channel into an actor each need is met, but where the row of its source isn't that of a turn.
fn all_met<F: Firing>(net: &F, actor: u32, rounds: u64, period: u64, rows: &[Rows<u128>]) -> bool
    requires turns { 1 ≤ rounds }
    requires actors { length rows.now ≡ length (F.net net.now).times }
    requires turn { HasTurn (F.net net.now) rounds rows.now actor }
    requires small { (a k : ℕ) → start_of rows.now a k ≤ START }
    ensures { IsTrue result ↔ ((i : ℕ) → i < length (F.net net.now).channels → (channel_at (F.net net.now) i).target ≡ actor
        → HasTurn (F.net net.now) rounds rows.now (channel_at (F.net net.now) i).source → IsMet (F.net net.now) period rows.now i) }
{
    for channel in 0..net.channels() {
        if net.target(channel) == actor && !is_met(net, channel, rounds, period, rows) {
            return false;
        }
    }
    true
}

/// Whether on a channel each need is met, or the row of its source isn't that of a turn.
fn is_met<F: Firing>(net: &F, channel: u32, rounds: u64, period: u64, rows: &[Rows<u128>]) -> bool
    requires channel { channel < length (F.net net.now).channels }
    requires turns { 1 ≤ rounds }
    requires actors { length rows.now ≡ length (F.net net.now).times }
    requires turn { HasTurn (F.net net.now) rounds rows.now (channel_at (F.net net.now) channel).target }
    requires small { (a k : ℕ) → start_of rows.now a k ≤ START }
    ensures { IsTrue result ↔ (HasTurn (F.net net.now) rounds rows.now (channel_at (F.net net.now) channel).source → IsMet (F.net net.now) period rows.now channel) }
{
    know_laws(net);
    if !has_turn(net, rounds, net.source(channel), rows) {
        return true;
    }
    is_fed(net, channel, rounds, period, rows)
}

/// Whether the starts of no actor fall.
pub(crate) fn all_rise<F: Firing>(net: &F, rounds: u64, period: u64, rows: &[Rows<u128>]) -> bool
    requires turns { 1 ≤ rounds }
    requires rounds { HasRounds (F.net net.now) rounds rows.now }
    requires small { (a k : ℕ) → start_of rows.now a k ≤ START }
    ensures { IsTrue result ↔ ((a : ℕ) → a < length (F.net net.now).times → Rises period (slice_index_or rows.now a [])) }
{
    for actor in 0..net.actors() {
        if !rises(period, row(rows, actor)) {
            return false;
        }
    }
    true
}

/// Whether the starts of an actor don't fall, over the end of the period too.
fn rises(period: u64, row: &[u128]) -> bool
    requires some { 0 < length row.now }
    requires small { (k : ℕ) → slice_index row.now k ≤ START }
    ensures { IsTrue result ↔ Rises period row.now }
{
    for k in 1..row.len() {
        if row[k] < row[k - 1] {
            return false;
        }
    }
    row[row.len() - 1] <= row[0] + period as u128
}

/// Whether on each channel the tested needs end in time.
pub(crate) fn all_fed<F: Firing>(net: &F, rounds: u64, period: u64, rows: &[Rows<u128>]) -> bool
    requires turns { 1 ≤ rounds }
    requires rounds { HasRounds (F.net net.now) rounds rows.now }
    requires small { (a k : ℕ) → start_of rows.now a k ≤ START }
    ensures { IsTrue result ↔ ((i : ℕ) → i < length (F.net net.now).channels → IsFed (F.net net.now) period rows.now i) }
{
    for channel in 0..net.channels() {
        if !is_fed(net, channel, rounds, period, rows) {
            return false;
        }
    }
    true
}

/// Whether the tested needs of each firing on a channel end in time.
fn is_fed<F: Firing>(net: &F, channel: u32, rounds: u64, period: u64, rows: &[Rows<u128>]) -> bool
    requires channel { channel < length (F.net net.now).channels }
    requires turns { 1 ≤ rounds }
    requires actors { length rows.now ≡ length (F.net net.now).times }
    requires from { HasTurn (F.net net.now) rounds rows.now (channel_at (F.net net.now) channel).source }
    requires to { HasTurn (F.net net.now) rounds rows.now (channel_at (F.net net.now) channel).target }
    requires small { (a k : ℕ) → start_of rows.now a k ≤ START }
    ensures { IsTrue result ↔ IsFed (F.net net.now) period rows.now channel }
{
    know_laws(net);
    for place in 0..row(rows, net.target(channel)).len() {
        if !in_time(net, channel, place, rounds, period, rows) {
            return false;
        }
    }
    true
}

/// Whether the tested need of a listed firing on a channel ends in time.
fn in_time<F: Firing>(
    net: &F,
    channel: u32,
    place: usize,
    rounds: u64,
    period: u64,
    rows: &[Rows<u128>],
) -> bool
    requires channel { channel < length (F.net net.now).channels }
    requires turns { 1 ≤ rounds }
    requires actors { length rows.now ≡ length (F.net net.now).times }
    requires from { HasTurn (F.net net.now) rounds rows.now (channel_at (F.net net.now) channel).source }
    requires to { HasTurn (F.net net.now) rounds rows.now (channel_at (F.net net.now) channel).target }
    requires small { (a k : ℕ) → start_of rows.now a k ≤ START }
    requires place { place < count_of rows.now (channel_at (F.net net.now) channel).target }
    ensures { IsTrue result ↔ InTime (F.net net.now) period rows.now channel place }
{
    know_laws(net);
    let source = net.source(channel);
    let from = row(rows, source);
    let to = row(rows, net.target(channel));
    let turn = to.len() as u128;
    let firing = place as u128 + first_needy(net, channel, place as u128, rounds, turn) * turn;
    let last = last_need(net, channel, firing);
    let time = net.time(source, (last % net.phases(source) as u128) as u32);
    start(period, from, last) + time as u128 <= start(period, to, firing)
}

/// The listed starts of an actor.
fn row(rows: &[Rows<u128>], actor: u32) -> &[u128]
    requires { actor < length rows.now }
    ensures { result.now ≡ slice_index_or rows.now actor [] }
{
    rows[actor as usize].as_slice()
}

/// The start of a firing of an actor.
fn start(period: u64, row: &[u128], firing: u128) -> u128
    requires some { 0 < length row.now }
    requires small { (k : ℕ) → slice_index row.now k ≤ START }
    requires near { firing / length row.now ≤ PASS_BOUND }
    ensures start { result ≡ start_in period row.now firing }
    ensures small { result ≤ WIDE_START_BOUND }
{
    let turn = row.len() as u128;
    row[(firing % turn) as usize] + firing / turn * period as u128
}
