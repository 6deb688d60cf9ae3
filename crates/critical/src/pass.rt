//! The second pass round the loop of self-timed execution. Its firings are those listed in the loop's table, as many
//! numbers further on as a pass has, and each starts a period after the listed start.
ghost use Rattle.std.specs.Prelude.{◌≡◌, ◌+◌, ◌-◌, ◌*◌, ◌<◌, ◌≤◌, length};
ghost use Rattle.sd_base.specs.Schedules.{count_of};
ghost use Rattle.critical.specs.inside.Trails.{IsShort, IsSecond, second_of, listed_at};

use crate::cycle::FiringNo;
use firing::LoopTable;

/// How many firings of an actor a pass has.
pub(crate) fn pass_of(table: &LoopTable, actor: u32) -> u64
    requires { actor < length table.now.starts }
    ensures { result ≡ count_of table.now.starts actor }
{
    table.starts.as_slice()[actor as usize].len() as u64
}

/// The number of the first firing of an actor in the second pass.
pub(crate) fn second_of(table: &LoopTable, actor: u32) -> u64
    requires short { IsShort table.now }
    requires actor { actor < length table.now.starts }
    ensures { result ≡ second_of table.now actor }
{
    table.before.as_slice()[actor as usize] + pass_of(table, actor)
}

/// The start that the table lists for a firing of the second pass, a period before its own.
pub(crate) fn listed(table: &LoopTable, firing: FiringNo) -> u64
    requires short { IsShort table.now }
    requires second { IsSecond table.now firing }
    ensures { result ≡ listed_at table.now firing }
{
    let place = firing.number - second_of(table, firing.actor);
    table.starts.as_slice()[firing.actor as usize].as_slice()[place as usize]
}

/// By how many passes a firing has to be moved on to lie in the second one, or past it.
pub(crate) fn passes_on(table: &LoopTable, actor: u32, number: u64) -> u64
    requires short { IsShort table.now }
    requires actor { actor < length table.now.starts }
    ensures reaches { second_of table.now actor ≤ number + result * count_of table.now.starts actor }
    ensures least { number < second_of table.now actor → number + result * count_of table.now.starts actor
        < second_of table.now actor + count_of table.now.starts actor }
    ensures none { second_of table.now actor ≤ number → result ≡ 0 }
{
    let second = second_of(table, actor);
    if second <= number {
        return 0;
    }
    (second - number).div_ceil(pass_of(table, actor))
}
