//! How many lines the parts of a trade-off have.
ghost use Rattle.std.specs.Prelude.{◌≡◌, ◌+◌, ◌≤◌};
ghost use Rattle.sd_base.specs.Ranges.{LENGTH_BOUND};
ghost use Rattle.cert_text.specs.MemberLines.{cycle_at};
ghost use Rattle.cert_checker.specs.StorageLines.{cycle_size, cycles_size, member_size, point_size, shown_size};
ghost use Rattle.cert_checker.specs.inside.FirstFaults.{kept_number};

use cert_text::{LinkCycle, MemberLine, MemberShown, PointLine};

fn cycle_size(cycle: &LinkCycle) -> u64
    ensures size { result ≡ cycle_size cycle.now }
    ensures small { result ≤ LENGTH_BOUND }
{
    1 + cycle.steps.as_slice().len() as u64
}

/// The lines before that of the number of members, as far as 64 bits hold their number.
pub(crate) fn cycles_size(version: u32, cycles: &[LinkCycle]) -> u64
    ensures { result ≡ kept_number (cycles_size version cycles.now) }
{
    if version == 1 {
        return 0;
    }
    let mut size: u64 = 1;
    for cycle in cycles {
        size = size.saturating_add(cycle_size(cycle));
    }
    size
}

fn shown_size(version: u32, cycles: &[LinkCycle], shown: &MemberShown) -> u64
    ensures size { result ≡ shown_size version cycles.now shown.now }
    ensures small { result ≤ LENGTH_BOUND + 1 }
{
    match shown {
        MemberShown::Cycle { cycle, .. } => {
            if version == 1 {
                1 + listed_size(cycles, *cycle)
            } else {
                1
            }
        }
        MemberShown::Blocked { .. } => 2,
    }
}

/// The lines of a cycle by its number.
fn listed_size(cycles: &[LinkCycle], number: u64) -> u64
    ensures size { result ≡ cycle_size (cycle_at cycles.now number) }
    ensures small { result ≤ LENGTH_BOUND }
{
    match cycles.get(number as usize) {
        Some(cycle) => cycle_size(cycle),
        None => 1,
    }
}

pub(crate) fn member_size(version: u32, cycles: &[LinkCycle], member: &MemberLine) -> u64
    ensures { result ≡ member_size version cycles.now member.now }
{
    1 + shown_size(version, cycles, &member.shown)
}

pub(crate) fn point_size(point: &PointLine) -> u64
    ensures { result ≡ point_size point.now }
{
    2 + point.schedule.starts.as_slice().len() as u64
}
