//! Marks for the firings of a pass: one list for all actors, actor by actor.
ghost use Rattle.std.specs.Prelude.{◌≡◌, ◌+◌, ◌<◌, ◌≤◌, None, Some, IfOk, MatchOption, length, replicate, slice_index_or, slice_set};
ghost use Rattle.critical.specs.inside.Trails.{AreOffsets, IsShort, IsSecond, class_at, offset_of};

use crate::cycle::FiringNo;
use crate::pass::second_of;
use firing::LoopTable;
use sd_base::NoMemory;
use std::alloc::Global;

/// By actor where its firings begin in a list of marks, and last how long that list is.
pub(crate) fn offsets(alloc: Global, table: &LoopTable) -> Result<Vec<usize>, NoMemory>
    requires { IsShort table.now }
    ensures { IfOk result (λ v. AreOffsets table.now.starts v.items) }
{
    let mut offsets = Vec::with_capacity(alloc, table.starts.len().saturating_add(1))?;
    let mut sum = 0;
    for row in table.starts.as_slice() {
        offsets.push(sum)?;
        sum += row.len();
    }
    offsets.push(sum)?;
    Ok(offsets)
}

/// How many firings a pass has.
pub(crate) fn places_of(table: &LoopTable, offsets: &[usize]) -> usize
    requires { AreOffsets table.now.starts offsets.now }
    ensures { result ≡ offset_of table.now.starts (length table.now.starts) }
{
    offsets[table.starts.len()]
}

/// So many places without a mark.
pub(crate) fn no_marks(alloc: Global, count: usize) -> Result<Vec<Option<u32>>, NoMemory>
    ensures { IfOk result (λ v. v.items ≡ replicate count None) }
{
    let mut marks = Vec::with_capacity(alloc, count)?;
    for _place in 0..count {
        marks.push_reserved(None);
    }
    Ok(marks)
}

/// The place of a firing of the second pass in a list of marks.
pub(crate) fn class_of(table: &LoopTable, offsets: &[usize], firing: FiringNo) -> usize
    requires short { IsShort table.now }
    requires second { IsSecond table.now firing }
    requires offsets { AreOffsets table.now.starts offsets.now }
    ensures class { result ≡ class_at table.now firing }
    ensures place { result < offset_of table.now.starts (length table.now.starts) }
{
    offsets[firing.actor as usize] + (firing.number - second_of(table, firing.actor)) as usize
}

/// The mark at a place.
pub(crate) fn mark_at(marks: &[Option<u32>], class: usize) -> Option<u32>
    requires { class < length marks.now }
    ensures { result ≡ slice_index_or marks.now class None }
{
    marks[class]
}

/// The mark at a place; where there is none, puts the one given there.
pub(crate) fn mark(marks: &mut [Option<u32>], class: usize, place: u32) -> Option<u32>
    requires { class < length marks.old }
    ensures before { result ≡ slice_index_or marks.old class None }
    ensures after { MatchOption result (marks.new ≡ slice_set marks.old class (Some place)) (λ _. marks.new ≡ marks.old) }
{
    let before = marks[class];
    if before.is_none() {
        marks[class] = Some(place);
    }
    before
}
