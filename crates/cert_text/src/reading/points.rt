ghost use Rattle.std.specs.Prelude.{◌≡◌, ◌++◌, All, IfOk, length};
ghost use Rattle.std.specs.List.{flat_map};
ghost use Rattle.cert_text.specs.LineForms.{point_line_due};
ghost use Rattle.cert_text.specs.MemberLines.{point_line, point_lines};
ghost use Rattle.cert_text.specs.Reads.{Gives, lines_of, next_by, times_by};
ghost use Rattle.cert_text.specs.Sections.{point_from, points_from};
ghost use Rattle.cert_text.specs.Spellable.{AreStarts};
ghost use Rattle.cert_text.specs.Spelling.{point_list};
ghost use Rattle.cert_text.specs.declared.certificates.PointLine.{PointLine};

use crate::certificates::PointLine;
use crate::reading::fault::Fault;
use crate::reading::line::{Line, long};
use crate::reading::lines::Lines;
use crate::reading::numbers::points_count;
use crate::reading::schedules::schedule;
use sd_base::Rows;
use std::alloc::Global;

/// Reads the list of the points.
#[tactic(auto, unfolding(crate::specs::Spelling::point_list, crate::specs::Sections::points_from))]
pub(crate) fn points(alloc: Global, lines: &mut Lines) -> Result<Rows<PointLine>, Fault>
    ensures text { IfOk result (λ p. (lines.old.rest.now ≡ point_list p ++ lines.new.rest.now) × All (λ (p : PointLine). All AreStarts p.schedule.starts) p) }
    ensures exact { Gives result lines.new.rest.now (points_from (lines_of lines.old.rest.now)) }
{
    let count = points_count(lines)?;
    each_point(alloc, lines, count)
}

fn each_point(alloc: Global, lines: &mut Lines, count: u64) -> Result<Rows<PointLine>, Fault>
    ensures text { IfOk result (λ p. (lines.old.rest.now ≡ flat_map point_lines p ++ lines.new.rest.now) × (length p ≡ count) × All (λ (p : PointLine). All AreStarts p.schedule.starts) p) }
    ensures exact { Gives result lines.new.rest.now (times_by point_from count (lines_of lines.old.rest.now)) }
{
    let mut points = Vec::new(alloc);
    for place in 0..count {
        let next = point(alloc, lines)?;
        points.push(next)?;
    }
    Ok(Rows::from_vec(points))
}

/// Reads the lines of a point.
#[tactic(auto, unfolding(crate::specs::MemberLines::point_lines, crate::specs::Sections::point_from))]
fn point(alloc: Global, lines: &mut Lines) -> Result<PointLine, Fault>
    ensures text { IfOk result (λ p. (lines.old.rest.now ≡ point_lines p ++ lines.new.rest.now) × All AreStarts p.schedule.starts) }
    ensures exact { Gives result lines.new.rest.now (point_from (lines_of lines.old.rest.now)) }
{
    let (total, rate, member) = header(lines)?;
    let schedule = schedule(alloc, lines)?;
    Ok(PointLine {
        total,
        rate,
        member,
        schedule,
    })
}

/// Reads the first line of a point: its storage, its rate and the number of its member.
fn header(lines: &mut Lines) -> Result<(u64, (u64, u64), u64), Fault>
    ensures text { IfOk result (λ h. lines.old.rest.now ≡ point_line h.0 h.1 h.2 ++ lines.new.rest.now) }
    ensures exact { Gives result lines.new.rest.now (next_by point_line_due (lines_of lines.old.rest.now)) }
{
    let line = lines.next()?;
    header_of(line)
}

#[tactic(auto, unfolding(crate::specs::MemberLines::point_line, crate::specs::LineForms::point_line_due))]
fn header_of(mut line: Line) -> Result<(u64, (u64, u64), u64), Fault>
    ensures text { IfOk result (λ h. line.entry.rest.now ≡ point_line h.0 h.1 h.2) }
    ensures exact { result ≡ point_line_due line.entry.rest.now }
{
    let total = line.worded(b"point ")?;
    let num = line.worded(b" ")?;
    let den = line.worded(b"/")?;
    let member = line.worded(b" ")?;
    line.end()?;
    Ok((long(total)?, (long(num)?, long(den)?), long(member)?))
}
