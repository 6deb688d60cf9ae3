ghost use Rattle.std.specs.Prelude.{◌≡◌, ◌<◌, ◌++◌, All, IfOk, OnOk, length};
ghost use Rattle.std.specs.List.{flat_map};
ghost use Rattle.sd_base.specs.declared.limits.TheConstants.{START};
ghost use Rattle.cert_text.specs.LineForms.{numbers_due, schedule_line_due};
ghost use Rattle.cert_text.specs.NumberLines.{numbers_line};
ghost use Rattle.cert_text.specs.Reads.{Gives, lines_of, next_by};
ghost use Rattle.cert_text.specs.ScheduleLines.{schedule_header, schedule_lines};
ghost use Rattle.cert_text.specs.Sections.{actors_from, schedule_from};
ghost use Rattle.cert_text.specs.Spellable.{AreStarts};

use crate::reading::fault::Fault;
use crate::reading::line::{Line, long};
use crate::reading::lines::Lines;
use crate::reading::numbers::starts_of;
use periodic::Periodic;
use sd_base::Rows;
use std::alloc::Global;

/// Reads the lines of a schedule, up to one that doesn't begin with a digit.
#[tactic(auto, unfolding(crate::specs::ScheduleLines::schedule_lines, crate::specs::Sections::schedule_from))]
pub(crate) fn schedule(alloc: Global, lines: &mut Lines) -> Result<Periodic, Fault>
    ensures text { IfOk result (λ s. (lines.old.rest.now ≡ schedule_lines s ++ lines.new.rest.now) × All AreStarts s.starts) }
    ensures exact { Gives result lines.new.rest.now (schedule_from (lines_of lines.old.rest.now)) }
{
    let (period, rounds) = header(lines)?;
    let starts = actors(alloc, lines)?;
    Ok(Periodic {
        period,
        rounds,
        starts,
    })
}

fn header(lines: &mut Lines) -> Result<(u64, u64), Fault>
    ensures text { IfOk result (λ h. lines.old.rest.now ≡ schedule_header h.0 h.1 ++ lines.new.rest.now) }
    ensures exact { Gives result lines.new.rest.now (next_by schedule_line_due (lines_of lines.old.rest.now)) }
{
    let line = lines.next()?;
    header_of(line)
}

#[tactic(auto, unfolding(crate::specs::ScheduleLines::schedule_header, crate::specs::LineForms::schedule_line_due))]
fn header_of(mut line: Line) -> Result<(u64, u64), Fault>
    ensures text { IfOk result (λ h. line.entry.rest.now ≡ schedule_header h.0 h.1) }
    ensures exact { result ≡ schedule_line_due line.entry.rest.now }
{
    let period = line.worded(b"schedule ")?;
    let rounds = line.worded(b" ")?;
    line.end()?;
    Ok((long(period)?, long(rounds)?))
}

fn actors(alloc: Global, lines: &mut Lines) -> Result<Rows<Rows<u128>>, Fault>
    ensures text { IfOk result (λ s. (lines.old.rest.now ≡ flat_map numbers_line s ++ lines.new.rest.now) × All AreStarts s) }
    ensures exact { Gives result lines.new.rest.now (actors_from (lines_of lines.old.rest.now)) }
{
    let mut starts = Vec::new(alloc);
    'actors: while lines.is_at_number() {
        let row = actor(alloc, lines)?;
        starts.push(row)?;
    }
    Ok(Rows::from_vec(starts))
}

/// Reads the starts of an actor.
fn actor(alloc: Global, lines: &mut Lines) -> Result<Rows<u128>, Fault>
    ensures text { IfOk result (λ s. (lines.old.rest.now ≡ numbers_line s ++ lines.new.rest.now) × AreStarts s) }
    ensures shorter { OnOk result (length lines.new.rest.now < length lines.old.rest.now) }
    ensures exact { Gives result lines.new.rest.now (next_by (numbers_due START) (lines_of lines.old.rest.now)) }
{
    let line = lines.next()?;
    starts_of(alloc, line)
}
