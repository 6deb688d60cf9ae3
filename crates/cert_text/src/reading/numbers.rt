ghost use Rattle.std.specs.Prelude.{◌≡◌, ◌++◌, ◌<◌, [], ◌∷◌, IfOk, codes, length};
ghost use Rattle.std.specs.Fmt.{decimal};
ghost use Rattle.cert_text.specs.LineForms.{numbers_due, overlap_due, rate_due, worded_due};
ghost use Rattle.cert_text.specs.NumberLines.{cycles_line, limit_line, members_line, numbers_line, overlap_line, points_line, potentials_line, rate_line};
ghost use Rattle.cert_text.specs.Reads.{Gives, GivesLine, lines_of, next_by};
ghost use Rattle.cert_text.specs.Spellable.{AreStarts};
ghost use Rattle.cert_text.specs.Widths.{LONG_MAX};
ghost use Rattle.sd_base.specs.declared.limits.TheConstants.{START};

use crate::reading::collected::Collected;
use crate::reading::fault::Fault;
use crate::reading::line::{Line, long, within};
use crate::reading::lines::Lines;
use sd_base::Rows;
use sd_base::limits::START;
use std::alloc::Global;

/// Reads the line of the word on overlaps.
pub(crate) fn overlap(lines: &mut Lines) -> Result<bool, Fault>
    ensures text { IfOk result (λ b. lines.old.rest.now ≡ overlap_line b ++ lines.new.rest.now) }
    ensures exact { Gives result lines.new.rest.now (next_by overlap_due (lines_of lines.old.rest.now)) }
{
    let line = lines.next()?;
    overlap_of(line)
}

#[tactic(auto, unfolding(crate::specs::NumberLines::overlap_line, crate::specs::LineForms::overlap_due))]
fn overlap_of(line: Line) -> Result<bool, Fault>
    ensures text { IfOk result (λ b. line.entry.rest.now ≡ overlap_line b) }
    ensures exact { result ≡ overlap_due line.entry.rest.now }
{
    if line.is(b"no-overlap yes\n") {
        return Ok(true);
    }
    if line.is(b"no-overlap no\n") {
        return Ok(false);
    }
    Err(Fault::Form)
}

/// Reads the line of a rate.
pub(crate) fn rate(lines: &mut Lines) -> Result<(u64, u64), Fault>
    ensures text { IfOk result (λ r. lines.old.rest.now ≡ rate_line r ++ lines.new.rest.now) }
    ensures exact { Gives result lines.new.rest.now (next_by rate_due (lines_of lines.old.rest.now)) }
{
    let line = lines.next()?;
    rate_of(line)
}

/// The rate of a line.
#[tactic(auto, unfolding(crate::specs::NumberLines::rate_line, crate::specs::LineForms::rate_due))]
pub(crate) fn rate_of(mut line: Line) -> Result<(u64, u64), Fault>
    ensures text { IfOk result (λ r. line.entry.rest.now ≡ rate_line r) }
    ensures exact { result ≡ rate_due line.entry.rest.now }
{
    let num = line.worded(b"rate ")?;
    let den = line.worded(b"/")?;
    line.end()?;
    Ok((long(num)?, long(den)?))
}

/// Reads the line of a limit.
#[tactic(auto, unfolding(crate::specs::NumberLines::limit_line))]
pub(crate) fn limit(lines: &mut Lines) -> Result<u64, Fault>
    ensures text { IfOk result (λ n. lines.old.rest.now ≡ limit_line n ++ lines.new.rest.now) }
    ensures exact { Gives result lines.new.rest.now (next_by (worded_due (codes "limit ")) (lines_of lines.old.rest.now)) }
{
    worded(lines, b"limit ")
}

#[tactic(auto, unfolding(crate::specs::NumberLines::cycles_line))]
pub(crate) fn cycles_count(lines: &mut Lines) -> Result<u64, Fault>
    ensures text { IfOk result (λ n. lines.old.rest.now ≡ cycles_line n ++ lines.new.rest.now) }
    ensures exact { Gives result lines.new.rest.now (next_by (worded_due (codes "cycles ")) (lines_of lines.old.rest.now)) }
{
    worded(lines, b"cycles ")
}

#[tactic(auto, unfolding(crate::specs::NumberLines::members_line))]
pub(crate) fn members_count(lines: &mut Lines) -> Result<u64, Fault>
    ensures text { IfOk result (λ n. lines.old.rest.now ≡ members_line n ++ lines.new.rest.now) }
    ensures exact { Gives result lines.new.rest.now (next_by (worded_due (codes "members ")) (lines_of lines.old.rest.now)) }
{
    worded(lines, b"members ")
}

#[tactic(auto, unfolding(crate::specs::NumberLines::points_line))]
pub(crate) fn points_count(lines: &mut Lines) -> Result<u64, Fault>
    ensures text { IfOk result (λ n. lines.old.rest.now ≡ points_line n ++ lines.new.rest.now) }
    ensures exact { Gives result lines.new.rest.now (next_by (worded_due (codes "points ")) (lines_of lines.old.rest.now)) }
{
    worded(lines, b"points ")
}

#[tactic(auto, unfolding(crate::specs::NumberLines::potentials_line))]
pub(crate) fn potentials_count(lines: &mut Lines) -> Result<u64, Fault>
    ensures text { IfOk result (λ n. lines.old.rest.now ≡ potentials_line n ++ lines.new.rest.now) }
    ensures exact { Gives result lines.new.rest.now (next_by (worded_due (codes "potentials ")) (lines_of lines.old.rest.now)) }
{
    worded(lines, b"potentials ")
}

/// Reads a line of a word and a number.
fn worded(lines: &mut Lines, word: &[u8]) -> Result<u64, Fault>
    ensures text { IfOk result (λ n. lines.old.rest.now ≡ (word.now ++ (decimal n ++ 10 ∷ [])) ++ lines.new.rest.now) }
    ensures exact { Gives result lines.new.rest.now (next_by (worded_due word.now) (lines_of lines.old.rest.now)) }
{
    let line = lines.next()?;
    number_after(line, word)
}

#[tactic(auto, unfolding(crate::specs::LineForms::worded_due))]
fn number_after(mut line: Line, word: &[u8]) -> Result<u64, Fault>
    ensures text { IfOk result (λ n. line.entry.rest.now ≡ word.now ++ (decimal n ++ 10 ∷ [])) }
    ensures exact { result ≡ worded_due word.now line.entry.rest.now }
{
    let number = line.worded(word)?;
    line.end()?;
    long(number)
}

/// The starts of a line of an actor.
pub(crate) fn starts_of(alloc: Global, mut line: Line) -> Result<Rows<u128>, Fault>
    ensures text { IfOk result (λ starts. (line.entry.rest.now ≡ numbers_line starts) × AreStarts starts) }
    ensures exact { GivesLine result (numbers_due START line.entry.rest.now) }
{
    let first = line.digits()?;
    let mut starts = Collected::with_room(alloc, line.spaces() + 1)?;
    starts.push(within(first, START))?;
    while line.rest.len() > 1 {
        let next = line.worded(b" ")?;
        starts.push(within(next, START))?;
    }
    line.end()?;
    starts.rows()
}

/// The numbers of a line of firings.
pub(crate) fn counts_of(alloc: Global, mut line: Line) -> Result<Rows<u64>, Fault>
    ensures text { IfOk result (λ counts. (line.entry.rest.now ≡ numbers_line counts) × (0 < length counts)) }
    ensures exact { GivesLine result (numbers_due LONG_MAX line.entry.rest.now) }
{
    let first = line.digits()?;
    let mut counts = Collected::with_room(alloc, line.spaces() + 1)?;
    counts.push(long(first))?;
    while line.rest.len() > 1 {
        let next = line.worded(b" ")?;
        counts.push(long(next))?;
    }
    line.end()?;
    counts.rows()
}
