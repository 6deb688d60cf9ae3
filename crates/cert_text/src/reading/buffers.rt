ghost use Rattle.std.specs.Prelude.{◌≡◌, ◌<◌, ◌++◌, ◌&&◌, IfOk, MatchResult, length, nat_lt};
ghost use Rattle.cert_text.specs.BufferLines.{buffers_line};
ghost use Rattle.cert_text.specs.Digits.{IsNumeral};
ghost use Rattle.cert_text.specs.Fields.{number_value};
ghost use Rattle.cert_text.specs.LineForms.{buffer_in, buffer_limited, buffers_due, some_buffers_due};
ghost use Rattle.cert_text.specs.Reads.{Gives, GivesLine, lines_of, next_by};
ghost use Rattle.cert_text.specs.Spellable.{Rise};
ghost use Rattle.cert_text.specs.declared.reading.fault.Fault.TheVariants.{Large};
ghost use Rattle.std.specs.Prelude.{IfErr};

use crate::reading::collected::Collected;
use crate::reading::fault::Fault;
use crate::reading::line::{Line, long, short};
use crate::reading::lines::Lines;
use sd_base::Rows;
use std::alloc::Global;

/// Reads the line of the bounded channels and their capacities.
pub(crate) fn buffers(alloc: Global, lines: &mut Lines) -> Result<Rows<(u32, u64)>, Fault>
    ensures text { IfOk result (λ b. (lines.old.rest.now ≡ buffers_line b ++ lines.new.rest.now) × Rise b) }
    ensures exact { Gives result lines.new.rest.now (next_by buffers_due (lines_of lines.old.rest.now)) }
{
    let line = lines.next()?;
    buffers_of(alloc, line)
}

#[tactic(auto, unfolding(crate::specs::LineForms::buffers_due, crate::specs::BufferLines::buffers_line))]
fn buffers_of(alloc: Global, line: Line) -> Result<Rows<(u32, u64)>, Fault>
    ensures text { IfOk result (λ b. (line.entry.rest.now ≡ buffers_line b) × Rise b) }
    ensures exact { GivesLine result (buffers_due line.entry.rest.now) }
{
    if line.is(b"buffers -\n") {
        return Ok(Rows::new(alloc));
    }
    some_buffers_of(alloc, line)
}

/// The buffers of a line that has some. Their channels rise, however great.
fn some_buffers_of(alloc: Global, mut line: Line) -> Result<Rows<(u32, u64)>, Fault>
    ensures text { IfOk result (λ b. (line.entry.rest.now ≡ buffers_line b) × Rise b) }
    ensures exact { GivesLine result (some_buffers_due line.entry.rest.now) }
{
    line.word(b"buffers")?;
    let mut buffers = Collected::with_room(alloc, line.spaces())?;
    let mut rise = true;
    let first = buffer(&mut line)?;
    buffers.push(limited(first.0, first.1))?;
    let mut last = first.0;
    while line.rest.len() > 1 {
        let next = buffer(&mut line)?;
        buffers.push(limited(next.0, next.1))?;
        rise = still_rises(rise, last, next.0);
        last = next.0;
    }
    line.end()?;
    if !rise {
        return Err(Fault::Form);
    }
    buffers.rows()
}

/// Passes a buffer: the digits of its channel and of its capacity.
#[tactic(auto, unfolding(crate::specs::LineForms::buffer_in))]
fn buffer<'a>(line: &mut Line<'a>) -> Result<(&'a [u8], &'a [u8]), Fault>
    ensures numeral { IfOk result (λ b. IsNumeral b.0.now × IsNumeral b.1.now × (length line.new.rest.now < length line.old.rest.now)) }
    ensures exact { MatchResult result (λ b. buffer_in line.old.rest.now ≡ Ok ((number_value b.0.now, number_value b.1.now), line.new.rest.now)) (λ e. buffer_in line.old.rest.now ≡ Err e) }
{
    line.word(b" ")?;
    let channel = line.digits()?;
    line.word(b"=")?;
    let capacity = line.digits()?;
    Ok((channel, capacity))
}

fn limited(channel: &[u8], capacity: &[u8]) -> Result<(u32, u64), Fault>
    requires channel { IsNumeral channel.now }
    requires capacity { IsNumeral capacity.now }
    ensures exact { result ≡ buffer_limited (number_value channel.now, number_value capacity.now) }
    ensures large { IfErr result (λ e. e ≡ Large) }
{
    Ok((short(channel)?, long(capacity)?))
}

fn still_rises(rise: bool, last: &[u8], next: &[u8]) -> bool
    requires last { IsNumeral last.now }
    requires next { IsNumeral next.now }
    ensures { result ≡ (rise && nat_lt (number_value last.now) (number_value next.now)) }
{
    rise && is_less(last, next)
}

/// Whether a number is less than another, by their digits.
fn is_less(a: &[u8], b: &[u8]) -> bool
    requires a { IsNumeral a.now }
    requires b { IsNumeral b.now }
    ensures { result ≡ nat_lt (number_value a.now) (number_value b.now) }
{
    if a.len() != b.len() {
        return a.len() < b.len();
    }
    for i in 0..a.len() {
        if a[i] != b[i] {
            return a[i] < b[i];
        }
    }
    false
}
