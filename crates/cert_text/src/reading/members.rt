ghost use Rattle.std.specs.Prelude.{◌≡◌, ◌<◌, ◌≤◌, ◌+◌, ◌++◌, [], ◌∷◌, ◌==◌, if◌then◌else◌, Ok, Err, IfOk, IfErr, OnOk, MatchResult, length};
ghost use Rattle.cert_text.specs.Digits.{IsNumeral};
ghost use Rattle.cert_text.specs.Fields.{number_value};
ghost use Rattle.cert_text.specs.Found.{HasTexts, IsListed, IsNumeralSome, values_of};
ghost use Rattle.cert_text.specs.LineForms.{among, capacities_due, capacity_in, capacity_limited, hyphen_or_number_in, numbered_rate_due, numbers_due};
ghost use Rattle.std.specs.Prelude.{List, Some};
ghost use Rattle.std.specs.Fmt.{decimal};
ghost use Rattle.cert_text.specs.MemberLines.{member_line, member_lines, numbered_rate_line, shown_lines};
ghost use Rattle.cert_text.specs.Orderly.{used_with};
ghost use Rattle.cert_text.specs.Spellable.{AreShown};
ghost use Rattle.cert_text.specs.declared.certificates.LinkCycle.{LinkCycle};
ghost use Rattle.cert_text.specs.NumberLines.{numbers_line};
ghost use Rattle.cert_text.specs.Reads.{Gives, GivesKnown, GivesLine, lines_of, next_by};
ghost use Rattle.cert_text.specs.Sections.{listed_from, member_from, numbered_from};
ghost use Rattle.cert_text.specs.declared.reading.fault.Fault.TheVariants.{Large};
ghost use Rattle.cert_text.specs.Widths.{LONG_MAX};

use crate::certificates::{MemberLine, MemberShown};
use crate::reading::collected::Collected;
use crate::reading::digits::value_of;
use crate::reading::fault::Fault;
use crate::reading::found::{Cycles, cycle_number};
use crate::reading::line::{Line, long};
use crate::reading::lines::Lines;
use crate::reading::numbers::{counts_of, rate_of};
use sd_base::Rows;
use std::alloc::Global;
use storage::Distribution;

/// Reads the lines of a member that lists its cycle. The cycle has its number among those that are found.
#[tactic(auto, unfolding(crate::specs::Sections::member_from, crate::specs::MemberLines::member_lines))]
pub(crate) fn listed_member<'a>(
    alloc: Global,
    lines: &mut Lines<'a>,
    cycles: &mut Cycles<'a>,
) -> Result<MemberLine, Fault>
    requires { HasTexts cycles.old.numbers cycles.old.list.items }
    ensures texts { OnOk result (HasTexts cycles.new.numbers cycles.new.list.items) }
    ensures text { IfOk result (λ m. ((later : List LinkCycle) → lines.old.rest.now ≡ member_lines 1 (cycles.new.list.items ++ later) m ++ lines.new.rest.now) × IsListed cycles.old.list.items cycles.new.list.items m.shown) }
    ensures exact { GivesKnown result cycles.new.list.items lines.new.rest.now (member_from listed_from cycles.old.list.items (lines_of lines.old.rest.now)) }
{
    let capacities = capacities(alloc, lines)?;
    let shown = listed_shown(alloc, lines, cycles)?;
    Ok(MemberLine {
        capacities: Distribution { capacities },
        shown,
    })
}

#[tactic(auto, unfolding(crate::specs::Sections::listed_from, crate::specs::Sections::blocked_from, crate::specs::MemberLines::blocked_line, crate::specs::MemberLines::shown_lines))]
fn listed_shown<'a>(
    alloc: Global,
    lines: &mut Lines<'a>,
    cycles: &mut Cycles<'a>,
) -> Result<MemberShown, Fault>
    requires { HasTexts cycles.old.numbers cycles.old.list.items }
    ensures texts { OnOk result (HasTexts cycles.new.numbers cycles.new.list.items) }
    ensures text { IfOk result (λ s. ((later : List LinkCycle) → lines.old.rest.now ≡ shown_lines 1 (cycles.new.list.items ++ later) s ++ lines.new.rest.now) × IsListed cycles.old.list.items cycles.new.list.items s) }
    ensures exact { GivesKnown result cycles.new.list.items lines.new.rest.now (listed_from cycles.old.list.items (lines_of lines.old.rest.now)) }
{
    let line = lines.next()?;
    if line.is(b"blocked\n") {
        let counts = counts(alloc, lines)?;
        return Ok(MemberShown::Blocked { counts });
    }
    let rate = rate_of(line)?;
    let cycle = cycle_number(alloc, lines, cycles)?;
    Ok(MemberShown::Cycle {
        rate,
        cycle: cycle.number as u64,
    })
}

/// Reads the lines of a member that names its cycle by its number, after members that name `used` of `all` cycles.
#[tactic(auto, unfolding(crate::specs::Sections::member_from, crate::specs::MemberLines::member_lines))]
pub(crate) fn numbered_member(
    alloc: Global,
    lines: &mut Lines,
    used: &mut usize,
    all: usize,
) -> Result<MemberLine, Fault>
    requires { used.old ≤ all }
    ensures within { used.new ≤ all }
    ensures text { IfOk result (λ m. ((cycles : List LinkCycle) → lines.old.rest.now ≡ member_lines 2 cycles m ++ lines.new.rest.now) × AreShown m.shown × (used_with used.old m.shown ≡ Some used.new)) }
    ensures exact { GivesKnown result used.new lines.new.rest.now (member_from (numbered_from all) used.old (lines_of lines.old.rest.now)) }
{
    let capacities = capacities(alloc, lines)?;
    let shown = numbered_shown(alloc, lines, used, all)?;
    Ok(MemberLine {
        capacities: Distribution { capacities },
        shown,
    })
}

#[tactic(auto, using(crate::proofs::MembersNameInOrder::used_next), unfolding(crate::specs::Sections::numbered_from, crate::specs::Sections::blocked_from, crate::specs::MemberLines::blocked_line, crate::specs::MemberLines::shown_lines))]
fn numbered_shown(
    alloc: Global,
    lines: &mut Lines,
    used: &mut usize,
    all: usize,
) -> Result<MemberShown, Fault>
    requires { used.old ≤ all }
    ensures within { used.new ≤ all }
    ensures text { IfOk result (λ s. ((cycles : List LinkCycle) → lines.old.rest.now ≡ shown_lines 2 cycles s ++ lines.new.rest.now) × AreShown s × (used_with used.old s ≡ Some used.new)) }
    ensures exact { GivesKnown result used.new lines.new.rest.now (numbered_from all used.old (lines_of lines.old.rest.now)) }
{
    let line = lines.next()?;
    if line.is(b"blocked\n") {
        let counts = counts(alloc, lines)?;
        return Ok(MemberShown::Blocked { counts });
    }
    let (rate, cycle) = numbered_rate_of(line, *used, all)?;
    *used = used_after(*used, all, cycle);
    Ok(MemberShown::Cycle { rate, cycle })
}

/// How many cycles are named once a member names this one, which is one of the first `used` of `all` or the next one.
fn used_after(used: usize, all: usize, cycle: u64) -> usize
    requires used { used ≤ all }
    requires next { cycle ≤ used }
    requires among { cycle < all }
    ensures within { result ≤ all }
    ensures exact { result ≡ (if cycle == used then used + 1 else used) }
{
    if cycle == used as u64 { used + 1 } else { used }
}

/// Reads the firings at which a member is blocked.
fn counts(alloc: Global, lines: &mut Lines) -> Result<Rows<u64>, Fault>
    ensures text { IfOk result (λ c. (lines.old.rest.now ≡ numbers_line c ++ lines.new.rest.now) × (0 < length c)) }
    ensures exact { Gives result lines.new.rest.now (next_by (numbers_due LONG_MAX) (lines_of lines.old.rest.now)) }
{
    let line = lines.next()?;
    counts_of(alloc, line)
}

/// Reads the line of the capacities of a member.
fn capacities(alloc: Global, lines: &mut Lines) -> Result<Rows<Option<u64>>, Fault>
    ensures text { IfOk result (λ c. lines.old.rest.now ≡ member_line c ++ lines.new.rest.now) }
    ensures exact { Gives result lines.new.rest.now (next_by capacities_due (lines_of lines.old.rest.now)) }
{
    let line = lines.next()?;
    capacities_of(alloc, line)
}

fn capacities_of(alloc: Global, mut line: Line) -> Result<Rows<Option<u64>>, Fault>
    ensures text { IfOk result (λ c. line.entry.rest.now ≡ member_line c) }
    ensures exact { GivesLine result (capacities_due line.entry.rest.now) }
{
    line.word(b"member")?;
    let mut capacities = Collected::with_room(alloc, line.spaces())?;
    while line.rest.len() > 1 {
        let next = capacity(&mut line)?;
        capacities.push(limited(next))?;
    }
    line.end()?;
    capacities.rows()
}

/// Passes a capacity: its digits, if the channel has one.
#[tactic(auto, unfolding(crate::specs::LineForms::capacity_in))]
fn capacity<'a>(line: &mut Line<'a>) -> Result<Option<&'a [u8]>, Fault>
    ensures numeral { IfOk result (λ c. IsNumeralSome c × (length line.new.rest.now < length line.old.rest.now)) }
    ensures exact { MatchResult result (λ c. capacity_in line.old.rest.now ≡ Ok (values_of c, line.new.rest.now)) (λ e. capacity_in line.old.rest.now ≡ Err e) }
{
    line.word(b" ")?;
    hyphen_or_number(line)
}

#[tactic(auto, unfolding(crate::specs::LineForms::hyphen_or_number_in))]
fn hyphen_or_number<'a>(line: &mut Line<'a>) -> Result<Option<&'a [u8]>, Fault>
    ensures numeral { IfOk result (λ c. IsNumeralSome c × (length line.new.rest.now < length line.old.rest.now)) }
    ensures exact { MatchResult result (λ c. hyphen_or_number_in line.old.rest.now ≡ Ok (values_of c, line.new.rest.now)) (λ e. hyphen_or_number_in line.old.rest.now ≡ Err e) }
{
    match line.rest {
        [] => Err(Fault::Form),
        [b'-', rest @ ..] => {
            line.rest = rest;
            Ok(None)
        }
        _ => {
            let digits = line.digits()?;
            Ok(Some(digits))
        }
    }
}

fn limited(capacity: Option<&[u8]>) -> Result<Option<u64>, Fault>
    requires { IsNumeralSome capacity }
    ensures exact { result ≡ capacity_limited (values_of capacity.entry) }
    ensures large { IfErr result (λ e. e ≡ Large) }
{
    match capacity {
        None => Ok(None),
        Some(digits) => Ok(Some(long(digits)?)),
    }
}

/// The rate of a line and the number of its cycle, which is one of the first `used` of `all` or the next one.
#[tactic(auto, unfolding(crate::specs::LineForms::numbered_rate_due, crate::specs::MemberLines::numbered_rate_line))]
fn numbered_rate_of(mut line: Line, used: usize, all: usize) -> Result<((u64, u64), u64), Fault>
    ensures text { IfOk result (λ r. line.entry.rest.now ≡ numbered_rate_line r.0 r.1) }
    ensures among { IfOk result (λ r. (r.1 ≤ used) × (r.1 < all)) }
    ensures exact { result ≡ numbered_rate_due used all line.entry.rest.now }
{
    let num = line.worded(b"rate ")?;
    let den = line.worded(b"/")?;
    let cycle = line.worded(b" ")?;
    line.end()?;
    let cycle = number_among(cycle, used, all)?;
    Ok(((long(num)?, long(den)?), cycle))
}

/// The number of a cycle, which is one of the first `used` of `all` or the next one.
fn number_among(digits: &[u8], used: usize, all: usize) -> Result<u64, Fault>
    requires { IsNumeral digits.now }
    ensures text { IfOk result (λ n. digits.now ≡ decimal n) }
    ensures among { IfOk result (λ n. (n ≤ used) × (n < all)) }
    ensures exact { result ≡ among used all (number_value digits.now) }
{
    match value_of(digits, used as u128) {
        Some(number) if number < all as u128 => Ok(number as u64),
        _ => Err(Fault::Form),
    }
}
