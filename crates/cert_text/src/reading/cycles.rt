ghost use Rattle.std.specs.Prelude.{◌≡◌, ◌++◌, [], ◌∷◌, ℕ, All, IfOk, length};
ghost use Rattle.std.specs.Fmt.{decimal};
ghost use Rattle.sd_base.specs.declared.role.Role.TheVariants.{Order};
ghost use Rattle.std.specs.List.{flat_map};
ghost use Rattle.cert_text.specs.CycleLines.{cycle_header, cycle_lines, step_line, link_text};
ghost use Rattle.cert_text.specs.Digits.{IsNumeral};
ghost use Rattle.cert_text.specs.Fields.{number_value};
ghost use Rattle.cert_text.specs.LineForms.{header_due, header_limited, last_short_due, link_due, step_due};
ghost use Rattle.cert_text.specs.Reads.{Gives, lines_of, next_by, times_by};
ghost use Rattle.cert_text.specs.Sections.{cycle_from};
ghost use Rattle.cert_text.specs.Spellable.{HasText, IsCycleText};

use crate::certificates::{LinkCycle, LinkStep};
use crate::reading::fault::Fault;
use crate::reading::line::{Line, long, short};
use crate::reading::lines::Lines;
use critical::FiringNo;
use sd_base::{Role, Rows};
use std::alloc::Global;

/// Reads the lines of a cycle.
#[tactic(auto, unfolding(crate::specs::CycleLines::cycle_lines, crate::specs::Sections::cycle_from))]
pub(crate) fn cycle(alloc: Global, lines: &mut Lines) -> Result<LinkCycle, Fault>
    ensures text { IfOk result (λ c. (lines.old.rest.now ≡ cycle_lines c ++ lines.new.rest.now) × IsCycleText c) }
    ensures exact { Gives result lines.new.rest.now (cycle_from (lines_of lines.old.rest.now)) }
{
    let header = header(lines)?;
    let steps = steps(alloc, lines, header.steps)?;
    Ok(LinkCycle {
        time: header.time,
        rounds: header.rounds,
        first: header.first,
        steps,
    })
}

/// The first line of a cycle.
#[derive(Clone, Copy)]
pub(crate) struct CycleHeader {
    pub(crate) time: u64,
    pub(crate) rounds: u64,
    pub(crate) first: FiringNo,
    pub(crate) steps: u64,
}

fn header(lines: &mut Lines) -> Result<CycleHeader, Fault>
    ensures text { IfOk result (λ h. lines.old.rest.now ≡ cycle_header h.time h.rounds h.first h.steps ++ lines.new.rest.now) }
    ensures exact { Gives result lines.new.rest.now (next_by header_due (lines_of lines.old.rest.now)) }
{
    let line = lines.next()?;
    header_of(line)
}

#[tactic(auto, unfolding(crate::specs::CycleLines::cycle_header, crate::specs::LineForms::header_due))]
fn header_of(mut line: Line) -> Result<CycleHeader, Fault>
    ensures text { IfOk result (λ h. line.entry.rest.now ≡ cycle_header h.time h.rounds h.first h.steps) }
    ensures exact { result ≡ header_due line.entry.rest.now }
{
    let time = line.worded(b"cycle ")?;
    let rounds = line.worded(b" ")?;
    let actor = line.worded(b" ")?;
    let number = line.worded(b" ")?;
    let steps = line.worded(b" ")?;
    line.end()?;
    header_within(time, rounds, actor, number, steps)
}

/// What these digits spell of the first line of a cycle.
fn header_within(
    time: &[u8],
    rounds: &[u8],
    actor: &[u8],
    number: &[u8],
    steps: &[u8],
) -> Result<CycleHeader, Fault>
    requires time { IsNumeral time.now }
    requires rounds { IsNumeral rounds.now }
    requires actor { IsNumeral actor.now }
    requires number { IsNumeral number.now }
    requires steps { IsNumeral steps.now }
    ensures text { IfOk result (λ h. (time.now ≡ decimal h.time) × (rounds.now ≡ decimal h.rounds) × (actor.now ≡ decimal h.first.actor) × (number.now ≡ decimal h.first.number) × (steps.now ≡ decimal h.steps)) }
    ensures exact { result ≡ header_limited (number_value time.now) (number_value rounds.now) (number_value actor.now) (number_value number.now) (number_value steps.now) }
{
    Ok(CycleHeader {
        time: long(time)?,
        rounds: long(rounds)?,
        first: FiringNo {
            actor: short(actor)?,
            number: long(number)?,
        },
        steps: long(steps)?,
    })
}

fn steps(alloc: Global, lines: &mut Lines, count: u64) -> Result<Rows<LinkStep>, Fault>
    ensures text { IfOk result (λ s. (lines.old.rest.now ≡ flat_map step_line s ++ lines.new.rest.now) × (length s ≡ count) × All HasText s) }
    ensures exact { Gives result lines.new.rest.now (times_by (next_by step_due) count (lines_of lines.old.rest.now)) }
{
    let mut steps = Vec::new(alloc);
    for place in 0..count {
        let next = step(lines)?;
        steps.push(next)?;
    }
    Ok(Rows::from_vec(steps))
}

fn step(lines: &mut Lines) -> Result<LinkStep, Fault>
    ensures text { IfOk result (λ s. (lines.old.rest.now ≡ step_line s ++ lines.new.rest.now) × HasText s) }
    ensures exact { Gives result lines.new.rest.now (next_by step_due (lines_of lines.old.rest.now)) }
{
    let line = lines.next()?;
    step_of(line)
}

#[tactic(auto, unfolding(crate::specs::CycleLines::step_line, crate::specs::LineForms::step_due))]
fn step_of(mut line: Line) -> Result<LinkStep, Fault>
    ensures text { IfOk result (λ s. (line.entry.rest.now ≡ step_line s) × HasText s) }
    ensures exact { result ≡ step_due line.entry.rest.now }
{
    let actor = line.digits()?;
    let number = line.worded(b" ")?;
    line.word(b" ")?;
    let link = link_of(line)?;
    Ok(LinkStep {
        to: FiringNo {
            actor: short(actor)?,
            number: long(number)?,
        },
        link,
    })
}

/// The link at the end of a line.
#[tactic(auto, unfolding(crate::specs::CycleLines::link_text, crate::specs::LineForms::link_due))]
fn link_of(line: Line) -> Result<Role, Fault>
    ensures text { IfOk result (λ r. line.entry.rest.now ≡ link_text r ++ 10 ∷ []) }
    ensures shown { IfOk result (λ r. (a b : ℕ) → r ≡ Order a b → ⊥) }
    ensures exact { result ≡ link_due line.entry.rest.now }
{
    match line.rest {
        [b't', rest @ ..] => Ok(Role::Token(last_short(Line { rest })?)),
        [b's', rest @ ..] => Ok(Role::Space(last_short(Line { rest })?)),
        [b'o', rest @ ..] => Ok(Role::Own(last_short(Line { rest })?)),
        _ => Err(Fault::Form),
    }
}

/// The number of 32 bits that is all that is left of a line.
#[tactic(auto, unfolding(crate::specs::LineForms::last_short_due))]
fn last_short(mut line: Line) -> Result<u32, Fault>
    ensures text { IfOk result (λ n. line.entry.rest.now ≡ decimal n ++ 10 ∷ []) }
    ensures exact { result ≡ last_short_due line.entry.rest.now }
{
    let number = line.digits()?;
    line.end()?;
    short(number)
}
