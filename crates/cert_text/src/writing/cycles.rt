ghost use Rattle.std.specs.Prelude.{◌≡◌, ◌++◌, IfErr, OnOk, All};
ghost use Rattle.cert_text.specs.Limits.{IsCycleWithin, IsFiringWithin, IsLinkWithin, IsLong, IsStepWithin};
ghost use Rattle.std.specs.String.{string_bytes};
ghost use Rattle.std.specs.List.{flat_map};
ghost use Rattle.cert_text.specs.Overlong.{GivesUp};
ghost use Rattle.cert_text.specs.CycleLines.{cycle_header, cycle_lines, link_text, step_line};

use crate::certificates::{LinkCycle, LinkStep};
use crate::error::CertError;
use crate::writing::limit::keep_within;
use critical::FiringNo;
use sd_base::Role;
use std::alloc::AllocError;

/// Puts the lines of a cycle.
#[tactic(auto, unfolding(crate::specs::CycleLines::cycle_lines))]
pub(crate) fn put_cycle(text: &mut String, cycle: &LinkCycle) -> Result<(), CertError>
    ensures text { OnOk result (string_bytes text.new ≡ string_bytes text.old ++ cycle_lines cycle.now) }
    ensures long { IfErr result (GivesUp (string_bytes text.old) (cycle_lines cycle.now)) }
    ensures within { OnOk result (IsCycleWithin cycle.now) }
{
    let steps = cycle.steps.as_slice();
    put_header(text, cycle.time, cycle.rounds, cycle.first, steps.len())?;
    put_steps(text, steps)
}

fn put_steps(text: &mut String, steps: &[LinkStep]) -> Result<(), CertError>
    ensures text { OnOk result (string_bytes text.new ≡ string_bytes text.old ++ flat_map step_line steps.now) }
    ensures long { IfErr result (GivesUp (string_bytes text.old) (flat_map step_line steps.now)) }
    ensures within { OnOk result (All IsStepWithin steps.now) }
{
    for step in steps {
        put_step(text, *step)?;
        keep_within(text)?;
    }
    Ok(())
}

#[tactic(auto, unfolding(crate::specs::CycleLines::cycle_header))]
fn put_header(
    text: &mut String,
    time: u64,
    rounds: u64,
    first: FiringNo,
    steps: usize,
) -> Result<(), AllocError>
    ensures text { OnOk result (string_bytes text.new ≡ string_bytes text.old ++ cycle_header time rounds first steps) }
    ensures within { IsLong time × IsLong rounds × IsFiringWithin first × IsLong steps }
{
    let actor = first.actor;
    let number = first.number;
    write!(text, "cycle {time} {rounds} {actor} {number} {steps}\n")
}

#[tactic(auto, unfolding(crate::specs::CycleLines::step_line))]
fn put_step(text: &mut String, step: LinkStep) -> Result<(), AllocError>
    ensures text { OnOk result (string_bytes text.new ≡ string_bytes text.old ++ step_line step) }
    ensures within { IsStepWithin step }
{
    let actor = step.to.actor;
    let number = step.to.number;
    write!(text, "{actor} {number} ")?;
    put_link(text, step.link)?;
    text.push_str("\n")
}

#[tactic(auto, unfolding(crate::specs::CycleLines::link_text))]
fn put_link(text: &mut String, link: Role) -> Result<(), AllocError>
    ensures text { OnOk result (string_bytes text.new ≡ string_bytes text.old ++ link_text link) }
    ensures within { IsLinkWithin link }
{
    match link {
        Role::Token(channel) => write!(text, "t{channel}"),
        Role::Space(channel) => write!(text, "s{channel}"),
        Role::Own(actor) => write!(text, "o{actor}"),
        Role::Order(_, _) => Ok(()),
    }
}
