ghost use Rattle.std.specs.Prelude.{◌≡◌, ◌<◌, ◌++◌, Option, IfErr, OnOk, length, All};
ghost use Rattle.cert_text.specs.Limits.{IsCapacityWithin, IsMemberWithin, IsRateWithin, IsShownWithin, NamesWithin};
ghost use Rattle.std.specs.String.{string_bytes};
ghost use Rattle.std.specs.List.{flat_map};
ghost use Rattle.cert_text.specs.Overlong.{GivesUp};
ghost use Rattle.cert_text.specs.MemberLines.{capacity_text, member_line, member_lines, numbered_rate_line, shown_lines};
ghost use Rattle.cert_text.specs.Orderly.{NamesOneOf};

use crate::certificates::{LinkCycle, MemberLine, MemberShown};
use crate::error::CertError;
use crate::writing::cycles::put_cycle;
use crate::writing::numbers::{put_counts, put_rate, put_spaced};
use std::alloc::AllocError;

/// Puts the lines of a member.
#[tactic(auto, unfolding(crate::specs::MemberLines::member_lines))]
pub(crate) fn put_member(
    text: &mut String,
    member: &MemberLine,
    cycles: &[LinkCycle],
    version: u32,
) -> Result<(), CertError>
    requires { NamesOneOf (length cycles.now) member.now.shown }
    ensures text { OnOk result (string_bytes text.new ≡ string_bytes text.old ++ member_lines version cycles.now member.now) }
    ensures long { IfErr result (GivesUp (string_bytes text.old) (member_lines version cycles.now member.now)) }
    ensures within { OnOk result (IsMemberWithin member.now) }
    ensures named { OnOk result (version ≡ 1 → NamesWithin cycles.now member.now.shown) }
{
    put_capacities(text, member.capacities.capacities.as_slice())?;
    put_shown(text, &member.shown, cycles, version)
}

#[tactic(auto, unfolding(crate::specs::MemberLines::member_line))]
fn put_capacities(text: &mut String, capacities: &[Option<u64>]) -> Result<(), AllocError>
    ensures text { OnOk result (string_bytes text.new ≡ string_bytes text.old ++ member_line capacities.now) }
    ensures within { OnOk result (All IsCapacityWithin capacities.now) }
{
    text.push_str("member")?;
    put_each(text, capacities)?;
    text.push_str("\n")
}

fn put_each(text: &mut String, capacities: &[Option<u64>]) -> Result<(), AllocError>
    ensures text { OnOk result (string_bytes text.new ≡ string_bytes text.old ++ flat_map capacity_text capacities.now) }
    ensures within { OnOk result (All IsCapacityWithin capacities.now) }
{
    for capacity in capacities {
        put_capacity(text, *capacity)?;
    }
    Ok(())
}

#[tactic(auto, unfolding(crate::specs::MemberLines::capacity_text))]
fn put_capacity(text: &mut String, capacity: Option<u64>) -> Result<(), AllocError>
    ensures text { OnOk result (string_bytes text.new ≡ string_bytes text.old ++ capacity_text capacity) }
    ensures within { IsCapacityWithin capacity }
{
    match capacity {
        Some(capacity) => put_spaced(text, u128::from(capacity)),
        None => text.push_str(" -"),
    }
}

#[tactic(auto, unfolding(crate::specs::MemberLines::shown_lines, crate::specs::MemberLines::blocked_line))]
fn put_shown(
    text: &mut String,
    shown: &MemberShown,
    cycles: &[LinkCycle],
    version: u32,
) -> Result<(), CertError>
    requires { NamesOneOf (length cycles.now) shown.now }
    ensures text { OnOk result (string_bytes text.new ≡ string_bytes text.old ++ shown_lines version cycles.now shown.now) }
    ensures long { IfErr result (GivesUp (string_bytes text.old) (shown_lines version cycles.now shown.now)) }
    ensures within { OnOk result (IsShownWithin shown.now) }
    ensures named { OnOk result (version ≡ 1 → NamesWithin cycles.now shown.now) }
{
    match shown {
        MemberShown::Cycle { rate, cycle } => {
            if version == 1 {
                put_rate(text, *rate)?;
                put_cycle(text, &cycles[*cycle as usize])
            } else {
                Ok(put_numbered_rate(text, *rate, *cycle)?)
            }
        }
        MemberShown::Blocked { counts } => {
            text.push_str("blocked\n")?;
            Ok(put_counts(text, counts.as_slice())?)
        }
    }
}

#[tactic(auto, unfolding(crate::specs::MemberLines::numbered_rate_line))]
fn put_numbered_rate(text: &mut String, rate: (u64, u64), cycle: u64) -> Result<(), AllocError>
    ensures text { OnOk result (string_bytes text.new ≡ string_bytes text.old ++ numbered_rate_line rate cycle) }
    ensures within { IsRateWithin rate }
{
    let (num, den) = rate;
    write!(text, "rate {num}/{den} {cycle}\n")
}
