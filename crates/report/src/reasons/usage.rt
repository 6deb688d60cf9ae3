//! The reasons for words that aren't those of a command.

ghost use Rattle.std.specs.Prelude.{◌≡◌, IfOk};
ghost use Rattle.std.specs.String.{string_bytes};
ghost use Rattle.report.specs.declared.refusal.Class.TheVariants as classes;
ghost use Rattle.report.specs.RefusalLines.{bad_value_reason, cause_of, missing_reason, not_for_reason};

use crate::Refusal;
use std::alloc::{AllocError, Global};

/// The reason for words that aren't those of a command.
#[tactic(auto, unfolding(crate::specs::RefusalLines::cause_of))]
pub(crate) fn usage_reason(alloc: Global, refusal: &Refusal) -> Result<String, AllocError>
    requires { (cause_of refusal.now).class ≡ classes.Usage }
    ensures { IfOk result (λ t. string_bytes t ≡ (cause_of refusal.now).reason) }
{
    match refusal {
        Refusal::UsageWords => String::from_str(alloc, "words"),
        Refusal::UsageMissing { option } => missing_text(alloc, option.as_str()),
        Refusal::UsageNotFor { option, algo } => not_for_text(
            alloc,
            option.as_str(),
            algo.as_str(),
        ),
        Refusal::UsageBadValue { option } => bad_value_text(alloc, option.as_str()),
        _ => unreachable!(),
    }
}

#[tactic(auto, unfolding(crate::specs::RefusalLines::missing_reason))]
fn missing_text(alloc: Global, option: &str) -> Result<String, AllocError>
    ensures { IfOk result (λ t. string_bytes t ≡ missing_reason option.now) }
{
    format!(in alloc; "missing --{option}")
}

#[tactic(auto, unfolding(crate::specs::RefusalLines::not_for_reason))]
fn not_for_text(alloc: Global, option: &str, algo: &str) -> Result<String, AllocError>
    ensures { IfOk result (λ t. string_bytes t ≡ not_for_reason option.now algo.now) }
{
    format!(in alloc; "--{option} is not for {algo}")
}

#[tactic(auto, unfolding(crate::specs::RefusalLines::bad_value_reason))]
fn bad_value_text(alloc: Global, option: &str) -> Result<String, AllocError>
    ensures { IfOk result (λ t. string_bytes t ≡ bad_value_reason option.now) }
{
    format!(in alloc; "bad value of --{option}")
}
