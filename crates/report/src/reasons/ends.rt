//! The reasons for a budget that is spent, a certificate that isn't valid, and a file that can't be taken or put.

ghost use Rattle.std.specs.Prelude.{◌≡◌, IfOk};
ghost use Rattle.std.specs.String.{string_bytes};
ghost use Rattle.report.specs.RefusalLines.{at_list, cause_of, distributions_reason, rejected_reason, states_reason};
ghost use Rattle.report.specs.inside.Classes.{IsOfEnd};

use crate::Refusal;
use sd_base::Text;
use std::alloc::{AllocError, Global};

/// The reason for a budget that is spent, a certificate that isn't valid, and a file that can't be taken or put.
#[tactic(auto, unfolding(crate::specs::RefusalLines::cause_of))]
pub(crate) fn end_reason(alloc: Global, refusal: &Refusal) -> Result<String, AllocError>
    requires { IsOfEnd (cause_of refusal.now).class }
    ensures { IfOk result (λ t. string_bytes t ≡ (cause_of refusal.now).reason) }
{
    match refusal {
        Refusal::StatesSpent { states, at } => states_text(alloc, *states, at),
        Refusal::DistributionsSpent { number } => distributions_text(alloc, *number),
        Refusal::Rejected { line, reason } => rejected_text(alloc, *line, reason.as_str()),
        Refusal::ShelfGraph => String::from_str(alloc, "graph"),
        Refusal::ShelfCertificate => String::from_str(alloc, "certificate"),
        Refusal::ShelfOutput => String::from_str(alloc, "output"),
        _ => unreachable!(),
    }
}

#[tactic(auto, unfolding(crate::specs::RefusalLines::states_reason))]
fn states_text(alloc: Global, states: u64, at: &Option<Text>) -> Result<String, AllocError>
    ensures { IfOk result (λ t. string_bytes t ≡ states_reason states (at_list at.now)) }
{
    let at = at_text(alloc, at)?;
    let at = at.as_str();
    format!(in alloc; "{states} states without a repeat{at}")
}

#[tactic(auto, unfolding(crate::specs::RefusalLines::at_list))]
fn at_text(alloc: Global, at: &Option<Text>) -> Result<String, AllocError>
    ensures { IfOk result (λ t. string_bytes t ≡ at_list at.now) }
{
    match at {
        None => Ok(String::new(alloc)),
        Some(list) => {
            let list = list.as_str();
            format!(in alloc; " at {list}")
        }
    }
}

#[tactic(auto, unfolding(crate::specs::RefusalLines::distributions_reason))]
fn distributions_text(alloc: Global, number: u64) -> Result<String, AllocError>
    ensures { IfOk result (λ t. string_bytes t ≡ distributions_reason number) }
{
    format!(in alloc; "more than {number} distributions")
}

#[tactic(auto, unfolding(crate::specs::RefusalLines::rejected_reason))]
fn rejected_text(alloc: Global, line: u64, reason: &str) -> Result<String, AllocError>
    ensures { IfOk result (λ t. string_bytes t ≡ rejected_reason line reason.now) }
{
    format!(in alloc; "line {line}: {reason}")
}
