//! The reasons for a quantity that passes its greatest number.

ghost use Rattle.std.specs.Prelude.{◌≡◌, IfOk};
ghost use Rattle.std.specs.String.{string_bytes};
ghost use Rattle.report.specs.declared.refusal.Class.TheVariants as classes;
ghost use Rattle.report.specs.RefusalLines.{above_reason, cause_of, edges_reason, ratio_reason, scenario_prefix};

use crate::Refusal;
use crate::reasons::scenarios::prefix_text;
use sd_base::Text;
use std::alloc::{AllocError, Global};

/// The reason for a quantity that passes its greatest number.
#[tactic(auto, unfolding(crate::specs::RefusalLines::cause_of))]
pub(crate) fn limit_reason(alloc: Global, refusal: &Refusal) -> Result<String, AllocError>
    requires { (cause_of refusal.now).class ≡ classes.Limit }
    ensures { IfOk result (λ t. string_bytes t ≡ (cause_of refusal.now).reason) }
{
    match refusal {
        Refusal::CertificateNumber => String::from_str(alloc, "certificate number too large"),
        Refusal::Above {
            scenario,
            quantity,
            number,
        } => above_text(alloc, scenario, quantity.as_str(), *number),
        Refusal::EdgesAt { number, at } => edges_text(alloc, *number, at.as_str()),
        Refusal::Ratio {
            scenario,
            number,
            path,
        } => ratio_text(alloc, scenario, *number, path.as_str()),
        _ => unreachable!(),
    }
}

#[tactic(auto, unfolding(crate::specs::RefusalLines::above_reason))]
fn above_text(
    alloc: Global,
    scenario: &Option<Text>,
    quantity: &str,
    number: u64,
) -> Result<String, AllocError>
    ensures { IfOk result (λ t. string_bytes t ≡ above_reason (scenario_prefix scenario.now) quantity.now number) }
{
    let prefix = prefix_text(alloc, scenario)?;
    let prefix = prefix.as_str();
    format!(in alloc; "{prefix}{quantity} above {number}")
}

#[tactic(auto, unfolding(crate::specs::RefusalLines::edges_reason))]
fn edges_text(alloc: Global, number: u64, at: &str) -> Result<String, AllocError>
    ensures { IfOk result (λ t. string_bytes t ≡ edges_reason number at.now) }
{
    format!(in alloc; "edges above {number} at {at}")
}

#[tactic(auto, unfolding(crate::specs::RefusalLines::ratio_reason))]
fn ratio_text(
    alloc: Global,
    scenario: &Option<Text>,
    number: u64,
    path: &str,
) -> Result<String, AllocError>
    ensures { IfOk result (λ t. string_bytes t ≡ ratio_reason (scenario_prefix scenario.now) number path.now) }
{
    let prefix = prefix_text(alloc, scenario)?;
    let prefix = prefix.as_str();
    format!(in alloc; "{prefix}ratio above {number} along {path}")
}
