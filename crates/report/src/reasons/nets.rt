//! The reasons for a graph that has no round, isn't connected, or is blocked.

ghost use Rattle.std.specs.Prelude.{◌≡◌, IfOk};
ghost use Rattle.std.specs.String.{string_bytes};
ghost use Rattle.report.specs.RefusalLines.{apart_reason, cause_of, deadlock_reason, inconsistent_reason, no_input_reason, one_way_reason, scenario_prefix};
ghost use Rattle.report.specs.inside.Classes.{IsOfNet};

use crate::Refusal;
use crate::reasons::scenarios::prefix_text;
use sd_base::Text;
use std::alloc::{AllocError, Global};

/// The reason for a graph without a round, a way or an input, and for a net that is blocked.
#[tactic(auto, unfolding(crate::specs::RefusalLines::cause_of))]
pub(crate) fn net_reason(alloc: Global, refusal: &Refusal) -> Result<String, AllocError>
    requires { IsOfNet (cause_of refusal.now).class }
    ensures { IfOk result (λ t. string_bytes t ≡ (cause_of refusal.now).reason) }
{
    match refusal {
        Refusal::Inconsistent {
            scenario,
            walk,
            num,
            den,
        } => inconsistent_text(alloc, scenario, walk.as_str(), *num, *den),
        Refusal::Apart { scenario, a, b } => apart_text(alloc, scenario, a.as_str(), b.as_str()),
        Refusal::OneWay { from, to } => one_way_text(alloc, from.as_str(), to.as_str()),
        Refusal::NoInput { scenario, actor } => no_input_text(alloc, scenario, actor.as_str()),
        Refusal::Deadlock { scenario, list } => deadlock_text(alloc, scenario, list.as_str()),
        _ => unreachable!(),
    }
}

#[tactic(auto, unfolding(crate::specs::RefusalLines::inconsistent_reason))]
fn inconsistent_text(
    alloc: Global,
    scenario: &Option<Text>,
    walk: &str,
    num: u128,
    den: u128,
) -> Result<String, AllocError>
    ensures { IfOk result (λ t. string_bytes t ≡ inconsistent_reason (scenario_prefix scenario.now) walk.now num den) }
{
    let prefix = prefix_text(alloc, scenario)?;
    let prefix = prefix.as_str();
    format!(in alloc; "{prefix}walk {walk} ratio {num}/{den}")
}

#[tactic(auto, unfolding(crate::specs::RefusalLines::apart_reason))]
fn apart_text(
    alloc: Global,
    scenario: &Option<Text>,
    a: &str,
    b: &str,
) -> Result<String, AllocError>
    ensures { IfOk result (λ t. string_bytes t ≡ apart_reason (scenario_prefix scenario.now) a.now b.now) }
{
    let prefix = prefix_text(alloc, scenario)?;
    let prefix = prefix.as_str();
    format!(in alloc; "{prefix}{a} and {b} are apart")
}

#[tactic(auto, unfolding(crate::specs::RefusalLines::one_way_reason))]
fn one_way_text(alloc: Global, from: &str, to: &str) -> Result<String, AllocError>
    ensures { IfOk result (λ t. string_bytes t ≡ one_way_reason from.now to.now) }
{
    format!(in alloc; "no way from {from} to {to}")
}

#[tactic(auto, unfolding(crate::specs::RefusalLines::no_input_reason))]
fn no_input_text(alloc: Global, scenario: &Option<Text>, actor: &str) -> Result<String, AllocError>
    ensures { IfOk result (λ t. string_bytes t ≡ no_input_reason (scenario_prefix scenario.now) actor.now) }
{
    let prefix = prefix_text(alloc, scenario)?;
    let prefix = prefix.as_str();
    format!(in alloc; "{prefix}{actor} has no input")
}

#[tactic(auto, unfolding(crate::specs::RefusalLines::deadlock_reason))]
fn deadlock_text(alloc: Global, scenario: &Option<Text>, list: &str) -> Result<String, AllocError>
    ensures { IfOk result (λ t. string_bytes t ≡ deadlock_reason (scenario_prefix scenario.now) list.now) }
{
    let prefix = prefix_text(alloc, scenario)?;
    let prefix = prefix.as_str();
    format!(in alloc; "{prefix}{list}")
}
