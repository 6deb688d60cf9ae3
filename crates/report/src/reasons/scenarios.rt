//! The scenario that a reason speaks of.

ghost use Rattle.std.specs.Prelude.{◌≡◌, IfOk};
ghost use Rattle.std.specs.String.{string_bytes};
ghost use Rattle.report.specs.RefusalLines.{scenario_prefix};

use sd_base::Text;
use std::alloc::{AllocError, Global};

#[tactic(auto, unfolding(crate::specs::RefusalLines::scenario_prefix))]
pub(crate) fn prefix_text(alloc: Global, scenario: &Option<Text>) -> Result<String, AllocError>
    ensures { IfOk result (λ t. string_bytes t ≡ scenario_prefix scenario.now) }
{
    match scenario {
        None => Ok(String::new(alloc)),
        Some(name) => {
            let name = name.as_str();
            format!(in alloc; "scenario {name}: ")
        }
    }
}
