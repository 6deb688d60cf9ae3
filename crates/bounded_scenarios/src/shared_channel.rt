//! The step and the corner of the channels that scenarios share, each seen as one channel over all of them.
ghost use Rattle.std.specs.Prelude.{◌≡◌, ◌≤◌, IfOk};
ghost use Rattle.sd_base.specs.Scenarios.{FileKeepsRules};
ghost use Rattle.levels.specs.Frontiers.{IsOver};
ghost use Rattle.storage.specs.Distributions.{storage_of};
ghost use Rattle.storage.specs.Steps.{IsCorner};
ghost use Rattle.bounded_scenarios.specs.SharedChannels.{shared_channels};
ghost use Rattle.bounded_scenarios.specs.Boundings.{looped_tokens};

use crate::merged::{is_looped, merged_of};
use levels::ChannelStep;
use sd_base::{NoMemory, Rows, ScenarioFile};
use std::alloc::Global;
use storage::Distribution;

/// The least distribution on the grid that any live one is above, by shared row, and its storage in tokens.
#[derive(Debug, Drop)]
pub struct Corner {
    pub capacities: Distribution,
    pub total: u64,
}

/// What a search knows of each shared channel, by shared row: its tokens count 1 each, and its step is the greatest common
/// divisor of its rates in all scenarios. Cost: linear in the channels of all scenarios, for each shared row.
pub fn channel_steps(alloc: Global, file: &ScenarioFile) -> Result<Rows<ChannelStep>, NoMemory>
    requires { FileKeepsRules file.now }
    ensures { IfOk result (IsOver (shared_channels file.now)) }
{
    let mut steps = Rows::new(alloc);
    for row in file.shared.as_slice() {
        let merged = merged_of(alloc, file.scenarios.as_slice(), row)?;
        steps.push(ChannelStep {
            size: 1,
            step: merged.step(),
        })?;
    }
    Ok(steps)
}

/// The corner of the shared channels. Cost: linear in the channels of all scenarios, for each shared row.
pub fn corner_of(alloc: Global, file: &ScenarioFile) -> Result<Corner, NoMemory>
    requires { FileKeepsRules file.now }
    ensures corner { IfOk result (λ corner. IsCorner (shared_channels file.now) corner.capacities.capacities) }
    ensures total { IfOk result (λ corner. corner.total ≡ storage_of (shared_channels file.now) corner.capacities.capacities) }
{
    let mut capacities = Rows::new(alloc);
    let mut total = 0;
    for row in file.shared.as_slice() {
        let merged = merged_of(alloc, file.scenarios.as_slice(), row)?;
        let entry = merged.corner();
        total += entry.unwrap_or(0);
        capacities.push(entry)?;
    }
    Ok(Corner {
        capacities: Distribution { capacities },
        total,
    })
}

/// The tokens of the shared rows that get no capacity, since their channel is a self-loop in some scenario. Cost: linear in
/// the channels of all scenarios, for each shared row.
pub fn looped_tokens(file: &ScenarioFile) -> u64
    requires { FileKeepsRules file.now }
    ensures { result ≡ looped_tokens file.now.scenarios file.now.shared }
{
    let mut tokens = 0;
    for row in file.shared.as_slice() {
        if is_looped(file.scenarios.as_slice(), &row.name) {
            tokens += row.tokens;
        }
    }
    tokens
}
