ghost use Rattle.std.specs.Prelude.{IfErr, IfOk};
ghost use Rattle.loops.specs.LoopAnswers.{IsFound, IsRunRefusal as IsRunError};
ghost use Rattle.sd_base.specs.Net.{Net as ANet};
ghost use Rattle.sd_steps.specs.Findings.{IsRunRefusal, finding};
ghost use Rattle.sd_steps.specs.Steps.{Does};

use crate::reading::above;
use crate::stop::Stop;
use firing::LoopTable;
use loops::RunError;
use report::Refusal;
use sd_base::{NoMemory, Quantity};
use std::alloc::Global;

/// The loop that an execution found among so many shapes, or the refusal of one that passed a bound.
pub fn found(
    alloc: Global,
    answer: Result<LoopTable, RunError>,
    states: u64,
) -> Result<LoopTable, Stop>
    ensures { (net : ANet) → IfOk answer (IsFound net states) → IfErr answer (IsRunError net states) → Does (finding net states) result }
{
    match answer {
        Ok(table) => Ok(table),
        Err(error) => Err(Stop::Refused(run_refusal(alloc, error, states)?)),
    }
}

/// The refusal of an execution that passes a bound. Want of memory has none.
pub fn run_refusal(alloc: Global, error: RunError, states: u64) -> Result<Refusal, NoMemory>
    ensures { (net : ANet) → IsRunError net states error → IfOk result (IsRunRefusal net states) }
{
    match error {
        RunError::StatesSpent => Ok(Refusal::StatesSpent { states, at: None }),
        RunError::TooManyStarts => above(alloc, Quantity::Starts),
        RunError::NoMemory => Err(NoMemory),
    }
}
