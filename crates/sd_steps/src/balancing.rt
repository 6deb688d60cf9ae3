ghost use Rattle.std.specs.Prelude.{◌<◌, IfOk, None};
ghost use Rattle.sd_base.specs.Tables.{KeepsRules};
ghost use Rattle.balance.specs.Repetition.{IsApart, IsRatioTooLarge, IsRefusal, IsUnbalanced};
ghost use Rattle.sd_steps.specs.Balancings.{IsBalanceRefusal, balancing};
ghost use Rattle.sd_steps.specs.Steps.{Does};

use crate::actor_names::name_of;
use crate::reading::above;
use crate::stop::Stop;
use balance::{BalanceError, WalkStep, repetition};
use report::{Refusal, walk_text};
use sd_base::{GraphFile, NoMemory, Quantity, Rows};
use std::alloc::Global;

/// The repetition vector of a graph.
pub fn balanced(alloc: Global, graph: &GraphFile) -> Result<Rows<u64>, Stop>
    requires { KeepsRules graph.now }
    ensures { Does (balancing graph.now) result }
{
    match repetition(alloc, graph) {
        Ok(gamma) => Ok(gamma),
        Err(error) => Err(Stop::Refused(balance_refusal(alloc, graph, &error)?)),
    }
}

// The refusal of a graph that has no repetition vector within the limits.
fn balance_refusal(
    alloc: Global,
    graph: &GraphFile,
    error: &BalanceError,
) -> Result<Refusal, NoMemory>
    requires keeps { KeepsRules graph.now }
    requires cause { IsRefusal graph.now error.now }
    ensures { IfOk result (IsBalanceRefusal graph.now) }
{
    match error {
        BalanceError::Apart { a, b } => apart(alloc, graph, *a, *b),
        BalanceError::RatioTooLarge { path } => ratio(alloc, graph, path.as_slice()),
        BalanceError::Unbalanced { walk, num, den } => inconsistent(
            alloc,
            graph,
            walk.as_slice(),
            *num,
            *den,
        ),
        BalanceError::RoundTooLarge => above(alloc, Quantity::Round),
        BalanceError::NoMemory => Err(NoMemory),
    }
}

fn apart(alloc: Global, graph: &GraphFile, a: u32, b: u32) -> Result<Refusal, NoMemory>
    requires keeps { KeepsRules graph.now }
    requires cause { IsApart graph.now a b }
    ensures { IfOk result (IsBalanceRefusal graph.now) }
{
    Ok(Refusal::Apart {
        scenario: None,
        a: name_of(alloc, graph, a)?,
        b: name_of(alloc, graph, b)?,
    })
}

fn ratio(alloc: Global, graph: &GraphFile, path: &[WalkStep]) -> Result<Refusal, NoMemory>
    requires { IsRatioTooLarge graph.now path.now }
    ensures { IfOk result (IsBalanceRefusal graph.now) }
{
    Ok(Refusal::Ratio {
        scenario: None,
        number: Quantity::Ratio.greatest(),
        path: walk_text(alloc, graph, path)?,
    })
}

fn inconsistent(
    alloc: Global,
    graph: &GraphFile,
    walk: &[WalkStep],
    num: u128,
    den: u128,
) -> Result<Refusal, NoMemory>
    requires { IsUnbalanced graph.now walk.now num den }
    ensures { IfOk result (IsBalanceRefusal graph.now) }
{
    Ok(Refusal::Inconsistent {
        scenario: None,
        walk: walk_text(alloc, graph, walk)?,
        num,
        den,
    })
}
