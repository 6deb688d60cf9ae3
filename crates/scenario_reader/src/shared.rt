//! The channels that have tokens between rounds, which all scenarios share.

ghost use Rattle.std.specs.Prelude.{◌≡◌, ◌+◌, ◌*◌, not, length, min, IfOk};
ghost use Rattle.std.specs.List.{find, list_any};
ghost use Rattle.std.specs.Option.{option_copied};
ghost use Rattle.sd_base.specs.Scenarios.{shared_count};
ghost use Rattle.sd_base.specs.declared.tables.SharedRow.{SharedRow};
ghost use Rattle.graph_reader.specs.TreeSteps.{Gives};
ghost use Rattle.scenario_reader.specs.ScenarioSections.{rows_of, is_same_row, stray, share, all_share, shared_of};

use graph_reader::ReadError;
use graph_reader::walk::shared_differ;
use sd_base::limits::NODES;
use sd_base::{ChannelRow, Rows, ScenarioRow, SharedRow};
use std::alloc::{AllocError, Global};

/// The rows of the channels with tokens.
fn rows_of(alloc: Global, channels: &[ChannelRow]) -> Result<Rows<SharedRow>, AllocError>
    ensures { IfOk result (λ rows. rows ≡ rows_of channels.now) }
{
    let mut rows = Rows::new(alloc);
    let mut left = channels;
    while let [first, rest @ ..] = left {
        if first.tokens != 0 {
            rows.push(SharedRow {
                name: first.name.copy(alloc)?,
                tokens: first.tokens,
            })?;
        }
        left = rest;
    }
    Ok(rows)
}

fn is_same_row(a: &SharedRow, b: &SharedRow) -> bool
    ensures { result ≡ is_same_row a.now b.now }
{
    b.name.as_str() == a.name.as_str() && b.tokens == a.tokens
}

fn has_row(rows: &[SharedRow], row: &SharedRow) -> bool
    ensures { result ≡ list_any (is_same_row row.now) rows.now }
{
    rows.iter().any(|other| is_same_row(row, other))
}

/// The first row that none of the others is.
fn stray<'a>(rows: &'a [SharedRow], others: &[SharedRow]) -> Option<&'a SharedRow>
    ensures { option_copied result ≡ stray rows.now others.now }
{
    let mut left = rows;
    while let [first, rest @ ..] = left {
        if !has_row(others, first) {
            return Some(first);
        }
        left = rest;
    }
    None
}

#[tactic(auto, unfolding(crate::specs::ScenarioSections::share))]
fn share(alloc: Global, shared: &[SharedRow], rows: &[SharedRow]) -> Result<(), ReadError>
    ensures { Gives (λ _. shared.now) result (share shared.now rows.now) }
{
    if let Some(row) = stray(shared, rows) {
        return Err(shared_differ(alloc, row.name.as_str()));
    }
    if let Some(row) = stray(rows, shared) {
        return Err(shared_differ(alloc, row.name.as_str()));
    }
    Ok(())
}

#[tactic(auto, unfolding(crate::specs::ScenarioSections::all_share))]
fn all_share(
    alloc: Global,
    shared: &[SharedRow],
    scenarios: &[ScenarioRow],
) -> Result<(), ReadError>
    ensures { Gives (λ _. shared.now) result (all_share shared.now scenarios.now) }
{
    let mut left = scenarios;
    while let [first, rest @ ..] = left {
        let rows = rows_of(alloc, first.graph.channels.as_slice())?;
        share(alloc, shared, rows.as_slice())?;
        left = rest;
    }
    Ok(())
}

/// The shared channels: those of the first scenario, which all others have.
#[tactic(auto, unfolding(crate::specs::ScenarioSections::shared_of))]
pub(crate) fn read_shared(
    alloc: Global,
    scenarios: &[ScenarioRow],
) -> Result<Rows<SharedRow>, ReadError>
    ensures { Gives (λ rows. rows) result (shared_of scenarios.now) }
{
    let [first, rest @ ..] = scenarios else {
        return Ok(Rows::new(alloc));
    };
    let shared = rows_of(alloc, first.graph.channels.as_slice())?;
    all_share(alloc, shared.as_slice(), rest)?;
    Ok(shared)
}

/// How many tokens are shared; one more than a timed graph may have nodes stands for more.
pub(crate) fn count_shared(shared: &[SharedRow]) -> u64
    ensures { result ≡ min (shared_count shared.now) (NODES + 1) }
{
    let mut count: u64 = 0;
    for row in shared {
        count = (count + row.tokens.min(NODES + 1)).min(NODES + 1);
    }
    count
}
