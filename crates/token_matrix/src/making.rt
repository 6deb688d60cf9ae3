//! The matrix of a scenario.
ghost use Rattle.std.specs.Prelude.{◌≡◌, ◌≤◌, ◌<◌, ◌+◌, ◌*◌, ℕ, false, IfOk, IfErr, OnOk, MatchOption, length, sum};
ghost use Rattle.sd_base.specs.declared.limits.TheConstants.{ROUND, STAMPS};
ghost use Rattle.sd_base.specs.declared.tables.Kind.TheVariants.{Sdf};
ghost use Rattle.sd_base.specs.Tables.{KeepsWideRules, IsTimed};
ghost use Rattle.sd_base.specs.Net.{IsRepetitionOf};
ghost use Rattle.sd_base.specs.FileNet.{net_of};
ghost use Rattle.sd_base.specs.Schedules.{HasInputs};
ghost use Rattle.sd_base.specs.Untimed.{IsLive};
ghost use Rattle.sd_base.specs.Scenarios.{shared_count, Shares};
ghost use Rattle.token_matrix.specs.Matrices.{IsMatrix};
ghost use Rattle.token_matrix.specs.MatrixRefusals.{IsMatrixRefusal};
ghost use Rattle.token_matrix.specs.Stamps.{first_token};
ghost use Rattle.token_matrix.specs.inside.Tokens.{AreFirstLines, IsFirstLine, IsNumberOf, AreHeld, AreLeftRows};
ghost use Rattle.token_matrix.specs.declared.making.MatrixError.TheVariants.{NoMemory};

use crate::entries::{Entry, unit_row};
use crate::line::Line;
use crate::matrix::Matrix;
use crate::round::run_round;
use firing::SdfNet;
use liveness::{Round, one_round};
use sd_base::limits::STAMPS;
use sd_base::{GraphFile, NoMemory, Rows, SharedRow, Text};
use std::alloc::Global;
use std::rc::Rc;
use thiserror::Error;

/// Why there is no matrix.
#[derive(Debug, Drop, Error)]
pub enum MatrixError {
    /// The firings of a round times the shared tokens pass their limit.
    #[error("the stamps of a round pass their limit")]
    Limit,
    /// No round can be completed. By actor the firings after which none can go on, and the first channel in file
    /// order on which an actor below its round lacks tokens.
    #[error("no round can be completed")]
    Blocked {
        counts: Rows<u64>,
        lacks: Rows<Option<u32>>,
    },
    #[error("out of memory")]
    NoMemory,
}

impl From<NoMemory> for MatrixError {
    ghost from_gives = { λ _ e. e ≡ NoMemory };

    fn from(_error: NoMemory) -> MatrixError {
        MatrixError::NoMemory
    }
}

/// The matrix of a scenario's graph with its repetition vector, over the tokens that scenarios share: a round is
/// carried out once on rows, one for each batch of tokens that is there (Geilen and Stuijk, 2010). Cost: the firings
/// of a round, times the channels of the actors fired, times the shared tokens; memory of a row, a word for each shared
/// token, for each firing of which tokens are there at one time, and of two words for each of its channels, and of a
/// word for each entry of the matrix.
pub fn matrix_of(
    alloc: Global,
    graph: &GraphFile,
    gamma: &[u64],
    shared: &[SharedRow],
) -> Result<Matrix, MatrixError>
    requires rules { KeepsWideRules graph.now }
    requires kind { graph.now.kind ≡ Sdf }
    requires timed { IsTimed graph.now }
    requires gamma { IsRepetitionOf graph.now gamma.now }
    requires small { sum gamma.now ≤ ROUND }
    requires inputs { HasInputs (net_of graph.now gamma.now false) }
    requires shares { Shares shared.now graph.now }
    ensures matrix { IfOk result (IsMatrix shared.now graph.now gamma.now) }
    ensures within { OnOk result (sum gamma.now * shared_count shared.now ≤ STAMPS) }
    ensures live { OnOk result (IsLive (net_of graph.now gamma.now false)) }
    ensures stopped { IfErr result (IsMatrixRefusal shared.now graph.now gamma.now) }
{
    let Some(tokens) = stamped_tokens(gamma, shared) else {
        return Err(MatrixError::Limit);
    };
    let net = SdfNet::new(alloc, graph, gamma, false)?;
    match one_round(alloc, &net)? {
        Round::Blocked { counts, lacks } => Err(MatrixError::Blocked { counts, lacks }),
        Round::Live { order } => {
            let mut lines = first_lines(alloc, graph, shared, tokens as usize)?;
            run_round(
                alloc,
                &net,
                order.as_slice(),
                tokens as usize,
                lines.as_mut_slice(),
            )?;
            let rows = left_rows(alloc, graph, shared, lines.as_slice())?;
            match Matrix::new(rows) {
                Some(matrix) => Ok(matrix),
                None => unreachable!(),
            }
        },
    }
}

/// The number of the shared tokens; none where the firings of a round times it pass their limit.
fn stamped_tokens(gamma: &[u64], shared: &[SharedRow]) -> Option<u64>
    requires some { 1 ≤ sum gamma.now }
    requires small { sum gamma.now ≤ ROUND }
    ensures { MatchOption result (STAMPS < sum gamma.now * shared_count shared.now)
        (λ n. (n ≡ shared_count shared.now) × (n ≤ STAMPS) × (sum gamma.now * n ≤ STAMPS)) }
{
    let firings = firings_of(gamma);
    match token_count(shared) {
        None => None,
        Some(tokens) => {
            if firings * tokens > STAMPS {
                return None;
            }
            Some(tokens)
        },
    }
}

/// The firings of a round.
fn firings_of(gamma: &[u64]) -> u64
    requires { sum gamma.now ≤ ROUND }
    ensures { result ≡ sum gamma.now }
{
    gamma.iter().sum()
}

/// The number of the shared tokens, if it isn't above the limit of stamps.
fn token_count(shared: &[SharedRow]) -> Option<u64>
    ensures { MatchOption result (STAMPS < shared_count shared.now) (λ n. (n ≡ shared_count shared.now) × (n ≤ STAMPS)) }
{
    let mut count = 0u64;
    for row in shared {
        if row.tokens > STAMPS - count {
            return None;
        }
        count += row.tokens;
    }
    Some(count)
}

/// The shared tokens on each channel before a round.
fn first_lines(
    alloc: Global,
    graph: &GraphFile,
    shared: &[SharedRow],
    size: usize,
) -> Result<Vec<Line>, NoMemory>
    requires size { size ≡ shared_count shared.now }
    requires few { size ≤ STAMPS }
    requires shares { Shares shared.now graph.now }
    ensures { IfOk result (λ lines. AreFirstLines shared.now graph.now lines.items) }
{
    let mut lines = Vec::new(alloc);
    for channel in graph.channels.as_slice() {
        let first = first_token(shared, &channel.name);
        lines.push(first_line(alloc, size, first as usize, channel.tokens as usize)?)?;
    }
    Ok(lines)
}

/// So many shared tokens, from a number on.
fn first_line(alloc: Global, size: usize, first: usize, tokens: usize) -> Result<Line, NoMemory>
    requires few { size ≤ STAMPS }
    requires inside { 1 ≤ tokens → first + tokens ≤ size }
    ensures { IfOk result (IsFirstLine size first tokens) }
{
    let mut line = Line::new(alloc);
    for place in 0..tokens {
        line.put(Rc::new(alloc, unit_row(alloc, size, first + place)?)?, 1)?;
    }
    Ok(line)
}

/// The number of the first shared token of the channel of a name; tokens are numbered through the rows. Cost: linear in the
/// rows.
pub fn first_token(shared: &[SharedRow], name: &Text) -> u64
    requires { shared_count shared.now ≤ STAMPS }
    ensures { result ≡ first_token shared.now name.now }
{
    let mut first = 0u64;
    for row in shared {
        if row.name.is_same(name) {
            return first;
        }
        first += row.tokens;
    }
    first
}

/// The rows of the tokens that are left after a round, in the order of the shared tokens in whose places they are.
fn left_rows(
    alloc: Global,
    graph: &GraphFile,
    shared: &[SharedRow],
    lines: &[Line],
) -> Result<Rows<Rows<Entry>>, NoMemory>
    requires shares { Shares shared.now graph.now }
    requires long { length lines.now ≡ length graph.now.channels }
    requires held { AreHeld graph.now lines.now }
    ensures { IfOk result (AreLeftRows shared.now graph.now lines.now) }
{
    let mut rows = Rows::new(alloc);
    for row in shared {
        lines[channel_named(graph, &row.name)].spell(alloc, &mut rows)?;
    }
    Ok(rows)
}

/// The channel of a name.
fn channel_named(graph: &GraphFile, name: &Text) -> usize
    requires { (i : ℕ) × IsNumberOf graph.now name.now i }
    ensures { IsNumberOf graph.now name.now result }
{
    for (number, channel) in graph.channels.as_slice().iter().enumerate() {
        if channel.name.is_same(name) {
            return number;
        }
    }
    unreachable!()
}
