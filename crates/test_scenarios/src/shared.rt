ghost use Rattle.std.specs.Prelude.{◌≡◌, ◌≢◌, ◌≤◌, ◌<◌, ℕ, Some, true, length, slice_get};
ghost use Rattle.sd_base.specs.declared.tables.ChannelRow.{ChannelRow as AChannel};
ghost use Rattle.sd_base.specs.declared.tables.SharedRow.{SharedRow as ARow};
ghost use Rattle.sd_base.specs.Scenarios.{Shares};
ghost use Rattle.test_scenarios.specs.Sharing.{BeginWith, IsOf};

use balance::repetition;
use firing::SdfNet;
use sd_base::{ChannelRow, GraphFile, Rows, SharedRow};
use std::alloc::{AllocError, Global};
use std::process::Abort;
use test_nets::{is_fed, is_lawful};
use token_matrix::{Entry, Matrix, MatrixError, matrix_of};

/// The matrix of a graph whose first channels are the shared ones, in order.
pub(crate) fn matrix(
    rt: &impl Abort,
    alloc: Global,
    graph: &GraphFile,
    shared: &[SharedRow],
) -> Result<Matrix, MatrixError> {
    assert!(rt; is_lawful(graph));
    assert!(rt; shares(graph, shared));
    match repetition(alloc, graph) {
        Err(_) => panic!(rt; "a graph that isn't balanced"),
        Ok(gamma) => {
            let net = SdfNet::new(alloc, graph, gamma.as_slice(), false)?;
            assert!(rt; is_fed(&net));
            matrix_of(alloc, graph, gamma.as_slice(), shared)
        }
    }
}

fn shares(graph: &GraphFile, shared: &[SharedRow]) -> bool
    ensures { result ≡ true → Shares shared.now graph.now }
{
    begin_with(graph.channels.as_slice(), shared)
}

/// Whether the first channels are the shared ones in order, and the others have no tokens; no two channels may have one name.
fn begin_with(channels: &[ChannelRow], shared: &[SharedRow]) -> bool
    ensures { result ≡ true → BeginWith shared.now channels.now }
{
    if shared.len() > channels.len() {
        return false;
    }
    if !are_of(shared, channels) {
        return false;
    }
    if !are_empty_from(channels, shared.len()) {
        return false;
    }
    names_differ(channels)
}

fn are_of(shared: &[SharedRow], channels: &[ChannelRow]) -> bool
    requires { length shared.now ≤ length channels.now }
    ensures { result ≡ true → (s : ℕ) (row : ARow) (c : AChannel) → slice_get shared.now s ≡ Some row → slice_get channels.now s ≡ Some c → IsOf row c }
{
    for place in 0..shared.len() {
        if !is_of(&shared[place], &channels[place]) {
            return false;
        }
    }
    true
}

/// Whether a channel has the name of a row, and as many tokens.
fn is_of(row: &SharedRow, channel: &ChannelRow) -> bool
    ensures { result ≡ true → IsOf row.now channel.now }
{
    row.tokens >= 1 && channel.tokens == row.tokens && channel.name.as_str() == row.name.as_str()
}

fn are_empty_from(channels: &[ChannelRow], from: usize) -> bool
    ensures { result ≡ true → (i : ℕ) (c : AChannel) → slice_get channels.now i ≡ Some c → from ≤ i → c.tokens ≡ 0 }
{
    for place in from..channels.len() {
        if channels[place].tokens != 0 {
            return false;
        }
    }
    true
}

fn names_differ(channels: &[ChannelRow]) -> bool
    ensures { result ≡ true → (j : ℕ) (d : AChannel) → slice_get channels.now j ≡ Some d →
        (i : ℕ) (c : AChannel) → slice_get channels.now i ≡ Some c → i < j → c.name ≢ d.name }
{
    for place in 0..channels.len() {
        if !is_new(channels, place, channels[place].name.as_str()) {
            return false;
        }
    }
    true
}

/// Whether none of the channels before a place has a name.
fn is_new(channels: &[ChannelRow], place: usize, name: &str) -> bool
    requires { place ≤ length channels.now }
    ensures { result ≡ true → (i : ℕ) (c : AChannel) → slice_get channels.now i ≡ Some c → i < place → c.name ≢ name.now }
{
    for before in 0..place {
        if channels[before].name.as_str() == name {
            return false;
        }
    }
    true
}

/// Rows of these entries, as many to a row.
pub(crate) fn rows_of(
    alloc: Global,
    rows: &[&[Option<u32>]],
) -> Result<Rows<Rows<Entry>>, AllocError> {
    let mut list = Rows::new(alloc);
    for row in rows {
        list.push(row_of(alloc, *row)?)?;
    }
    Ok(list)
}

fn row_of(alloc: Global, entries: &[Option<u32>]) -> Result<Rows<Entry>, AllocError> {
    let mut row = Rows::new(alloc);
    for entry in entries {
        row.push(place_of(*entry))?;
    }
    Ok(row)
}

fn place_of(entry: Option<u32>) -> Entry {
    match entry {
        Some(entry) => Entry::new(u64::from(entry)),
        None => Entry::none(),
    }
}
