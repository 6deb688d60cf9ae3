//! The distribution of buffers that are named.
ghost use Rattle.std.specs.Prelude.{◌≡◌, ◌==◌, None, IfErr, IfOk, nat_lt};
ghost use Rattle.std.specs.List.{list_any};
ghost use Rattle.std.specs.Str.{bytes_eq};
ghost use Rattle.sd_base.specs.declared.tables.ChannelRow.{ChannelRow};
ghost use Rattle.storage.specs.NamedBuffers.{Tells, capacities_of, capacity_named, fault_of, first_fault, has_named};
ghost use Rattle.storage.specs.declared.buffers.BufferError.TheVariants.{NoMemory as lacking};

use crate::distribution::Distribution;
use sd_base::{ChannelRow, GraphFile, Rows, Text};
use std::alloc::{AllocError, AllocFailed, Global};
use thiserror::Error;

/// Why buffers give no distribution: what is wrong with the first of them that has a fault.
#[derive(Debug, Drop, Error)]
pub enum BufferError {
    #[error("no channel has the name")]
    Unknown { name: Text },
    #[error("the channel is a self-loop")]
    SelfLoop { name: Text },
    #[error("the channel has more tokens than the capacity")]
    BelowTokens { name: Text },
    #[error("out of memory")]
    NoMemory,
}

impl From<AllocError> for BufferError {
    ghost from_gives = { λ _ e. e ≡ lacking };

    fn from(_error: AllocError) -> BufferError {
        BufferError::NoMemory
    }
}

impl<T: Drop> From<AllocFailed<T>> for BufferError {
    ghost from_gives = { λ _ e. e ≡ lacking };

    fn from(_error: AllocFailed<T>) -> BufferError {
        BufferError::NoMemory
    }
}

/// The distribution that gives each named channel its capacity, in tokens, and no other channel one.
/// Cost: the channels times the buffers.
pub fn buffers_of(
    alloc: Global,
    graph: &GraphFile,
    buffers: &[(Text, u64)],
) -> Result<Distribution, BufferError>
    ensures found { IfOk result (λ d. d.capacities ≡ capacities_of graph.now.channels buffers.now) }
    ensures whole { IfOk result (λ d. first_fault graph.now.channels buffers.now ≡ None) }
    ensures fault { IfErr result (λ e. Tells e (first_fault graph.now.channels buffers.now)) }
{
    check_all(alloc, graph.channels.as_slice(), buffers)?;
    let mut capacities = Vec::new(alloc);
    for channel in graph.channels.as_slice() {
        capacities.push(capacity_named(buffers, channel.name.as_str()))?;
    }
    Ok(Distribution {
        capacities: Rows::from_vec(capacities),
    })
}

// The capacity that a name is given.
fn capacity_named(buffers: &[(Text, u64)], name: &str) -> Option<u64>
    ensures { result ≡ capacity_named buffers.now name.now }
{
    buffers
        .iter()
        .find(|buffer| buffer.0.as_str() == name)
        .map(|buffer| buffer.1)
}

// Whether no buffer has a fault; else the first one's.
fn check_all(
    alloc: Global,
    channels: &[ChannelRow],
    buffers: &[(Text, u64)],
) -> Result<(), BufferError>
    ensures whole { IfOk result (λ done. first_fault channels.now buffers.now ≡ None) }
    ensures fault { IfErr result (λ e. Tells e (first_fault channels.now buffers.now)) }
{
    for buffer in buffers {
        check(alloc, channels, buffer)?;
    }
    Ok(())
}

// Whether a buffer has no fault.
#[tactic(auto, unfolding(crate::specs::NamedBuffers::fault_of))]
fn check(alloc: Global, channels: &[ChannelRow], buffer: &(Text, u64)) -> Result<(), BufferError>
    ensures whole { IfOk result (λ done. fault_of channels.now buffer.now ≡ None) }
    ensures fault { IfErr result (λ e. Tells e (fault_of channels.now buffer.now)) }
{
    let name = buffer.0.copy(alloc)?;
    if !is_known(channels, buffer.0.as_str()) {
        return Err(BufferError::Unknown { name });
    }
    if is_loop(channels, buffer.0.as_str()) {
        return Err(BufferError::SelfLoop { name });
    }
    if is_below_tokens(channels, buffer.0.as_str(), buffer.1) {
        return Err(BufferError::BelowTokens { name });
    }
    Ok(())
}

fn is_known(channels: &[ChannelRow], name: &str) -> bool
    ensures { result ≡ list_any (λ (c : ChannelRow). bytes_eq c.name name.now) channels.now }
{
    channels.iter().any(|channel| channel.name.as_str() == name)
}

fn is_loop(channels: &[ChannelRow], name: &str) -> bool
    ensures { result ≡ has_named channels.now name.now (λ c. c.source == c.target) }
{
    channels.iter().any(|channel| channel.name.as_str() == name && channel.source == channel.target)
}

fn is_below_tokens(channels: &[ChannelRow], name: &str, capacity: u64) -> bool
    ensures { result ≡ has_named channels.now name.now (λ c. nat_lt capacity c.tokens) }
{
    channels.iter().any(|channel| channel.name.as_str() == name && capacity < channel.tokens)
}
