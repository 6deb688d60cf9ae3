//! Requests, made of the values that are read.

ghost use Rattle.std.specs.Prelude.{◌≡◌, IfOk};
ghost use Rattle.sd_words.specs.declared.names.Algorithm.TheVariants as algorithms;
ghost use Rattle.sd_words.specs.Asked.{AreRead, actors_of, distributions_of, limits_of, request_for, states_of, total_of};
ghost use Rattle.sd_words.specs.Readings.{seen};

use crate::readings::Readings;
use crate::table::USUAL_ACTORS;
use crate::{Algorithm, OptionName, Request};
use sd_base::Limits;
use sd_base::limits::{LEAST_ROUNDS, USUAL_DISTRIBUTIONS, USUAL_STATES};
use std::alloc::{AllocError, Global};

/// The bound on the states of an execution.
fn states_of(values: &Readings) -> u64
    ensures { result ≡ states_of (seen values.now) }
{
    values.number_or(OptionName::States, USUAL_STATES)
}

/// The greatest total of a distribution: a required option, for which no other number stands.
fn total_of(values: &Readings) -> u64
    ensures { result ≡ total_of (seen values.now) }
{
    values.number_or(OptionName::Limit, 0)
}

/// The bound on the distributions of an exploration.
fn distributions_of(values: &Readings) -> u64
    ensures { result ≡ distributions_of (seen values.now) }
{
    values.number_or(OptionName::Distributions, USUAL_DISTRIBUTIONS)
}

/// What an exploration may use.
fn limits_of(values: &Readings) -> Limits
    ensures { result ≡ limits_of (seen values.now) }
{
    Limits {
        total: total_of(values),
        states: states_of(values),
        distributions: distributions_of(values),
    }
}

/// The actors of a graph that is made.
fn actors_of(values: &Readings) -> u32
    requires { AreRead algorithms.Generate (seen values.now) }
    ensures { result ≡ actors_of (seen values.now) }
{
    let actors = values.number_or(OptionName::Actors, USUAL_ACTORS);
    actors as u32
}

/// The request of values that are as the algorithm asks. What it holds of buffers and orders is taken out of them.
pub(crate) fn request_for(
    alloc: Global,
    algo: Algorithm,
    values: &mut Readings,
) -> Result<Request, AllocError>
    requires { AreRead algo (seen values.old) }
    ensures { IfOk result (λ request. request ≡ request_for algo (seen values.old)) }
{
    match algo {
        Algorithm::Repetition => repetition_request(alloc, values),
        Algorithm::Throughput => throughput_request(alloc, values),
        Algorithm::Storage => storage_request(alloc, values),
        Algorithm::Scenario => scenario_request(alloc, values),
        Algorithm::Check => check_request(alloc, values),
        Algorithm::Generate => Ok(generate_request(values)),
        Algorithm::Convert => convert_request(alloc, values),
        Algorithm::Expand => expand_request(alloc, values),
        Algorithm::Ordered => ordered_request(alloc, values),
        Algorithm::Complete => complete_request(alloc, values),
        Algorithm::ScenarioStorage => scenario_storage_request(alloc, values),
    }
}

#[tactic(auto, unfolding(crate::specs::Asked::request_for))]
fn repetition_request(alloc: Global, values: &Readings) -> Result<Request, AllocError>
    ensures { IfOk result (λ request. request ≡ request_for algorithms.Repetition (seen values.now)) }
{
    Ok(Request::Repetition {
        graph: values.name(alloc, OptionName::Graph)?,
    })
}

#[tactic(auto, unfolding(crate::specs::Asked::request_for))]
fn throughput_request(alloc: Global, values: &mut Readings) -> Result<Request, AllocError>
    ensures { IfOk result (λ request. request ≡ request_for algorithms.Throughput (seen values.old)) }
{
    Ok(Request::Throughput {
        graph: values.name(alloc, OptionName::Graph)?,
        no_overlap: values.has(OptionName::NoOverlap),
        states: states_of(values),
        certificate: values.text(alloc, OptionName::Certificate)?,
        buffers: values.take_buffers(alloc, OptionName::Buffers),
    })
}

#[tactic(auto, unfolding(crate::specs::Asked::request_for))]
fn storage_request(alloc: Global, values: &Readings) -> Result<Request, AllocError>
    ensures { IfOk result (λ request. request ≡ request_for algorithms.Storage (seen values.now)) }
{
    Ok(Request::Storage {
        graph: values.name(alloc, OptionName::Graph)?,
        limits: limits_of(values),
        no_overlap: values.has(OptionName::NoOverlap),
        certificate: values.text(alloc, OptionName::Certificate)?,
    })
}

#[tactic(auto, unfolding(crate::specs::Asked::request_for))]
fn scenario_request(alloc: Global, values: &Readings) -> Result<Request, AllocError>
    ensures { IfOk result (λ request. request ≡ request_for algorithms.Scenario (seen values.now)) }
{
    Ok(Request::Scenario {
        graph: values.name(alloc, OptionName::Graph)?,
        certificate: values.text(alloc, OptionName::Certificate)?,
    })
}

#[tactic(auto, unfolding(crate::specs::Asked::request_for))]
fn check_request(alloc: Global, values: &Readings) -> Result<Request, AllocError>
    ensures { IfOk result (λ request. request ≡ request_for algorithms.Check (seen values.now)) }
{
    Ok(Request::Check {
        graph: values.name(alloc, OptionName::Graph)?,
        certificate: values.name(alloc, OptionName::Certificate)?,
    })
}

#[tactic(auto, unfolding(crate::specs::Asked::request_for))]
fn generate_request(values: &Readings) -> Request
    requires { AreRead algorithms.Generate (seen values.now) }
    ensures { result ≡ request_for algorithms.Generate (seen values.now) }
{
    Request::Generate {
        seed: values.number_or(OptionName::Seed, 0),
        limit: total_of(values),
        actors: actors_of(values),
    }
}

#[tactic(auto, unfolding(crate::specs::Asked::request_for))]
fn convert_request(alloc: Global, values: &Readings) -> Result<Request, AllocError>
    ensures { IfOk result (λ request. request ≡ request_for algorithms.Convert (seen values.now)) }
{
    Ok(Request::Convert {
        certificate: values.name(alloc, OptionName::Certificate)?,
        output: values.name(alloc, OptionName::Output)?,
    })
}

#[tactic(auto, unfolding(crate::specs::Asked::request_for))]
fn expand_request(alloc: Global, values: &mut Readings) -> Result<Request, AllocError>
    ensures { IfOk result (λ request. request ≡ request_for algorithms.Expand (seen values.old)) }
{
    Ok(Request::Expand {
        graph: values.name(alloc, OptionName::Graph)?,
        output: values.name(alloc, OptionName::Output)?,
        no_overlap: values.has(OptionName::NoOverlap),
        buffers: values.take_buffers(alloc, OptionName::Buffers),
    })
}

#[tactic(auto, unfolding(crate::specs::Asked::request_for))]
fn ordered_request(alloc: Global, values: &mut Readings) -> Result<Request, AllocError>
    ensures { IfOk result (λ request. request ≡ request_for algorithms.Ordered (seen values.old)) }
{
    Ok(Request::Ordered {
        graph: values.name(alloc, OptionName::Graph)?,
        no_overlap: values.has(OptionName::NoOverlap),
        states: states_of(values),
        order: values.take_orders(alloc, OptionName::Order),
        buffers: values.take_buffers(alloc, OptionName::Buffers),
    })
}

#[tactic(auto, unfolding(crate::specs::Asked::request_for))]
fn complete_request(alloc: Global, values: &mut Readings) -> Result<Request, AllocError>
    ensures { IfOk result (λ request. request ≡ request_for algorithms.Complete (seen values.old)) }
{
    Ok(Request::Complete {
        graph: values.name(alloc, OptionName::Graph)?,
        rounds: values.number_or(OptionName::Rounds, LEAST_ROUNDS),
        no_overlap: values.has(OptionName::NoOverlap),
        states: states_of(values),
        buffers: values.take_buffers(alloc, OptionName::Buffers),
    })
}

#[tactic(auto, unfolding(crate::specs::Asked::request_for))]
fn scenario_storage_request(alloc: Global, values: &Readings) -> Result<Request, AllocError>
    ensures { IfOk result (λ request. request ≡ request_for algorithms.ScenarioStorage (seen values.now)) }
{
    Ok(Request::ScenarioStorage {
        graph: values.name(alloc, OptionName::Graph)?,
        limit: total_of(values),
        distributions: distributions_of(values),
    })
}
