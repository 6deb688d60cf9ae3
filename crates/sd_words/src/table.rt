//! Which options an algorithm has, and the values that they may have.

ghost use Rattle.std.specs.Prelude.{◌≡◌};
ghost use Rattle.sd_words.specs.declared.names.Algorithm.TheVariants as algorithms;
ghost use Rattle.sd_words.specs.Asked.{form_of, standing};

use crate::form::Form;
use crate::{Algorithm, OptionName};
use sd_base::limits::{
    ACTORS, DISTRIBUTIONS, LEAST_DISTRIBUTIONS, LEAST_ROUNDS, LEAST_STATES, ROUNDS, STATES, STORAGE,
};

/// The greatest number that a graph is made from.
const SEED: u64 = u64::MAX;

/// The least number of actors of a graph that is made.
const LEAST_ACTORS: u64 = 2;

/// The number of actors where none is given.
pub(crate) const USUAL_ACTORS: u64 = 8;

/// A number of states.
const OF_STATES: Form = Form::Number {
    least: LEAST_STATES,
    greatest: STATES,
};

/// A number of distributions.
const OF_DISTRIBUTIONS: Form = Form::Number {
    least: LEAST_DISTRIBUTIONS,
    greatest: DISTRIBUTIONS,
};

/// A number of rounds.
const OF_ROUNDS: Form = Form::Number {
    least: LEAST_ROUNDS,
    greatest: ROUNDS,
};

/// The storage of a distribution.
const OF_STORAGE: Form = Form::Number {
    least: 0,
    greatest: STORAGE,
};

/// A number that a graph is made from.
const OF_SEED: Form = Form::Number {
    least: 0,
    greatest: SEED,
};

/// A number of actors of a graph that is made.
const OF_ACTORS: Form = Form::Number {
    least: LEAST_ACTORS,
    greatest: ACTORS,
};

/// The name of a certificate of the answer for a graph.
const OF_CERTIFICATE: Form = Form::Certificate {
    source: OptionName::Graph,
};

/// The name of the expansion of a graph.
const OF_EXPANSION: Form = Form::Output {
    source: OptionName::Graph,
};

/// The name of a certificate in another version.
const OF_CONVERSION: Form = Form::Output {
    source: OptionName::Certificate,
};

/// Whether an algorithm has an option, and the values that the option may have.
#[derive(Clone, Copy)]
pub(crate) enum Standing {
    Required(Form),
    Allowed(Form),
    Foreign,
}

impl Standing {
    /// The form of the values, where the algorithm has the option.
    pub(crate) fn form(self) -> Option<Form>
        ensures { result ≡ form_of self }
    {
        match self {
            Standing::Required(form) | Standing::Allowed(form) => Some(form),
            Standing::Foreign => None,
        }
    }
}

/// The table of the algorithms and their options: a function for each algorithm. Each has `--algo`.
pub(crate) fn standing_of(algo: Algorithm, option: OptionName) -> Standing
    ensures { result ≡ standing algo option }
{
    match algo {
        Algorithm::Repetition => repetition_standing(option),
        Algorithm::Throughput => throughput_standing(option),
        Algorithm::Storage => storage_standing(option),
        Algorithm::Scenario => scenario_standing(option),
        Algorithm::Check => check_standing(option),
        Algorithm::Generate => generate_standing(option),
        Algorithm::Convert => convert_standing(option),
        Algorithm::Expand => expand_standing(option),
        Algorithm::Ordered => ordered_standing(option),
        Algorithm::Complete => complete_standing(option),
        Algorithm::ScenarioStorage => scenario_storage_standing(option),
    }
}

#[tactic(auto, unfolding(crate::specs::Asked::standing))]
fn repetition_standing(option: OptionName) -> Standing
    ensures { result ≡ standing algorithms.Repetition option }
{
    match option {
        OptionName::Algo => Standing::Required(Form::Text),
        OptionName::Graph => Standing::Required(Form::Text),
        _ => Standing::Foreign,
    }
}

#[tactic(auto, unfolding(crate::specs::Asked::standing))]
fn throughput_standing(option: OptionName) -> Standing
    ensures { result ≡ standing algorithms.Throughput option }
{
    match option {
        OptionName::Algo => Standing::Required(Form::Text),
        OptionName::Graph => Standing::Required(Form::Text),
        OptionName::Certificate => Standing::Allowed(OF_CERTIFICATE),
        OptionName::Buffers => Standing::Allowed(Form::Buffers),
        OptionName::States => Standing::Allowed(OF_STATES),
        OptionName::NoOverlap => Standing::Allowed(Form::Flag),
        _ => Standing::Foreign,
    }
}

#[tactic(auto, unfolding(crate::specs::Asked::standing))]
fn storage_standing(option: OptionName) -> Standing
    ensures { result ≡ standing algorithms.Storage option }
{
    match option {
        OptionName::Algo => Standing::Required(Form::Text),
        OptionName::Graph => Standing::Required(Form::Text),
        OptionName::Certificate => Standing::Allowed(OF_CERTIFICATE),
        OptionName::States => Standing::Allowed(OF_STATES),
        OptionName::Distributions => Standing::Allowed(OF_DISTRIBUTIONS),
        OptionName::Limit => Standing::Required(OF_STORAGE),
        OptionName::NoOverlap => Standing::Allowed(Form::Flag),
        _ => Standing::Foreign,
    }
}

#[tactic(auto, unfolding(crate::specs::Asked::standing))]
fn scenario_standing(option: OptionName) -> Standing
    ensures { result ≡ standing algorithms.Scenario option }
{
    match option {
        OptionName::Algo => Standing::Required(Form::Text),
        OptionName::Graph => Standing::Required(Form::Text),
        OptionName::Certificate => Standing::Allowed(OF_CERTIFICATE),
        _ => Standing::Foreign,
    }
}

#[tactic(auto, unfolding(crate::specs::Asked::standing))]
fn check_standing(option: OptionName) -> Standing
    ensures { result ≡ standing algorithms.Check option }
{
    match option {
        OptionName::Algo => Standing::Required(Form::Text),
        OptionName::Graph => Standing::Required(Form::Text),
        OptionName::Certificate => Standing::Required(Form::Text),
        _ => Standing::Foreign,
    }
}

#[tactic(auto, unfolding(crate::specs::Asked::standing))]
fn generate_standing(option: OptionName) -> Standing
    ensures { result ≡ standing algorithms.Generate option }
{
    match option {
        OptionName::Algo => Standing::Required(Form::Text),
        OptionName::Limit => Standing::Required(OF_STORAGE),
        OptionName::Seed => Standing::Required(OF_SEED),
        OptionName::Actors => Standing::Allowed(OF_ACTORS),
        _ => Standing::Foreign,
    }
}

#[tactic(auto, unfolding(crate::specs::Asked::standing))]
fn convert_standing(option: OptionName) -> Standing
    ensures { result ≡ standing algorithms.Convert option }
{
    match option {
        OptionName::Algo => Standing::Required(Form::Text),
        OptionName::Certificate => Standing::Required(Form::Text),
        OptionName::Output => Standing::Required(OF_CONVERSION),
        _ => Standing::Foreign,
    }
}

#[tactic(auto, unfolding(crate::specs::Asked::standing))]
fn expand_standing(option: OptionName) -> Standing
    ensures { result ≡ standing algorithms.Expand option }
{
    match option {
        OptionName::Algo => Standing::Required(Form::Text),
        OptionName::Graph => Standing::Required(Form::Text),
        OptionName::Buffers => Standing::Allowed(Form::Buffers),
        OptionName::Output => Standing::Required(OF_EXPANSION),
        OptionName::NoOverlap => Standing::Allowed(Form::Flag),
        _ => Standing::Foreign,
    }
}

#[tactic(auto, unfolding(crate::specs::Asked::standing))]
fn ordered_standing(option: OptionName) -> Standing
    ensures { result ≡ standing algorithms.Ordered option }
{
    match option {
        OptionName::Algo => Standing::Required(Form::Text),
        OptionName::Graph => Standing::Required(Form::Text),
        OptionName::Buffers => Standing::Allowed(Form::Buffers),
        OptionName::States => Standing::Allowed(OF_STATES),
        OptionName::Order => Standing::Required(Form::Orders),
        OptionName::NoOverlap => Standing::Allowed(Form::Flag),
        _ => Standing::Foreign,
    }
}

#[tactic(auto, unfolding(crate::specs::Asked::standing))]
fn complete_standing(option: OptionName) -> Standing
    ensures { result ≡ standing algorithms.Complete option }
{
    match option {
        OptionName::Algo => Standing::Required(Form::Text),
        OptionName::Graph => Standing::Required(Form::Text),
        OptionName::Buffers => Standing::Allowed(Form::Buffers),
        OptionName::States => Standing::Allowed(OF_STATES),
        OptionName::Rounds => Standing::Required(OF_ROUNDS),
        OptionName::NoOverlap => Standing::Allowed(Form::Flag),
        _ => Standing::Foreign,
    }
}

#[tactic(auto, unfolding(crate::specs::Asked::standing))]
fn scenario_storage_standing(option: OptionName) -> Standing
    ensures { result ≡ standing algorithms.ScenarioStorage option }
{
    match option {
        OptionName::Algo => Standing::Required(Form::Text),
        OptionName::Graph => Standing::Required(Form::Text),
        OptionName::Distributions => Standing::Allowed(OF_DISTRIBUTIONS),
        OptionName::Limit => Standing::Required(OF_STORAGE),
        _ => Standing::Foreign,
    }
}
