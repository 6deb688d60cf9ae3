ghost use Rattle.std.specs.Prelude.{◌≡◌};
ghost use Rattle.sd_words.specs.declared.request.WordsError.TheVariants.{NoMemory, Usage};

use crate::{Algorithm, OptionName};
use sd_base::{Limits, Rows, Text};
use std::alloc::{AllocError, AllocFailed};
use thiserror::Error;

/// What the words ask for. `graph` is the name of the graph file.
#[derive(Drop)]
pub enum Request {
    /// The repetition vector of the graph.
    Repetition {
        graph: Text,
    },
    /// The throughput of the graph: with `no_overlap` the firings of each actor come one after another, and
    /// the execution may have at most `states` shapes until one comes again.
    Throughput {
        graph: Text,
        /// Channels by name that have a capacity, in tokens; no two are of one name.
        buffers: Rows<(Text, u64)>,
        no_overlap: bool,
        states: u64,
        /// The name under which what shows the rate is put.
        certificate: Option<Text>,
    },
    /// The Pareto points of storage and rate of the graph: up to the total of `limits`, and within its numbers of
    /// states and of distributions; with `no_overlap` the firings of each actor come one after another.
    Storage {
        graph: Text,
        limits: Limits,
        no_overlap: bool,
        /// The name under which what shows the points is put.
        certificate: Option<Text>,
    },
    /// The worst rate of the scenarios of the file, over all paths of its automaton.
    Scenario {
        graph: Text,
        /// The name under which what shows the worst rate is put.
        certificate: Option<Text>,
    },
    /// Whether a certificate is valid for the graph, or for the file of scenarios.
    Check {
        graph: Text,
        certificate: Text,
    },
    /// The Pareto points, up to a total of `limit`, of the graph that is made from the number `seed`, a chain of so many
    /// actors.
    Generate {
        seed: u64,
        limit: u64,
        actors: u32,
    },
    /// The certificate in the version that is written, put under another name.
    Convert {
        certificate: Text,
        output: Text,
    },
    /// The single-rate expansion of the graph, put under another name: with `no_overlap` the firings of each actor come
    /// one after another.
    Expand {
        graph: Text,
        output: Text,
        /// Channels by name that have a capacity, in tokens; no two are of one name.
        buffers: Rows<(Text, u64)>,
        no_overlap: bool,
    },
    /// The throughput of the graph whose actors keep orders: by processor the names of the actors whose firings it runs one
    /// after another, each as often as in a round. The rest is as for `Throughput`.
    Ordered {
        graph: Text,
        order: Rows<Rows<Text>>,
        buffers: Rows<(Text, u64)>,
        no_overlap: bool,
        states: u64,
    },
    /// The least time for so many rounds of the graph, with the other parts as for the throughput.
    Complete {
        graph: Text,
        rounds: u64,
        buffers: Rows<(Text, u64)>,
        no_overlap: bool,
        states: u64,
    },
    /// The Pareto points of storage and worst rate of the scenarios of the file: up to the total `limit`, in tokens on the
    /// channels that scenarios share, and within a number of distributions.
    ScenarioStorage {
        graph: Text,
        limit: u64,
        distributions: u64,
    },
}

/// Why the words ask for nothing: the first cause in the order in which they are tested.
#[derive(Clone, Copy, Debug, PartialEq, Eq, Error)]
pub enum UsageCause {
    /// The words don't split into options with their values, or an option comes twice.
    #[error("the words don't split into options")]
    Words,
    /// This option has to be there and isn't.
    #[error("an option is missing")]
    Missing(OptionName),
    /// This option is there, and the algorithm doesn't have it.
    #[error("an option isn't the algorithm's")]
    NotFor(OptionName, Algorithm),
    /// The value of this option isn't of its form, or not in its range; or a file that is put is to have the name of
    /// one that is read.
    #[error("an option has a bad value")]
    BadValue(OptionName),
}

/// Why there is no request.
#[derive(Clone, Copy, Debug, PartialEq, Eq, Error)]
pub enum WordsError {
    #[error("{0}")]
    Usage(UsageCause),
    #[error("out of memory")]
    NoMemory,
}

impl From<UsageCause> for WordsError {
    ghost from_gives = { λ cause e. e ≡ Usage cause };

    fn from(cause: UsageCause) -> WordsError {
        WordsError::Usage(cause)
    }
}

impl From<AllocError> for WordsError {
    ghost from_gives = { λ _ e. e ≡ NoMemory };

    fn from(_error: AllocError) -> WordsError {
        WordsError::NoMemory
    }
}

impl<T: Drop> From<AllocFailed<T>> for WordsError {
    ghost from_gives = { λ _ e. e ≡ NoMemory };

    fn from(_error: AllocFailed<T>) -> WordsError {
        WordsError::NoMemory
    }
}
