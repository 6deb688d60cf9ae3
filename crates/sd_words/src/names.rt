//! Options and algorithms, by the words that name them.

ghost use Rattle.std.specs.Prelude.{◌≡◌};
ghost use Rattle.sd_words.specs.OptionWords.{algorithm_named, algorithm_word, has_value, names_flag, names_value, option_word};

/// An option of the command line; each but `NoOverlap` has a value. The words may give the options in any
/// order; where they are tested one by one, it is in this order.
#[derive(Clone, Copy, Debug, PartialEq, Eq)]
pub enum OptionName {
    Algo,
    Graph,
    Certificate,
    Buffers,
    States,
    Distributions,
    Limit,
    Seed,
    Actors,
    Output,
    Order,
    Rounds,
    NoOverlap,
}

/// The options, in the order in which they are tested.
pub(crate) const OPTIONS: [OptionName; 13] = [
    OptionName::Algo,
    OptionName::Graph,
    OptionName::Certificate,
    OptionName::Buffers,
    OptionName::States,
    OptionName::Distributions,
    OptionName::Limit,
    OptionName::Seed,
    OptionName::Actors,
    OptionName::Output,
    OptionName::Order,
    OptionName::Rounds,
    OptionName::NoOverlap,
];

impl OptionName {
    /// The option as it stands in the words, without its hyphens.
    #[tactic(auto, unfolding(crate::specs::OptionWords::option_word))]
    pub fn word(&self) -> &'static str
        ensures { result.now ≡ option_word self.now }
    {
        match self {
            OptionName::Algo => "algo",
            OptionName::Graph => "graph",
            OptionName::Certificate => "certificate",
            OptionName::Buffers => "buffers",
            OptionName::States => "states",
            OptionName::Distributions => "distributions",
            OptionName::Limit => "limit",
            OptionName::Seed => "seed",
            OptionName::Actors => "actors",
            OptionName::Output => "output",
            OptionName::Order => "order",
            OptionName::Rounds => "rounds",
            OptionName::NoOverlap => "no-overlap",
        }
    }

    /// Whether the option has a value.
    fn has_value(&self) -> bool
        ensures { result ≡ has_value self.now }
    {
        match self {
            OptionName::NoOverlap => false,
            _ => true,
        }
    }
}

/// Whether an option that has a value is named so.
#[tactic(auto, unfolding(crate::specs::OptionWords::names_value))]
pub(crate) fn names_value(name: &str) -> bool
    ensures { result ≡ names_value name.now }
{
    OPTIONS
        .iter()
        .any(|option| option.has_value() && option.word() == name)
}

/// Whether the option that has no value is named so.
#[tactic(auto, unfolding(crate::specs::OptionWords::names_flag))]
pub(crate) fn names_flag(name: &str) -> bool
    ensures { result ≡ names_flag name.now }
{
    OptionName::NoOverlap.word() == name
}

/// What a command computes: the value of `--algo`.
#[derive(Clone, Copy, Debug, PartialEq, Eq)]
pub enum Algorithm {
    Repetition,
    Throughput,
    Storage,
    Scenario,
    Check,
    Generate,
    Convert,
    Expand,
    Ordered,
    Complete,
    ScenarioStorage,
}

const ALGORITHMS: [Algorithm; 11] = [
    Algorithm::Repetition,
    Algorithm::Throughput,
    Algorithm::Storage,
    Algorithm::Scenario,
    Algorithm::Check,
    Algorithm::Generate,
    Algorithm::Convert,
    Algorithm::Expand,
    Algorithm::Ordered,
    Algorithm::Complete,
    Algorithm::ScenarioStorage,
];

impl Algorithm {
    /// The algorithm as it stands in the words.
    #[tactic(auto, unfolding(crate::specs::OptionWords::algorithm_word))]
    pub fn word(&self) -> &'static str
        ensures { result.now ≡ algorithm_word self.now }
    {
        match self {
            Algorithm::Repetition => "repetition",
            Algorithm::Throughput => "throughput",
            Algorithm::Storage => "storage",
            Algorithm::Scenario => "scenario",
            Algorithm::Check => "check",
            Algorithm::Generate => "generate",
            Algorithm::Convert => "convert",
            Algorithm::Expand => "expand",
            Algorithm::Ordered => "ordered",
            Algorithm::Complete => "complete",
            Algorithm::ScenarioStorage => "scenario-storage",
        }
    }

    /// The algorithm of this word.
    #[tactic(auto, unfolding(crate::specs::OptionWords::algorithm_named))]
    pub(crate) fn named(word: &str) -> Option<Algorithm>
        ensures { result ≡ algorithm_named word.now }
    {
        ALGORITHMS
            .iter()
            .copied()
            .find(|algorithm| algorithm.word() == word)
    }
}
