ghost use Rattle.std.specs.Prelude.{◌≡◌};
ghost use Rattle.sd_command.specs.inside.Wants.{no_overlap_of};

use sd_base::{Limits, Rows, Text};

/// What words ask of a graph file whose named channels have a capacity: the file's name, the channels by name with their capacities
/// in tokens, and what is wanted of the net.
#[derive(Drop)]
pub(crate) struct OnBounded {
    pub(crate) graph: Text,
    pub(crate) buffers: Rows<(Text, u64)>,
    pub(crate) wanted: Wanted,
}

/// What words ask of the net of a graph whose named channels have a capacity.
#[derive(Drop)]
pub(crate) enum Wanted {
    Rate(WantedRate),
    /// The rate by orders: by processor the names of the actors whose firings it runs one after another.
    Ordered {
        lists: Rows<Rows<Text>>,
        rate: WantedRate,
    },
    Rounds(WantedRounds),
    /// The expansion, under the name of the output.
    Expansion {
        output: Text,
        no_overlap: bool,
    },
}

impl Wanted {
    /// Whether no firings of an actor may overlap.
    pub(crate) fn no_overlap(&self) -> bool
        ensures { result ≡ no_overlap_of self.now }
    {
        match self {
            Wanted::Rate(rate) => rate.no_overlap,
            Wanted::Ordered { rate, .. } => rate.no_overlap,
            Wanted::Rounds(rounds) => rounds.no_overlap,
            Wanted::Expansion { no_overlap, .. } => *no_overlap,
        }
    }
}

/// What words ask for beside the rate of a graph: that no firings of an actor overlap, among how many shapes one has to come
/// again, and a certificate under a name.
#[derive(Drop)]
pub struct WantedRate {
    pub no_overlap: bool,
    pub states: u64,
    pub certificate: Option<Text>,
}

/// What words ask for beside the least time for rounds of a graph: that no firings of an actor overlap, among how many shapes
/// one has to come again, and how many rounds.
#[derive(Drop)]
pub struct WantedRounds {
    pub no_overlap: bool,
    pub states: u64,
    pub rounds: u64,
}

/// What words ask for beside the points of a graph: within which limits they are searched, that no firings of an actor
/// overlap, and a certificate under a name.
#[derive(Drop)]
pub struct WantedPoints {
    pub limits: Limits,
    pub no_overlap: bool,
    pub certificate: Option<Text>,
}
