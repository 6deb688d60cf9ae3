//! The greatest number of each quantity that has one. A limit is written here alone: code, contracts and printed
//! lines cite it by its name.
ghost use Rattle.std.specs.Prelude.{◌≡◌};
ghost use Rattle.sd_base.specs.Limits.{greatest_of};

/// What has a greatest number: a count, a number of a file, or what an analysis may use.
#[derive(Clone, Copy, Debug, PartialEq, Eq)]
pub enum Quantity {
    /// Bytes of a graph file.
    FileBytes,
    /// Bytes of a certificate.
    CertificateBytes,
    /// Elements that are open at one place.
    Depth,
    /// Bytes of a name.
    NameBytes,
    /// Actors of a graph.
    Actors,
    /// Channels of a graph.
    Channels,
    /// Ports of a graph.
    Ports,
    /// Phases of an actor.
    Phases,
    /// Tokens that one firing makes or takes on a channel.
    Rate,
    /// Initial tokens of a channel.
    Tokens,
    /// The memory that one token needs.
    Size,
    /// The execution time of a firing, in time units.
    Time,
    /// Either part of the ratio of a walk.
    Ratio,
    /// Firings of a round.
    Round,
    /// Starts of an execution until a shape comes again, with those at that moment.
    Starts,
    /// Scenarios of a file.
    Scenarios,
    /// States of an automaton.
    AutomatonStates,
    /// States times shared tokens.
    Nodes,
    /// Firings of a scenario's round times shared tokens.
    Stamps,
    /// Edges of a timed graph.
    Edges,
    /// Pairs of actors that follow each other in orders.
    OrderPairs,
    /// A number of a certificate.
    CertificateNumber,
}

/// The greatest graph file, in bytes.
pub const FILE_BYTES: u64 = 4_194_304;

/// The greatest certificate, in bytes.
pub const CERTIFICATE_BYTES: u64 = 268_435_456;

/// The most elements of a text that may be open at one place.
pub const DEPTH: u64 = 32;

/// The longest name, in bytes of UTF-8.
pub const NAME_BYTES: u64 = 128;

/// The most actors of a graph.
pub const ACTORS: u64 = 128;

/// The most channels of a graph.
pub const CHANNELS: u64 = 256;

/// The most ports of a graph, over all its actors.
pub const PORTS: u64 = 1_024;

/// The most phases of an actor.
pub const PHASES: u64 = 4_096;

/// The most tokens that one firing makes or takes on a channel.
pub const RATE: u64 = 1_000_000;

/// The most initial tokens of a channel.
pub const TOKENS: u64 = 1_000_000;

/// The greatest memory that one token needs.
pub const SIZE: u64 = 1_000_000;

/// The longest firing, in time units.
pub const TIME: u64 = 1_000_000_000;

/// The greatest part of the ratio of a walk, in lowest terms.
pub const RATIO: u64 = 100_000;

/// The most firings of a round, over all actors.
pub const ROUND: u64 = 100_000;

/// The most starts of an execution until a shape comes again, with those at that moment.
pub const STARTS: u64 = 4_000_000;

/// The most scenarios of a file.
pub const SCENARIOS: u64 = 64;

/// The most states of an automaton.
pub const AUTOMATON_STATES: u64 = 256;

/// The most nodes of a timed graph: automaton states times shared tokens.
pub const NODES: u64 = 1_024;

/// The most stamps of a scenario: firings of its round times shared tokens.
pub const STAMPS: u64 = 4_000_000;

/// The most edges of a timed graph.
pub const EDGES: u64 = 65_536;

/// The most pairs of actors that follow each other in orders.
pub const ORDER_PAIRS: u64 = 128;

/// The greatest number of a certificate.
pub const CERTIFICATE_NUMBER: u64 = u64::MAX;

/// Channels of a net: those of a graph with the spaces, own channels and order channels that are added to them.
pub const NET_CHANNELS: u64 = 768;

/// Tokens of a channel of a net: those of a graph, or the free space of a capacity.
pub const NET_TOKENS: u64 = 2_000_000_000;

/// The start of a firing in a schedule that is handed in, in time units.
pub const START: u128 = 1_267_650_600_228_229_401_496_703_205_376;

/// The least number of shapes that an execution may be given to see before one comes again.
pub const LEAST_STATES: u64 = 1;

/// The greatest number of shapes that an execution may be given to see before one comes again.
pub const STATES: u64 = 200_000;

/// How many shapes an execution may see where nothing is said.
pub const USUAL_STATES: u64 = 20_000;

/// The least number of storage distributions that an exploration may be given to find.
pub const LEAST_DISTRIBUTIONS: u64 = 1;

/// The greatest number of storage distributions that an exploration may be given to find.
pub const DISTRIBUTIONS: u64 = 1_000_000;

/// How many storage distributions an exploration may find where nothing is said.
pub const USUAL_DISTRIBUTIONS: u64 = 10_000;

/// The least number of rounds that are to be completed.
pub const LEAST_ROUNDS: u64 = 1;

/// The greatest number of rounds that are to be completed.
pub const ROUNDS: u64 = 1_000_000;

/// The memory of all channels together up to which storage distributions are explored.
pub const STORAGE: u64 = 1_000_000_000;

/// The capacity of one channel that words name, in tokens.
pub const CAPACITY: u64 = 1_000_000;

/// What an exploration of storage distributions may use.
#[derive(Clone, Copy, Debug, PartialEq, Eq)]
pub struct Limits {
    /// The greatest memory of a distribution, over all its channels.
    pub total: u64,
    /// Shapes of one execution before one comes again.
    pub states: u64,
    /// Distributions that are found.
    pub distributions: u64,
}

impl Quantity {
    /// The greatest number of the quantity, in what its variant says.
    #[tactic(auto, unfolding(crate::specs::Limits::greatest_of))]
    pub fn greatest(self) -> u64
        ensures { result ≡ greatest_of self }
    {
        match self {
            Quantity::FileBytes => FILE_BYTES,
            Quantity::CertificateBytes => CERTIFICATE_BYTES,
            Quantity::Depth => DEPTH,
            Quantity::NameBytes => NAME_BYTES,
            Quantity::Actors => ACTORS,
            Quantity::Channels => CHANNELS,
            Quantity::Ports => PORTS,
            Quantity::Phases => PHASES,
            Quantity::Rate => RATE,
            Quantity::Tokens => TOKENS,
            Quantity::Size => SIZE,
            Quantity::Time => TIME,
            Quantity::Ratio => RATIO,
            Quantity::Round => ROUND,
            Quantity::Starts => STARTS,
            Quantity::Scenarios => SCENARIOS,
            Quantity::AutomatonStates => AUTOMATON_STATES,
            Quantity::Nodes => NODES,
            Quantity::Stamps => STAMPS,
            Quantity::Edges => EDGES,
            Quantity::OrderPairs => ORDER_PAIRS,
            Quantity::CertificateNumber => CERTIFICATE_NUMBER,
        }
    }
}
