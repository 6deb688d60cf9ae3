use critical::FiringNo;
use periodic::Periodic;
use sd_base::{Role, Rows};
use storage::Distribution;

/// A step of a cycle: along a link, to a firing of its target. A link names what the channel of a net stands for, so that a
/// cycle is read without the order of the net's channels.
#[derive(Clone, Copy, Debug, PartialEq, Eq)]
pub struct LinkStep {
    pub to: FiringNo,
    pub link: Role,
}

/// A need cycle by links: from `first` on, each step's firing needs the firing before it. `time` is in time units; the last
/// firing is `rounds` rounds after the first.
#[derive(Debug, Drop)]
pub struct LinkCycle {
    pub time: u64,
    pub rounds: u64,
    pub first: FiringNo,
    pub steps: Rows<LinkStep>,
}

/// What shows the rate of a graph: a schedule that reaches it and a cycle that bounds it.
#[derive(Debug, Drop)]
pub struct RateCertificate {
    /// Whether no two firings of one actor overlap.
    pub no_overlap: bool,
    /// The bounded channels, each with its capacity in tokens.
    pub buffers: Rows<(u32, u64)>,
    /// Rounds by time units.
    pub rate: (u64, u64),
    pub schedule: Periodic,
    pub cycle: LinkCycle,
}

/// What shows that a storage distribution reaches its rate at most.
#[derive(Debug, Drop)]
pub enum MemberShown {
    /// A rate, in rounds by time units, and the number of the cycle that bounds it, from 0.
    Cycle { rate: (u64, u64), cycle: u64 },
    /// The firings of each actor after which none can start.
    Blocked { counts: Rows<u64> },
}

/// A storage distribution that was explored, and what it shows.
#[derive(Debug, Drop)]
pub struct MemberLine {
    pub capacities: Distribution,
    pub shown: MemberShown,
}

/// A Pareto point: its storage, its rate in rounds by time units, the number of its member, from 0, and a schedule that
/// reaches the rate.
#[derive(Debug, Drop)]
pub struct PointLine {
    pub total: u64,
    pub rate: (u64, u64),
    pub member: u64,
    pub schedule: Periodic,
}

/// What shows the trade-off between storage and rate, up to a limit on the storage.
#[derive(Debug, Drop)]
pub struct StorageCertificate {
    /// Whether no two firings of one actor overlap.
    pub no_overlap: bool,
    /// The greatest storage of the distributions of which it speaks.
    pub limit: u64,
    /// The cycles that members name, each once, in the order in which members first name them.
    pub cycles: Rows<LinkCycle>,
    /// Points name them by their places here, from 0.
    pub members: Rows<MemberLine>,
    pub points: Rows<PointLine>,
}

/// What shows the worst-case rate of an automaton of scenarios.
#[derive(Debug, Drop)]
pub struct ScenarioCertificate {
    /// Rounds by time units.
    pub rate: (u64, u64),
    /// The time of the cycle, in time units.
    pub time: u64,
    /// The nodes of the cycle, each a state and a token, both from 0; the last is the first again.
    pub nodes: Rows<(u32, u32)>,
    /// The potential of each reachable node, which is a state and a token.
    pub potentials: Rows<(u32, u32, i128)>,
}

/// What shows an answer without an execution.
#[derive(Debug, Drop)]
pub enum Certificate {
    Rate(RateCertificate),
    Storage(StorageCertificate),
    Scenario(ScenarioCertificate),
}
