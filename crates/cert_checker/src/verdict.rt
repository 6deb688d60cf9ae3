use sd_base::Fraction;

/// What is wrong in a line of a certificate. Where a line is faulty for several reasons, the first of them here is told.
#[derive(Clone, Copy, Debug, PartialEq, Eq)]
pub enum Reason {
    /// Some actor doesn't lead to some other one, or has no input.
    Connection,
    /// A capacity belongs to no channel, or to a self-loop, or doesn't cover the tokens, or is too large.
    Buffers,
    /// A rate isn't in lowest terms.
    Rate,
    /// A schedule doesn't hold, or not with the rate.
    Schedule,
    /// A cycle isn't one, or not with the rate.
    Cycle,
    /// The limit of the storage is too large.
    Limit,
    /// A member is no distribution, needs too much storage, or isn't in its place.
    Member,
    /// Counts don't block the net.
    Blocked,
    /// A member with more room on a channel that it shows is missing.
    Closure,
    /// A point isn't that of a member, or one is missing.
    Point,
    /// A potential belongs to no reachable node, or one is missing.
    Node,
    /// A potential doesn't fit.
    Potential,
}

/// What an accepted certificate shows.
#[derive(Clone, Copy, Debug, PartialEq, Eq)]
pub enum Claim {
    /// The rate of a graph, in rounds per time unit.
    Rate(Fraction),
    /// So many Pareto points up to a limit of the storage.
    Points { number: u64, limit: u64 },
    /// The worst-case rate of scenarios, in rounds per time unit.
    Worst(Fraction),
}

/// Whether a certificate is valid: its claim, or its first faulty line, from 1, with the reason. Past line 2^64 - 1, which no
/// file has, that number stands for the line.
#[derive(Clone, Copy, Debug, PartialEq, Eq)]
pub enum Verdict {
    Accepted(Claim),
    Rejected { line: u64, reason: Reason },
}
