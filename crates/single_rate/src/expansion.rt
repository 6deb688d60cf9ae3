//! The expansion of a net, and what is too large in one.
ghost use Rattle.std.specs.Prelude.{◌≡◌, ◌≤◌, ◌<◌, None, IfErr, IfOk, List, ℕ, length, replicate, sum};
ghost use Rattle.sd_base.specs.declared.limits.TheConstants.{ACTORS, TOKENS};
ghost use Rattle.sd_base.specs.Net.{IsRepetitionOf, channel_at};
ghost use Rattle.sd_base.specs.Tables.{IsTimed, KeepsRules};
ghost use Rattle.single_rate.specs.Expansions.{copy_rows, expansion, link_rows, links_of};
ghost use Rattle.single_rate.specs.Limits.{Tells, excess, has_long_name};
ghost use Rattle.single_rate.specs.Namings.{IsSameByNames, one_each};
ghost use Rattle.single_rate.specs.declared.expansion.ExpandError.TheVariants.{NoMemory as lacking};

use crate::copies::copy_rows;
use crate::links::{link_rows, links_of};
use firing::{Firing, know_laws};
use sd_base::limits::ACTORS;
use sd_base::{GraphFile, Kind, Quantity};
use std::alloc::{AllocError, AllocFailed, Global};
use thiserror::Error;

/// Why a net has no expansion that is a graph within the limits of graphs.
#[derive(Debug, Drop, Error)]
pub enum ExpandError {
    /// Of actors, of bytes of a name, or of channels there are more than the greatest number, in this order.
    #[error("a quantity passes its greatest number")]
    Limit { what: Quantity },
    #[error("out of memory")]
    NoMemory,
}

impl From<AllocError> for ExpandError {
    ghost from_gives = { λ _ e. e ≡ lacking };

    fn from(_error: AllocError) -> ExpandError {
        ExpandError::NoMemory
    }
}

impl<T: Drop> From<AllocFailed<T>> for ExpandError {
    ghost from_gives = { λ _ e. e ≡ lacking };

    fn from(_error: AllocFailed<T>) -> ExpandError {
        ExpandError::NoMemory
    }
}

/// The single-rate expansion of a net, whose actors have the names of the graph (Lee and Messerschmitt 1987): a copy of an
/// actor for each firing of a round, by actor and then by firing, and for each channel a link between each two copies of which
/// one takes a token of the other, with a token for each round between them. Copies have one phase, links the rates 1. Cost:
/// for each channel the product of the firings of its source and its target in a round, however many tokens they move.
pub fn expand<F: Firing>(
    alloc: Global,
    net: &F,
    graph: &GraphFile,
) -> Result<GraphFile, ExpandError>
    requires { length graph.now.actors ≡ length (F.net net.now).times }
    ensures expanded { IfOk result (λ g. g ≡ expansion (F.net net.now) graph.now) }
    ensures whole { IfOk result (λ g. excess (F.net net.now) graph.now ≡ None) }
    ensures fault { IfErr result (λ e. Tells e (excess (F.net net.now) graph.now)) }
    ensures timed { IfOk result IsTimed }
    ensures keeps { IfOk result (λ g. ((i : ℕ) → i < length (F.net net.now).channels → (channel_at (F.net net.now) i).tokens ≤ TOKENS) → KeepsRules g) }
    ensures round { IfOk result (λ g. IsRepetitionOf g (one_each (F.net net.now))) }
    // It is the net over again: one has the schedules of the other, firing by firing, and so the rate.
    ensures same { IfOk result (λ _. IsSameByNames (F.net net.now) graph.now) }
{
    know_laws(net);
    if copies(net) > ACTORS {
        return Err(ExpandError::Limit {
            what: Quantity::Actors,
        });
    }
    let actors = copy_rows(alloc, net, graph.actors.as_slice())?;
    let links = links_of(alloc, net)?;
    let channels = link_rows(alloc, links.as_slice())?;
    Ok(GraphFile {
        kind: Kind::Sdf,
        actors,
        channels,
    })
}

// How many copies there are: the firings of a round.
fn copies<F: Firing>(net: &F) -> u64
    ensures { result ≡ sum (F.net net.now).round }
{
    know_laws(net);
    let mut copies: u64 = 0;
    for actor in 0..net.actors() {
        copies += net.round(actor);
    }
    copies
}
