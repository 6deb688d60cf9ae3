//! Certificates of worst-case rates of scenarios.
ghost use Rattle.std.specs.Prelude.{◌≡◌, ◌<◌, IfOk, length};
ghost use Rattle.automaton.specs.SoundGraphs.{IsSound};
ghost use Rattle.cert_checker.specs.Verdicts.{IsVerdict};
ghost use Rattle.cert_checker.specs.ScenarioCertificates.{IsWorstClaim, IsWorstFault};

use crate::potentials::{first_unfit, lists_nodes};
use crate::reaching::reached;
use crate::schedules::is_rate_line;
use crate::verdict::{Claim, Reason, Verdict};
use crate::walks::is_closed_walk;
use automaton::{TimedGraph, worst_is_shown};
use cert_text::ScenarioCertificate;
use sd_base::{Fraction, NoMemory};
use std::alloc::Global;

/// Whether the certificate of a worst-case rate, listed in a version, is valid for the timed graph of a file: the cycle is a
/// walk of reachable nodes that has the rate, and the potentials of all reachable nodes fit it. Versions differ in no line
/// number. Cost: the nodes of the cycle times the logarithm of the edges, and those of the graph times the edges.
pub fn check_scenario(
    alloc: Global,
    graph: &TimedGraph,
    certificate: &ScenarioCertificate,
    version: u32,
) -> Result<Verdict, NoMemory>
    requires sound { IsSound graph.now }
    ensures { IfOk result (IsVerdict (IsWorstFault graph.now version certificate.now) (IsWorstClaim graph.now certificate.now)) }
{
    worst_is_shown();
    let marks = reached(alloc, graph)?;
    let nodes = certificate.nodes.as_slice();
    let potentials = certificate.potentials.as_slice();
    if !is_rate_line(certificate.rate) {
        return Ok(Verdict::Rejected {
            line: 3,
            reason: Reason::Rate,
        });
    }
    if !is_closed_walk(
        alloc,
        graph,
        &marks,
        certificate.rate,
        certificate.time,
        nodes,
    )? {
        return Ok(Verdict::Rejected {
            line: 4,
            reason: Reason::Cycle,
        });
    }
    if !lists_nodes(graph, &marks, potentials) {
        return Ok(Verdict::Rejected {
            line: 4 + nodes.len() as u64,
            reason: Reason::Node,
        });
    }
    if let Some(place) = first_unfit(graph, certificate.rate, potentials) {
        return Ok(Verdict::Rejected {
            line: 5 + nodes.len() as u64 + place as u64,
            reason: Reason::Potential,
        });
    }
    let rate = Fraction::new(certificate.rate.0, certificate.rate.1);
    Ok(Verdict::Accepted(Claim::Worst(rate)))
}
