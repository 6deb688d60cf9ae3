//! The checker on certificates of the worst rate of a timed graph of two tokens: from the first to the second 2 time units,
//! and back 4, so that two rounds take 6.
use crate::timed::{is_sound, timed};
use cert_checker::{Claim, Reason, Verdict, check_scenario};
use cert_text::ScenarioCertificate;
use sd_base::{Fraction, NoMemory, Rows};
use std::alloc::{AllocError, Global};
use std::process::Abort;
use std::test::Fail;

/// The certificate of a cycle through both tokens that takes a time, and of potentials.
fn certificate(
    alloc: Global,
    time: u64,
    potentials: &[(u32, u32, i128)],
) -> Result<ScenarioCertificate, AllocError> {
    let nodes: &[(u32, u32)] = &[(0, 0), (0, 1), (0, 0)];
    Ok(ScenarioCertificate {
        rate: (1, 3),
        time,
        nodes: Rows::from_vec(Vec::from_slice(alloc, nodes)?),
        potentials: Rows::from_vec(Vec::from_slice(alloc, potentials)?),
    })
}

/// The verdict on a cycle that takes a time and on potentials.
fn verdict(
    rt: &impl Abort,
    alloc: Global,
    time: u64,
    potentials: &[(u32, u32, i128)],
) -> Result<Verdict, NoMemory> {
    let graph = timed(alloc, 2, 1, 0, &[(0, 1, 2), (1, 0, 4)])?;
    let certificate = certificate(alloc, time, potentials)?;
    assert!(rt; is_sound(&graph));
    check_scenario(alloc, &graph, &certificate, 2)
}

#[test]
fn potentials_that_fit_are_accepted(rt: HostRuntime) -> Result<(), Fail> {
    let verdict = verdict(&rt, rt.alloc(), 6, &[(0, 0, 1), (0, 1, 0)])?;
    let claim = Claim::Worst(Fraction::new(1, 3));
    assert!(rt; verdict == Verdict::Accepted(claim));
    Ok(())
}

#[test]
fn a_potential_too_low_is_rejected_at_its_line(rt: HostRuntime) -> Result<(), Fail> {
    let verdict = verdict(&rt, rt.alloc(), 6, &[(0, 0, 0), (0, 1, 0)])?;
    let (line, reason) = (8, Reason::Potential);
    assert!(rt; verdict == Verdict::Rejected { line, reason });
    Ok(())
}

#[test]
fn a_reachable_node_without_a_potential_is_missed(rt: HostRuntime) -> Result<(), Fail> {
    let verdict = verdict(&rt, rt.alloc(), 6, &[(0, 0, 1)])?;
    let (line, reason) = (7, Reason::Node);
    assert!(rt; verdict == Verdict::Rejected { line, reason });
    Ok(())
}

#[test]
fn a_cycle_of_another_time_is_rejected(rt: HostRuntime) -> Result<(), Fail> {
    let verdict = verdict(&rt, rt.alloc(), 5, &[(0, 0, 1), (0, 1, 0)])?;
    let (line, reason) = (4, Reason::Cycle);
    assert!(rt; verdict == Verdict::Rejected { line, reason });
    Ok(())
}
