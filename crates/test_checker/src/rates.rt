//! Certificates of the rate of the chain, whose firings don't overlap, with room for 4 and 2 tokens on its channels: a round of
//! 3, 2 and 1 firings in 7 time units.
use crate::texts::of_text;
use cert_checker::{Claim, Reason, Verdict};
use sd_base::Fraction;
use std::alloc::Global;
use std::test::*;

const HEAD: &[u8] = b"sdf3-certificate 1
throughput
no-overlap yes
";

const BUFFERS: &[u8] = b"buffers 0=4 1=2
";

const RATE: &[u8] = b"rate 1/7
";

const SCHEDULE: &[u8] = b"schedule 7 1
0 1 4
2 5
7
";

const CYCLE: &[u8] = b"cycle 7 1 0 1 5
1 0 t0
0 2 s0
1 1 t0
0 3 s0
0 4 o0
end
";

/// The verdict on the text of these parts.
fn verdict(alloc: Global, parts: &[&[u8]]) -> Option<Verdict> {
    let mut text = Vec::new(alloc);
    for part in parts {
        if text.extend_from_slice(*part).is_err() {
            return None;
        }
    }
    of_text(alloc, &text)
}

fn rejected(line: u64, reason: Reason) -> Option<Verdict> {
    Some(Verdict::Rejected { line, reason })
}

#[test]
fn the_worked_certificate_is_accepted(rt: HostRuntime) {
    let verdict = verdict(rt.alloc(), &[HEAD, BUFFERS, RATE, SCHEDULE, CYCLE]);
    let claim = Claim::Rate(Fraction::new(1, 7));
    assert!(rt; verdict == Some(Verdict::Accepted(claim)));
}

#[test]
fn a_start_too_early_is_rejected_at_its_line(rt: HostRuntime) {
    let early: &[u8] = b"schedule 7 1
0 1 4
1 5
7
";
    let verdict = verdict(rt.alloc(), &[HEAD, BUFFERS, RATE, early, CYCLE]);
    assert!(rt; verdict == rejected(8, Reason::Schedule));
}

#[test]
fn a_rate_that_neither_has_is_rejected_at_the_schedule(rt: HostRuntime) {
    let rate: &[u8] = b"rate 1/6
";
    let verdict = verdict(rt.alloc(), &[HEAD, BUFFERS, rate, SCHEDULE, CYCLE]);
    assert!(rt; verdict == rejected(6, Reason::Schedule));
}

#[test]
fn a_buffer_of_no_channel_is_rejected(rt: HostRuntime) {
    let buffers: &[u8] = b"buffers 0=4 2=2
";
    let verdict = verdict(rt.alloc(), &[HEAD, buffers, RATE, SCHEDULE, CYCLE]);
    assert!(rt; verdict == rejected(4, Reason::Buffers));
}

#[test]
fn a_chain_without_buffers_is_not_connected(rt: HostRuntime) {
    let buffers: &[u8] = b"buffers -
";
    let verdict = verdict(rt.alloc(), &[HEAD, buffers, RATE, SCHEDULE, CYCLE]);
    assert!(rt; verdict == rejected(2, Reason::Connection));
}

#[test]
fn a_cycle_along_a_wrong_link_is_rejected(rt: HostRuntime) {
    let cycle: &[u8] = b"cycle 7 1 0 1 5
1 0 t0
0 2 s1
1 1 t0
0 3 s0
0 4 o0
end
";
    let verdict = verdict(rt.alloc(), &[HEAD, BUFFERS, RATE, SCHEDULE, cycle]);
    assert!(rt; verdict == rejected(10, Reason::Cycle));
}
