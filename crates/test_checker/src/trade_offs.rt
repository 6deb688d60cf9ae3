//! Certificates of the trade-off of the chain, whose firings don't overlap, up to a storage of 10, and with some of its lines
//! changed in turn. The cycles come first here, and are judged where members name them.
use crate::texts::of_text;
use cert_checker::{Claim, Reason, Verdict};
use sd_base::NoMemory;
use std::alloc::Global;
use std::test::*;

const TEXT_2: &[u8] = b"sdf3-certificate 2
storage
no-overlap yes
limit 10
cycles 6
cycle 7 1 0 1 5
1 0 t0
0 2 s0
1 1 t0
0 3 s0
0 4 o0
cycle 7 1 1 1 4
2 0 t1
1 2 s1
0 5 s0
1 3 t0
cycle 6 1 0 2 4
1 1 t0
0 4 s0
1 2 t0
0 5 s0
cycle 6 1 1 0 3
1 1 o1
2 0 t1
1 2 s1
cycle 5 1 0 1 3
1 0 t0
1 1 o1
0 4 s0
cycle 4 1 0 0 3
0 1 o0
1 0 t0
0 3 s0
members 7
member 3 2
blocked
1 0 0
member 4 2
rate 1/7 0
member 5 2
rate 1/7 1
member 5 3
rate 1/6 2
member 6 2
rate 1/6 3
member 6 3
rate 1/5 4
member 7 3
rate 1/4 5
points 4
point 6 1/7 1
schedule 7 1
0 1 4
2 5
7
point 8 1/6 3
schedule 6 1
0 2 5
3 6
8
point 9 1/5 5
schedule 5 1
0 2 3
3 5
7
point 10 1/4 6
schedule 4 1
0 1 2
2 4
6
end
";

/// The same in version 1, which has a cycle at each member that it shows.
const TEXT_1: &[u8] = b"sdf3-certificate 1
storage
no-overlap yes
limit 10
members 7
member 3 2
blocked
1 0 0
member 4 2
rate 1/7
cycle 7 1 0 1 5
1 0 t0
0 2 s0
1 1 t0
0 3 s0
0 4 o0
member 5 2
rate 1/7
cycle 7 1 1 1 4
2 0 t1
1 2 s1
0 5 s0
1 3 t0
member 5 3
rate 1/6
cycle 6 1 0 2 4
1 1 t0
0 4 s0
1 2 t0
0 5 s0
member 6 2
rate 1/6
cycle 6 1 1 0 3
1 1 o1
2 0 t1
1 2 s1
member 6 3
rate 1/5
cycle 5 1 0 1 3
1 0 t0
1 1 o1
0 4 s0
member 7 3
rate 1/4
cycle 4 1 0 0 3
0 1 o0
1 0 t0
0 3 s0
points 4
point 6 1/7 1
schedule 7 1
0 1 4
2 5
7
point 8 1/6 3
schedule 6 1
0 2 5
3 6
8
point 9 1/5 5
schedule 5 1
0 2 3
3 5
7
point 10 1/4 6
schedule 4 1
0 1 2
2 4
6
end
";

/// The verdict on the text in which a line, counted from 1, is another one.
fn verdict(alloc: Global, text: &[u8], number: usize, line: &[u8]) -> Option<Verdict> {
    let changed = changed(alloc, text, number, line).ok()?;
    of_text(alloc, &changed)
}

fn changed(alloc: Global, text: &[u8], number: usize, line: &[u8]) -> Result<Vec<u8>, NoMemory> {
    let mut changed = Vec::new(alloc);
    let mut at: usize = 1;
    for old in text.split(|byte| *byte == b'\n') {
        if at > 1 {
            changed.push(b'\n')?;
        }
        changed.extend_from_slice(if at == number { line } else { old })?;
        at = at.saturating_add(1);
    }
    Ok(changed)
}

/// Whether each change of a line gives the fault beside it.
fn are_faults(alloc: Global, text: &[u8], changes: &[(usize, &[u8], u64, Reason)]) -> bool {
    for (number, new, line, reason) in changes {
        let fault = Some(Verdict::Rejected {
            line: *line,
            reason: *reason,
        });
        if verdict(alloc, text, *number, new) != fault {
            return false;
        }
    }
    true
}

#[test]
fn the_worked_trade_off_is_accepted(rt: HostRuntime) {
    let claim = Claim::Points {
        number: 4,
        limit: 10,
    };
    let verdict = of_text(rt.alloc(), TEXT_2);
    assert!(rt; verdict == Some(Verdict::Accepted(claim)));
    let verdict = of_text(rt.alloc(), TEXT_1);
    assert!(rt; verdict == Some(Verdict::Accepted(claim)));
}

#[test]
fn faults_of_the_limit_and_the_corner_are_told(rt: HostRuntime) {
    let changes: [(usize, &[u8], u64, Reason); 6] = [
        (3, b"no-overlap no", 39, Reason::Cycle),
        (4, b"limit 1000000001", 4, Reason::Limit),
        (4, b"limit 9", 48, Reason::Member),
        (4, b"limit 4", 34, Reason::Member),
        (35, b"member 3 1", 34, Reason::Member),
        (35, b"member 3 -", 34, Reason::Member),
    ];
    assert!(rt; are_faults(rt.alloc(), TEXT_2, &changes));
}

// 3 and 2 show the first channel by their counts, 4 and 2 by their cycle, and 5 and 2 both channels; with a step along the
// second channel's space 4 and 2 would show that too.
#[test]
fn faults_of_members_are_told(rt: HostRuntime) {
    let changes: [(usize, &[u8], u64, Reason); 10] = [
        (6, b"cycle 7 2 0 1 5", 39, Reason::Cycle),
        (7, b"1 0 t1", 39, Reason::Cycle),
        (8, b"0 2 s1", 38, Reason::Closure),
        (37, b"0 0 0", 37, Reason::Blocked),
        (37, b"1 0", 37, Reason::Blocked),
        (38, b"member 4 3", 35, Reason::Closure),
        (39, b"rate 2/14 0", 39, Reason::Rate),
        (39, b"rate 1/6 0", 39, Reason::Cycle),
        (42, b"member 5 4", 40, Reason::Closure),
        (44, b"member 6 1", 40, Reason::Closure),
    ];
    assert!(rt; are_faults(rt.alloc(), TEXT_2, &changes));
}

#[test]
fn faults_of_points_are_told(rt: HostRuntime) {
    let changes: [(usize, &[u8], u64, Reason); 8] = [
        (51, b"point 7 1/7 2", 50, Reason::Point),
        (51, b"point 6 1/6 1", 51, Reason::Point),
        (51, b"point 6 1/7 9", 51, Reason::Point),
        (61, b"point 9 1/5 4", 61, Reason::Point),
        (52, b"schedule 6 1", 52, Reason::Schedule),
        (53, b"0 1 3", 53, Reason::Schedule),
        (54, b"2 4", 54, Reason::Schedule),
        (70, b"5", 70, Reason::Schedule),
    ];
    assert!(rt; are_faults(rt.alloc(), TEXT_2, &changes));
}

// In version 1 a cycle has lines of its own behind its member's rate.
#[test]
fn version_1_counts_its_own_lines(rt: HostRuntime) {
    let changes: [(usize, &[u8], u64, Reason); 17] = [
        (3, b"no-overlap no", 11, Reason::Cycle),
        (4, b"limit 9", 43, Reason::Member),
        (4, b"limit 4", 5, Reason::Member),
        (6, b"member 3 1", 5, Reason::Member),
        (8, b"0 0 0", 8, Reason::Blocked),
        (9, b"member 4 3", 6, Reason::Closure),
        (10, b"rate 2/14", 10, Reason::Rate),
        (10, b"rate 1/6", 11, Reason::Cycle),
        (11, b"cycle 7 2 0 1 5", 11, Reason::Cycle),
        (12, b"1 0 t1", 11, Reason::Cycle),
        (13, b"0 2 s1", 9, Reason::Closure),
        (24, b"member 5 4", 17, Reason::Closure),
        (31, b"member 6 1", 17, Reason::Closure),
        (50, b"point 7 1/7 2", 49, Reason::Point),
        (60, b"point 9 1/5 4", 60, Reason::Point),
        (51, b"schedule 6 1", 51, Reason::Schedule),
        (69, b"5", 69, Reason::Schedule),
    ];
    assert!(rt; are_faults(rt.alloc(), TEXT_1, &changes));
}
