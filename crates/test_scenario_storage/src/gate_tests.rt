use crate::boundable::points_of;
use crate::outline::Scenario;
use crate::point_tests::{Row, alone, check_points, limits, sending};
use fanout::Gate;
use std::sync::atomic::Ordering::SeqCst;
use std::sync::atomic::{AtomicBool, AtomicU64};
use std::test::Fail;
use test_nets::channel;

/// How often a thread looks for another one at most.
const TURNS: u64 = 100_000_000;

/// Counts how often item 0 of level 2 and the two items of level 3 enter, and all others; holds item 0 of level 3 until item 1
/// has entered, and notes whether they met.
#[derive(Drop)]
struct Watch {
    corner: AtomicU64,
    first: AtomicU64,
    second: AtomicU64,
    others: AtomicU64,
    met: AtomicBool,
}

impl Watch {
    fn new() -> Watch {
        Watch {
            corner: AtomicU64::new(0),
            first: AtomicU64::new(0),
            second: AtomicU64::new(0),
            others: AtomicU64::new(0),
            met: AtomicBool::new(false),
        }
    }

    /// Looks for the second item until it enters or the turns are used. A turn writes, so that all of them leave another
    /// thread time to begin where there are more threads than cores.
    fn sees_second(&self) -> bool {
        for _turn in 0..TURNS {
            if self.second.fetch_add(0, SeqCst) > 0 {
                return true;
            }
        }
        false
    }
}

impl Gate for Watch {
    fn enter(&self, level: u64, item: usize) {
        let count = match (level, item) {
            (2, 0) => &self.corner,
            (3, 0) => &self.first,
            (3, 1) => &self.second,
            _ => &self.others,
        };
        count.fetch_add(1, SeqCst);
        if level == 3 && item == 0 {
            self.met.store(self.sees_second(), SeqCst);
        }
    }
}

// Actor 0 waits for a space of s and actor 1 for one of u, so the corner, a space of one token on each, is blocked. One space more
// on either makes them take turns, and (1, 2) comes before (2, 1).
#[test]
fn each_distribution_of_a_level_enters_once_and_side_by_side(rt: HostRuntime) -> Result<(), Fail> {
    let [o, p, s] = sending();
    let scenarios = [Scenario {
        times: &[1, 2],
        channels: &[o, p, s, ("u", channel(1, 1, 1, 0, 1))],
    }];
    let gate = Watch::new();
    let points = points_of(&rt, rt.alloc(), &alone(&scenarios), limits(3, 3), &gate)?;
    let row = Row {
        total: 3,
        rate: (1, 3),
        capacities: &[None, None, Some(1), Some(2)],
        shared: 5,
        cycle: &[2],
        time: 3,
    };
    check_points(&rt, rt.alloc(), points.as_slice(), &[row])?;
    assert_eq!(rt; gate.corner.load(SeqCst), 1);
    assert_eq!(rt; gate.first.load(SeqCst), 1);
    assert_eq!(rt; gate.second.load(SeqCst), 1);
    assert_eq!(rt; gate.others.load(SeqCst), 0);
    assert!(rt; gate.met.load(SeqCst));
    Ok(())
}
