use crate::checks::explored;
use crate::explore_tests::{CHAIN_POINTS, check_points, limits};
use crate::nets::chain;
use crate::watched::{Watch, Watched};
use fanout::{Gate, Job, OpenGate, all};
use std::sync::atomic::AtomicBool;
use std::sync::atomic::Ordering::SeqCst;
use std::test::Fail;

/// How often a thread looks for another one at most.
const TURNS: u64 = 100_000_000;

/// Looks at a flag until it is raised or the turns are used. A turn writes, so that all of them leave another thread
/// time to begin where there are more threads than cores.
fn sees(flag: &AtomicBool) -> bool {
    for _turn in 0..TURNS {
        if flag.fetch_or(false, SeqCst) {
            return true;
        }
    }
    false
}

/// Raises its own flag, and looks for that of another job.
#[derive(Drop)]
struct Flagged<'a> {
    own: &'a AtomicBool,
    other: &'a AtomicBool,
    met: bool,
}

impl Job for Flagged<'_> {
    ghost ready = { λ j. Unit {0} };

    ghost ran = { λ old new. Unit {0} };

    fn run(&mut self) {
        self.own.store(true, SeqCst);
        self.met = sees(self.other);
    }
}

#[test]
fn each_of_two_jobs_sees_that_the_other_runs(rt: HostRuntime) -> Result<(), Fail> {
    let first = AtomicBool::new(false);
    let second = AtomicBool::new(false);
    let mut jobs = [
        Flagged {
            own: &first,
            other: &second,
            met: false,
        },
        Flagged {
            own: &second,
            other: &first,
            met: false,
        },
    ];
    all(&rt, 1, &mut jobs, &OpenGate);
    let [one, two] = &jobs;
    assert!(rt; one.met && two.met);
    Ok(())
}

/// Holds item 0 of level 8 until item 1 has entered, and notes whether they met.
#[derive(Drop)]
pub(crate) struct Meeting {
    entered: AtomicBool,
    met: AtomicBool,
}

impl Meeting {
    /// A gate that no item has entered.
    pub(crate) fn new() -> Meeting {
        Meeting {
            entered: AtomicBool::new(false),
            met: AtomicBool::new(false),
        }
    }

    pub(crate) fn has_met(&self) -> bool {
        self.met.load(SeqCst)
    }
}

impl Gate for Meeting {
    fn enter(&self, level: u64, item: usize) {
        if level == 8 && item == 1 {
            self.entered.store(true, SeqCst);
        }
        if level == 8 && item == 0 {
            self.met.store(sees(&self.entered), SeqCst);
        }
    }
}

#[test]
fn two_distributions_of_a_level_enter_before_one_leaves(rt: HostRuntime) -> Result<(), Fail> {
    let net = chain(rt.alloc(), (1, 1))?;
    let gate = Meeting::new();
    let found = explored(&rt, rt.alloc(), &net, limits(10, 1000, 1000), &gate)?;
    check_points(&rt, rt.alloc(), found.points.as_slice(), &CHAIN_POINTS)?;
    assert!(rt; gate.has_met());
    Ok(())
}

/// Begins the watch where the first item of level 8 enters.
#[derive(Drop)]
struct Begins<'a> {
    watch: &'a Watch,
}

impl Gate for Begins<'_> {
    fn enter(&self, level: u64, _item: usize) {
        if level == 8 {
            self.watch.begin();
        }
    }
}

#[test]
fn two_distributions_of_a_level_are_evaluated_at_once(rt: HostRuntime) -> Result<(), Fail> {
    let net = chain(rt.alloc(), (1, 1))?;
    let watch = Watch::new(TURNS);
    let watched = Watched::new(&net, &watch);
    let gate = Begins { watch: &watch };
    let found = explored(&rt, rt.alloc(), &watched, limits(10, 1000, 1000), &gate)?;
    check_points(&rt, rt.alloc(), found.points.as_slice(), &CHAIN_POINTS)?;
    assert!(rt; watch.saw_two());
    Ok(())
}
