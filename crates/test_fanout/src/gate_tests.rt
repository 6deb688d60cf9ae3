use fanout::{Gate, Job, all};
use std::alloc::{AllocError, Global};
use std::sync::atomic::Ordering::SeqCst;
use std::sync::atomic::{AtomicBool, AtomicU64};
use std::test::Fail;

/// The number of the lists.
const LEVEL: u64 = 7;
/// The jobs of the longest list: each of the 32 parts has two, and some have a third.
const MOST_JOBS: usize = 70;

/// What a gate sees of a job: how often its number entered, whether the job has run, and whether the number entered after
/// that.
#[derive(Drop)]
struct Seen {
    entries: AtomicU64,
    has_run: AtomicBool,
    late: AtomicBool,
}

/// Notes which numbers enter, and those of other lists or past the last job.
#[derive(Drop)]
struct Watch<'a> {
    seen: &'a [Seen],
    strays: AtomicU64,
}

impl Gate for Watch<'_> {
    fn enter(&self, level: u64, item: usize) {
        match self.seen.get(item) {
            Some(seen) if level == LEVEL => {
                seen.entries.fetch_add(1, SeqCst);
                if seen.has_run.load(SeqCst) {
                    seen.late.store(true, SeqCst);
                }
            }
            _ => {
                self.strays.fetch_add(1, SeqCst);
            }
        }
    }
}

/// Notes that it has run.
#[derive(Drop)]
struct Noting<'a> {
    seen: &'a Seen,
}

impl Job for Noting<'_> {
    ghost ready = { λ j. Unit {0} };

    ghost ran = { λ old new. Unit {0} };

    fn run(&mut self) {
        self.seen.has_run.store(true, SeqCst);
    }
}

/// Jobs of which nothing was seen.
fn unseen(alloc: Global, count: usize) -> Result<Vec<Seen>, AllocError> {
    let mut seen = Vec::new(alloc);
    for _job in 0..count {
        seen.push(Seen {
            entries: AtomicU64::new(0),
            has_run: AtomicBool::new(false),
            late: AtomicBool::new(false),
        })?;
    }
    Ok(seen)
}

/// A job for each that is to be seen.
fn jobs_of(alloc: Global, seen: &[Seen]) -> Result<Vec<Noting<'_>>, AllocError> {
    let mut jobs = Vec::new(alloc);
    for one in seen {
        jobs.push(Noting { seen: one })?;
    }
    Ok(jobs)
}

#[test]
fn each_number_enters_once_before_its_job_runs(rt: HostRuntime) -> Result<(), Fail> {
    for count in 1..MOST_JOBS + 1 {
        let seen = unseen(rt.alloc(), count)?;
        let gate = Watch {
            seen: seen.as_slice(),
            strays: AtomicU64::new(0),
        };
        let mut jobs = jobs_of(rt.alloc(), seen.as_slice())?;
        all(&rt, LEVEL, jobs.as_mut_slice(), &gate);
        assert_eq!(rt; gate.strays.load(SeqCst), 0, "of {}", count);
        for one in &seen {
            assert_eq!(rt; one.entries.load(SeqCst), 1, "of {}", count);
            assert!(rt;
                one.has_run.load(SeqCst) && !one.late.load(SeqCst),
                "of {}",
                count
            );
        }
    }
    Ok(())
}
