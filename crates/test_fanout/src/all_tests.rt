ghost use Rattle.std.specs.Prelude.{◌≡◌};

use fanout::{Job, OpenGate, all};
use std::alloc::{AllocError, Global};
use std::test::Fail;

/// Squares its number.
#[derive(Clone, Copy, Debug, PartialEq)]
struct Square {
    number: u64,
    square: Option<u64>,
}

impl Job for Square {
    ghost ready = { λ s. Unit {0} };

    ghost ran = { λ old new. new.number ≡ old.number };

    fn run(&mut self) {
        self.square = self.number.checked_mul(self.number);
    }
}

/// Jobs for the numbers below `count`; none has run yet.
fn jobs_below(alloc: Global, count: u64) -> Result<Vec<Square>, AllocError> {
    let mut jobs = Vec::new(alloc);
    for number in 0..count {
        jobs.push(Square {
            number,
            square: None,
        })?;
    }
    Ok(jobs)
}

// 32 parts are reached at 100 jobs, where a part has three or four.
#[test]
fn each_job_runs_in_its_place(rt: HostRuntime) -> Result<(), Fail> {
    for count in [0, 1, 5, 100] {
        let mut jobs = jobs_below(rt.alloc(), count)?;
        all(&rt, 9, jobs.as_mut_slice(), &OpenGate);
        assert_eq!(rt; jobs.len() as u64, count);
        for (k, job) in jobs.iter().enumerate() {
            let number = k as u64;
            assert_eq!(rt; job.number, number);
            assert_eq!(rt; job.square, number.checked_mul(number), "{}", number);
        }
    }
    Ok(())
}
