use anyhow::Result;
use fanout::{Job, OpenGate, all};
use std::alloc::{AllocError, Global};
use std::thread::Threads;

/// Nothing but arithmetic on a number.
#[derive(Clone, Copy, Debug)]
struct Mixing {
    turns: u64,
    number: u64,
}

impl Job for Mixing {
    ghost ready = { λ job. Unit {0} };

    ghost ran = { λ old new. Unit {0} };

    fn run(&mut self) {
        for _turn in 0..self.turns {
            self.number = mixed(self.number);
        }
    }
}

/// Runs levels of jobs of so many turns one level after another, the jobs of a level side by side, and tells how many jobs
/// there were, and what they came to.
pub(crate) fn line_of<R: Threads + Sync>(
    rt: &R,
    alloc: Global,
    words: &[String],
) -> Result<Option<String>> {
    let numbers = numbers_of(alloc, words)?;
    let [turns, sizes @ ..] = numbers.as_slice() else {
        return Ok(None);
    };
    let mut jobs = 0u64;
    let mut number = 0;
    for size in sizes {
        jobs = jobs.saturating_add(*size);
        number ^= run_level(rt, alloc, *turns, *size)?;
    }
    Ok(Some(format!(in alloc; "{jobs} jobs, {number}")?))
}

fn numbers_of(alloc: Global, words: &[String]) -> Result<Vec<u64>> {
    let mut numbers = Vec::new(alloc);
    for word in words {
        numbers.push(word.as_str().parse::<u64>()?)?;
    }
    Ok(numbers)
}

/// Runs a level of so many jobs, and tells what they came to.
fn run_level<R: Threads + Sync>(
    rt: &R,
    alloc: Global,
    turns: u64,
    size: u64,
) -> Result<u64, AllocError> {
    let mut jobs = Vec::new(alloc);
    for number in 0..size {
        jobs.push(Mixing {
            turns,
            number: number + 1,
        })?;
    }
    all(rt, size, jobs.as_mut_slice(), &OpenGate);
    Ok(jobs.iter().fold(0, |sum, job| sum ^ job.number))
}

/// The next number of a sequence that no formula shortens: three shifts, each by exclusive or (Marsaglia 2003).
fn mixed(number: u64) -> u64 {
    let number = number ^ number << 13;
    let number = number ^ number >> 7;
    number ^ number << 17
}
