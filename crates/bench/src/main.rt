//! Runs to measure; each prints a line. `bench balance ACTORS CHANNELS REPEATS` solves one graph so often. `bench levels TURNS SIZE..`
//! runs levels of so many jobs one after another, the jobs of a level side by side, each so many turns of arithmetic. `bench engine
//! decoder STARTS`, `bench engine converter STARTS` and `bench engine ring ACTORS STARTS` run the engine of self-timed execution
//! alone. `bench loops GRAPH overlap STATES` and `bench loops GRAPH no-overlap STATES` find a loop by events, and do all but search
//! where STATES is 0. Several runs stand one after another with `--` between.
#![tactic(auto)]

mod balancing;
mod chain;
mod mixing;
mod running;
mod searching;

use anyhow::Result;
use sd_io::RealShelf;
use std::alloc::Global;
use std::process::ExitCode;
use std::thread::Threads;
use std::{env, io};

fn main(rt: HostRuntime) -> Result<ExitCode> {
    let mut words = Vec::new(rt.alloc());
    for word in env::args(&rt)?.skip(1) {
        words.push(word)?;
    }
    let mut shelf = RealShelf::new(&rt);
    for request in words.as_slice().split(|word| word.as_str() == "--") {
        let Some(line) = line_of(&rt, rt.alloc(), &mut shelf, request)? else {
            println!(rt; "usage: bench balance|levels|engine|loops WORD.. [-- ..]")?;
            return Ok(ExitCode::from(2));
        };
        println!(rt; "{line}")?;
    }
    Ok(ExitCode::from(0))
}

/// What a run prints. None: no run has these words.
fn line_of<R: Threads + Sync>(
    rt: &R,
    alloc: Global,
    shelf: &mut RealShelf<'_>,
    words: &[String],
) -> Result<Option<String>> {
    let [what, words @ ..] = words else {
        return Ok(None);
    };
    match what.as_str() {
        "balance" => balancing::line_of(alloc, words),
        "levels" => mixing::line_of(rt, alloc, words),
        "engine" => running::line_of(alloc, words),
        "loops" => searching::line_of(alloc, shelf, words),
        _ => Ok(None),
    }
}
