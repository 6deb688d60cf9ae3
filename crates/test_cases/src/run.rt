use crate::case::Case;
use anyhow::{Result, ensure};
use fanout::OpenGate;
use sd_base::{Ledger, Rows, Steps, Text};
use sd_command::{Status, analyse};
use sd_io::{MemoryShelf, MemorySink, names_differ};
use std::alloc::Global;
use std::thread::Threads;

/// What the runs' counters count.
struct Executions;

impl Ledger for Executions {}

/// What a run left behind it.
#[derive(Drop)]
pub(crate) struct Left {
    pub status: Status,
    pub shelf: MemoryShelf,
    pub out: MemorySink,
    pub err: MemorySink,
}

/// Runs the top call on a case.
pub(crate) fn run<R: Threads + Sync>(rt: &R, alloc: Global, case: &Case) -> Result<Left> {
    let mut shelf = shelf_of(alloc, case)?;
    let out_fails = numbers(alloc, case.out_fails.as_slice())?;
    let mut out = MemorySink::new(alloc, case.out_room, case.most, out_fails)?;
    let err_fails = numbers(alloc, case.err_fails.as_slice())?;
    let mut err = MemorySink::new(alloc, case.err_room, case.most, err_fails)?;
    let mut steps = Steps::new(Executions);
    let words = case.words.as_slice();
    let status = analyse(
        rt, alloc, words, &mut shelf, &mut out, &mut err, &OpenGate, &mut steps,
    );
    let Executions = steps.finish();
    Ok(Left {
        status,
        shelf,
        out,
        err,
    })
}

fn shelf_of(alloc: Global, case: &Case) -> Result<MemoryShelf> {
    let mut files = Rows::new(alloc);
    for file in &case.files {
        let bytes = Vec::from_slice(alloc, file.bytes.as_slice())?;
        files.push((file.name.copy(alloc)?, Rows::from_vec(bytes)))?;
    }
    ensure!(names_differ(files.as_slice()), "two files have one name");
    Ok(MemoryShelf::new(files, numbers(alloc, case.shelf_fails.as_slice())?)?)
}

fn numbers(alloc: Global, list: &[u64]) -> Result<Rows<u64>> {
    Ok(Rows::from_vec(Vec::from_slice(alloc, list)?))
}
