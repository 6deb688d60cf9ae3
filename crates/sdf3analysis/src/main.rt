//! `sdf3analysis`: the program over real files and the standard streams.
#![tactic(auto)]

use fanout::OpenGate;
use sd_base::{Ledger, Steps, Text};
use sd_command::exit_code;
use sd_io::{RealShelf, RealSink};
use std::alloc::{AllocError, Global};
use std::io::ErrorKind;
use std::process::ExitCode;
use std::{env, io};

/// The exit status where there is no memory for the words.
const NO_MEMORY: u8 = 12;
/// The exit status where the words can't be had for another cause, as where one isn't UTF-8.
const NO_WORDS: u8 = 13;

/// What the program counts.
struct Executions;

impl Ledger for Executions {}

fn main(rt: HostRuntime) -> ExitCode {
    let given = match env::args(&rt) {
        Ok(given) => given,
        Err(error) => return ExitCode::from(code_without_words(&error)),
    };
    let words = match words_of(rt.alloc(), given) {
        Ok(words) => words,
        Err(_) => return ExitCode::from(NO_MEMORY),
    };
    let mut shelf = RealShelf::new(&rt);
    let mut out = RealSink::output(&rt);
    let mut err = RealSink::fault(&rt);
    let mut steps = Steps::new(Executions);
    let code = exit_code(
        &rt,
        rt.alloc(),
        words.as_slice(),
        &mut shelf,
        &mut out,
        &mut err,
        &OpenGate,
        &mut steps,
    );
    let Executions = steps.finish();
    ExitCode::from(code)
}

fn code_without_words(error: &io::Error) -> u8 {
    if error.kind() == ErrorKind::OutOfMemory {
        NO_MEMORY
    } else {
        NO_WORDS
    }
}

// The words after the program's name.
fn words_of(alloc: Global, given: env::Args) -> Result<Vec<Text>, AllocError> {
    let mut words = Vec::new(alloc);
    for word in given.skip(1) {
        words.push(Text::new(word))?;
    }
    Ok(words)
}
