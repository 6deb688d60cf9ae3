//! Runs the top call on cases over a shelf and sinks in memory. Each line of standard input names a file of cases:
//! NAME.cases, and NAME.shown with what they show. Standard output has each case that shows something else, and for
//! each file how many of its cases show what is told.
#![tactic(auto)]

mod block;
mod case;
mod escape;
mod run;
mod shown;
mod told;

use anyhow::Result;
use sd_io::RealShelf;
use std::io;

fn main(rt: HostRuntime) -> Result<()> {
    let alloc = rt.alloc();
    let names = io::read_to_string(alloc, rt.reader())?;
    let mut shelf = RealShelf::new(&rt);
    for name in names.as_str().lines() {
        told::compare(&rt, alloc, &mut shelf, name)?;
    }
    Ok(())
}
