//! What the real shelf and sinks answer on files beside the program and on devices. Standard error gets one line, and standard
//! output all others.
#![tactic(auto)]

use anyhow::Result;
use sd_io::{PutError, RealShelf, RealSink, Shelf, Sink, TakeError, send_all};
use std::alloc::Global;
use std::fs::File;

/// A file of eight bytes.
const EIGHT: &str = "eight bytes.txt";
/// A file that isn't there before it is put.
const PUT: &str = "a put file.txt";
/// A file of `LARGE_BYTES` that is put.
const LARGE: &str = "a large file.txt";
/// More bytes than one read or write of the system gives or takes.
const LARGE_BYTES: usize = 100_000;
/// A device that has no room for a byte.
const FULL: &str = "/dev/full";
/// A device whose bytes don't end.
const ENDLESS: &str = "/dev/zero";

fn main(rt: HostRuntime) -> Result<()> {
    let alloc = rt.alloc();
    let mut shelf = RealShelf::new(&rt);
    let mut out = RealSink::output(&rt);
    show_take(alloc, &mut shelf, &mut out, EIGHT, 8)?;
    show_take(alloc, &mut shelf, &mut out, EIGHT, 7)?;
    show_take(alloc, &mut shelf, &mut out, EIGHT, usize::MAX)?;
    show_take(alloc, &mut shelf, &mut out, PUT, 8)?;
    show_put(alloc, &mut shelf, &mut out, PUT, b"longer\n")?;
    show_put(alloc, &mut shelf, &mut out, PUT, b"short\n")?;
    show_take(alloc, &mut shelf, &mut out, PUT, 8)?;
    show_put(alloc, &mut shelf, &mut out, "no folder/file.txt", b"lost")?;
    show_take(alloc, &mut shelf, &mut out, "no folder/file.txt", 8)?;
    show_large(alloc, &mut shelf, &mut out)?;
    show_devices(&rt, &mut shelf, &mut out)?;
    send_all(
        &mut RealSink::fault(&rt),
        b"This line is for standard error.\n",
    )?;
    Ok(())
}

/// Puts a large file, takes it again, and shows whether the bytes are the same.
fn show_large<S: Shelf, K: Sink>(alloc: Global, shelf: &mut S, out: &mut K) -> Result<()> {
    let bytes = large_bytes(alloc)?;
    show_put(alloc, shelf, out, LARGE, bytes.as_slice())?;
    send_all(out, b"take the large file: ")?;
    let taken = shelf.take(alloc, LARGE, LARGE_BYTES)?;
    if taken.as_slice() == bytes.as_slice() {
        send_all(out, b"the same bytes\n")?;
    } else {
        send_all(out, b"other bytes\n")?;
    }
    show_take(alloc, shelf, out, LARGE, LARGE_BYTES - 1)
}

fn large_bytes(alloc: Global) -> Result<Vec<u8>> {
    let mut bytes = Vec::with_capacity(alloc, LARGE_BYTES)?;
    for i in 0..LARGE_BYTES {
        bytes.push((i % 251) as u8)?;
    }
    Ok(bytes)
}

/// A file and both streams where nothing can be written, and a file that doesn't end.
fn show_devices<S: Shelf, K: Sink>(rt: &HostRuntime, shelf: &mut S, out: &mut K) -> Result<()> {
    let alloc = rt.alloc();
    show_put(alloc, shelf, out, FULL, b"lost")?;
    let mut full_output: RealSink<File, File> = RealSink::over_output(File::create(rt, FULL)?);
    show_send(&mut full_output, out, b"send to a full output: ")?;
    let mut full_error: RealSink<File, File> = RealSink::over_fault(File::create(rt, FULL)?);
    show_send(&mut full_error, out, b"send to a full error stream: ")?;
    show_take(alloc, shelf, out, ENDLESS, 8)
}

fn show_send<F: Sink, K: Sink>(full: &mut F, out: &mut K, call: &[u8]) -> Result<()> {
    send_all(out, call)?;
    match send_all(full, b"lost") {
        Ok(()) => send_all(out, b"done\n")?,
        Err(_) => send_all(out, b"failed\n")?,
    }
    Ok(())
}

fn show_take<S: Shelf, K: Sink>(
    alloc: Global,
    shelf: &mut S,
    out: &mut K,
    name: &str,
    limit: usize,
) -> Result<()> {
    let call = format!(in alloc; "take {name}, at most {limit}: ")?;
    send_all(out, call.as_bytes())?;
    match shelf.take(alloc, name, limit) {
        Ok(bytes) => send_all(out, bytes.as_slice())?,
        Err(TakeError::Failed) => send_all(out, b"failed")?,
        Err(TakeError::TooLong) => send_all(out, b"too long")?,
        Err(TakeError::NoMemory) => send_all(out, b"no memory")?,
    }
    send_all(out, b"\n")?;
    Ok(())
}

fn show_put<S: Shelf, K: Sink>(
    alloc: Global,
    shelf: &mut S,
    out: &mut K,
    name: &str,
    bytes: &[u8],
) -> Result<()> {
    let call = format!(in alloc; "put {name}: ")?;
    send_all(out, call.as_bytes())?;
    match shelf.put(alloc, name, bytes) {
        Ok(()) => send_all(out, b"done")?,
        Err(PutError::Failed) => send_all(out, b"failed")?,
        Err(PutError::NoMemory) => send_all(out, b"no memory")?,
    }
    send_all(out, b"\n")?;
    Ok(())
}
