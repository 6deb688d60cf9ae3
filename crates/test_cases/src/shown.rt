use crate::case::Case;
use crate::escape::put_escaped;
use crate::run::Left;
use anyhow::Result;
use sd_io::MemoryShelf;
use std::alloc::Global;

/// What a run left behind: its status, what went to the sinks, the faults that were counted, and the files that aren't
/// as they were or are to be looked at.
pub(crate) fn shown(alloc: Global, case: &Case, left: &Left) -> Result<Vec<u8>> {
    let mut text = Vec::new(alloc);
    put_head(alloc, &mut text, "case", case.name.as_str())?;
    let status = format!(in alloc; "status {}\n", left.status.code())?;
    text.extend_from_slice(status.as_bytes())?;
    put_lines(alloc, &mut text, "out", left.out.sent())?;
    put_lines(alloc, &mut text, "err", left.err.sent())?;
    put_faults(alloc, &mut text, "shelf", left.shelf.faults())?;
    put_faults(alloc, &mut text, "out", left.out.faults())?;
    put_faults(alloc, &mut text, "err", left.err.faults())?;
    for file in &case.files {
        let name = file.name.as_str();
        if left.shelf.file(name) != Some(file.bytes.as_slice()) {
            put_file(alloc, &mut text, &left.shelf, name)?;
        }
    }
    for name in &case.looks {
        put_file(alloc, &mut text, &left.shelf, name.as_str())?;
    }
    Ok(text)
}

fn put_file(alloc: Global, text: &mut Vec<u8>, shelf: &MemoryShelf, name: &str) -> Result<()> {
    match shelf.file(name) {
        Some(bytes) => {
            put_head(alloc, text, "file", name)?;
            put_lines(alloc, text, "", bytes)
        }
        None => put_head(alloc, text, "no file", name),
    }
}

fn put_faults(alloc: Global, text: &mut Vec<u8>, of: &str, faults: u64) -> Result<()> {
    if faults > 0 {
        let line = format!(in alloc; "{of} faults {faults}\n")?;
        text.extend_from_slice(line.as_bytes())?;
    }
    Ok(())
}

fn put_head(alloc: Global, text: &mut Vec<u8>, key: &str, name: &str) -> Result<()> {
    text.extend_from_slice(key.as_bytes())?;
    text.push(b' ')?;
    put_escaped(alloc, text, name.as_bytes())?;
    text.push(b'\n')?;
    Ok(())
}

// A line for each of the bytes' lines, with `|` before it, or with `>` where no line feed ends it.
fn put_lines(alloc: Global, text: &mut Vec<u8>, label: &str, bytes: &[u8]) -> Result<()> {
    for line in bytes.split_inclusive(|byte| *byte == b'\n') {
        text.extend_from_slice(label.as_bytes())?;
        match line.strip_suffix(b"\n") {
            Some(whole) => {
                text.push(b'|')?;
                put_escaped(alloc, text, whole)?;
            }
            None => {
                text.push(b'>')?;
                put_escaped(alloc, text, line)?;
            }
        }
        text.push(b'\n')?;
    }
    Ok(())
}
