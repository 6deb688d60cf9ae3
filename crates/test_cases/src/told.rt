use crate::block::put_blocks;
use crate::case::{Case, cases_of};
use crate::run::run;
use crate::shown::shown;
use anyhow::Result;
use sd_io::{RealShelf, Shelf};
use std::alloc::Global;
use std::thread::Threads;

/// The file of texts that cases of several files share.
const TEXTS: &str = "texts.cases";

/// The most bytes of a file.
const MOST: usize = 16_777_216;

/// Runs the cases of a file. Prints each that shows something else than is told, and then how many are as told.
pub(crate) fn compare<R: Threads + Sync + Print>(
    rt: &R,
    alloc: Global,
    shelf: &mut RealShelf<'_>,
    name: &str,
) -> Result<()> {
    let cases = cases_in(alloc, shelf, name)?;
    let told_name = format!(in alloc; "{name}.shown")?;
    let told = text_in(alloc, shelf, told_name.as_str())?;
    let told = told.as_str();
    // the first piece is what stands before the first case
    let mut told = told
        .strip_suffix('\n')
        .unwrap_or(told)
        .split("\ncase ")
        .skip(1);
    let mut same = 0u64;
    for case in &cases {
        let left = run(rt, alloc, case)?;
        let text = shown(alloc, case, &left)?;
        match told.next() {
            Some(piece) if is_told(text.as_slice(), piece) => same = same.saturating_add(1),
            _ => rt.write_all(text.as_slice())?,
        }
    }
    if told.next().is_some() {
        let line = format!(in alloc; "{name}: more is told than there are cases\n")?;
        rt.write_all(line.as_bytes())?;
    }
    let line = format!(in alloc; "{name}: {same} of {} cases as told\n", cases.len())?;
    rt.write_all(line.as_bytes())?;
    Ok(())
}

/// Whether a case shows what is told of it, from its name to the line feed at the end.
fn is_told(shown: &[u8], told: &str) -> bool {
    let shown = shown.strip_prefix(b"case ").unwrap_or(shown);
    shown.strip_suffix(b"\n") == Some(told.as_bytes())
}

/// The cases of a file, in which the texts that all share can stand.
fn cases_in(alloc: Global, shelf: &mut RealShelf<'_>, name: &str) -> Result<Vec<Case>> {
    let mut blocks = Vec::new(alloc);
    put_blocks(alloc, &mut blocks, text_in(alloc, shelf, TEXTS)?.as_str())?;
    let cases_name = format!(in alloc; "{name}.cases")?;
    put_blocks(
        alloc,
        &mut blocks,
        text_in(alloc, shelf, cases_name.as_str())?.as_str(),
    )?;
    cases_of(alloc, blocks)
}

fn text_in(alloc: Global, shelf: &mut RealShelf<'_>, name: &str) -> Result<String> {
    let bytes = shelf.take(alloc, name, MOST)?;
    Ok(String::from_utf8(bytes.into_vec())?)
}
