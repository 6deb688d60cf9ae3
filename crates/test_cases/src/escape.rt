ghost use Rattle.std.specs.Prelude.{◌<◌, length};

use anyhow::{Context, Result, bail};
use std::alloc::Global;

/// How often a unit has to follow itself to be shown as copies.
const LEAST_COPIES: usize = 64;

/// The most bytes of a unit that is shown as copies.
const MOST_UNIT: usize = 4;

/// Puts the bytes of a text with escapes: `\\` a backslash, `\xHH` a byte, `\e` nothing, and `\{COUNT UNIT}` copies of
/// a unit, in which `#` is the number of the copy, from 0.
pub(crate) fn put_unescaped(alloc: Global, bytes: &mut Vec<u8>, text: &str) -> Result<()> {
    let mut rest = text;
    for _ in 0..text.len() {
        let Some((plain, escape)) = rest.split_once('\\') else {
            break;
        };
        bytes.extend_from_slice(plain.as_bytes())?;
        rest = put_escape(alloc, bytes, escape)?;
    }
    bytes.extend_from_slice(rest.as_bytes())?;
    Ok(())
}

// Puts the bytes of the escape at the start of a text, and answers what follows it.
fn put_escape<'a>(alloc: Global, bytes: &mut Vec<u8>, escape: &'a str) -> Result<&'a str> {
    if let Some(rest) = escape.strip_prefix('\\') {
        bytes.push(b'\\')?;
        Ok(rest)
    } else if let Some(rest) = escape.strip_prefix('e') {
        Ok(rest)
    } else if let Some(rest) = escape.strip_prefix('x') {
        let (digits, rest) = rest.split_at_checked(2).context("a byte has two digits")?;
        bytes.push(u8::from_str_radix(digits, 16)?)?;
        Ok(rest)
    } else if let Some(rest) = escape.strip_prefix('{') {
        let (copies, rest) = rest.split_once('}').context("copies end with }")?;
        put_copies(alloc, bytes, copies)?;
        Ok(rest)
    } else {
        bail!("no escape of this kind: {escape}")
    }
}

// Puts the copies of `COUNT UNIT`.
fn put_copies(alloc: Global, bytes: &mut Vec<u8>, copies: &str) -> Result<()> {
    let (count, unit) = copies.split_once(' ').context("copies are COUNT UNIT")?;
    let count = count.parse::<u64>()?;
    for number in 0..count {
        put_copy(alloc, bytes, unit, number)?;
    }
    Ok(())
}

fn put_copy(alloc: Global, bytes: &mut Vec<u8>, unit: &str, number: u64) -> Result<()> {
    for (i, piece) in unit.split('#').enumerate() {
        if i > 0 {
            let digits = format!(in alloc; "{number}")?;
            bytes.extend_from_slice(digits.as_bytes())?;
        }
        bytes.extend_from_slice(piece.as_bytes())?;
    }
    Ok(())
}

/// Puts a line with escapes, so that it is ASCII text: where a unit of at most four plain bytes follows itself often,
/// as copies.
pub(crate) fn put_escaped(alloc: Global, out: &mut Vec<u8>, line: &[u8]) -> Result<()> {
    let mut rest = line;
    while let Some((first, others)) = rest.split_first() {
        match copies_at(rest) {
            Some((unit, count)) => {
                let start = format!(in alloc; "\\{{{count} ")?;
                out.extend_from_slice(start.as_bytes())?;
                out.extend_from_slice(unit)?;
                out.push(b'}')?;
                let later = unit.len().saturating_mul(count).saturating_sub(1);
                rest = &others[later.min(others.len())..];
            }
            None => {
                put_byte(alloc, out, *first)?;
                rest = others;
            }
        }
    }
    Ok(())
}

// The shortest unit that follows itself often at the start, and how often it stands there.
fn copies_at(rest: &[u8]) -> Option<(&[u8], usize)> {
    for size in 1..=MOST_UNIT {
        let unit = rest.get(..size)?;
        let count = count_of(rest, unit);
        if count >= LEAST_COPIES && unit.iter().all(|byte| is_unit_byte(*byte)) {
            return Some((unit, count));
        }
    }
    None
}

// How often a unit stands at the start.
fn count_of(rest: &[u8], unit: &[u8]) -> usize
    requires { 0 < length unit.now }
{
    rest.chunks(unit.len())
        .take_while(|chunk| *chunk == unit)
        .count()
}

// Whether a byte means itself in the unit of copies.
fn is_unit_byte(byte: u8) -> bool {
    is_plain(byte) && byte != b'#' && byte != b'}'
}

// Whether a byte is printable ASCII and no backslash.
fn is_plain(byte: u8) -> bool {
    (b' '..=b'~').contains(&byte) && byte != b'\\'
}

fn put_byte(alloc: Global, out: &mut Vec<u8>, byte: u8) -> Result<()> {
    if is_plain(byte) {
        out.push(byte)?;
    } else if byte == b'\\' {
        out.extend_from_slice(b"\\\\")?;
    } else {
        let escape = format!(in alloc; "\\x{byte:02x}")?;
        out.extend_from_slice(escape.as_bytes())?;
    }
    Ok(())
}
