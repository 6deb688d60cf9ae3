use crate::escape::put_unescaped;
use anyhow::{Result, anyhow, bail};
use std::alloc::Global;

/// A line of the cases with the content lines below it.
#[derive(Drop)]
pub(crate) struct Block {
    pub head: String,
    pub content: Vec<u8>,
}

impl Block {
    /// The first word of the line, and what stands after the space behind it.
    pub(crate) fn key(&self) -> (&str, &str) {
        let head = self.head.as_str();
        head.split_once(' ').unwrap_or((head, ""))
    }
}

/// Puts the blocks of a text of cases. Empty lines and those that begin with `#` are passed over.
pub(crate) fn put_blocks(alloc: Global, blocks: &mut Vec<Block>, text: &str) -> Result<()> {
    for line in text.lines() {
        if line.is_empty() || line.starts_with('#') {
            continue;
        }
        if line.starts_with(|c: char| c == '|' || c == '>' || c == '@') {
            put_content(alloc, blocks, line)?;
        } else {
            let head = String::from_str(alloc, line)?;
            let content = Vec::new(alloc);
            blocks.push(Block { head, content })?;
        }
    }
    Ok(())
}

// Puts a content line at the end of the last block.
fn put_content(alloc: Global, blocks: &mut Vec<Block>, line: &str) -> Result<()> {
    let content = content_of(alloc, blocks.as_slice(), line)?;
    match blocks.last_mut() {
        Some(block) => block.content.extend_from_slice(content.as_slice())?,
        None => bail!("content before the first line that takes it"),
    }
    Ok(())
}

// The bytes of a content line: with `|` the text and a line feed, with `>` the text, with `@` those of a text above.
fn content_of(alloc: Global, blocks: &[Block], line: &str) -> Result<Vec<u8>> {
    let mut bytes = Vec::new(alloc);
    if let Some(name) = line.strip_prefix('@') {
        bytes.extend_from_slice(text_of(blocks, name)?)?;
    } else if let Some(text) = line.strip_prefix('>') {
        put_unescaped(alloc, &mut bytes, text)?;
    } else if let Some(text) = line.strip_prefix('|') {
        put_unescaped(alloc, &mut bytes, text)?;
        bytes.push(b'\n')?;
    }
    Ok(bytes)
}

// The bytes of `NAME`; for `NAME N` the first N of them, and for `NAME N..` those after these.
fn text_of<'a>(blocks: &'a [Block], name: &str) -> Result<&'a [u8]> {
    let (name, part) = name.split_once(' ').unwrap_or((name, "0.."));
    for block in blocks {
        if block.key() == ("text", name) {
            return part_of(block.content.as_slice(), part)?.ok_or_else(|| anyhow!(
                "the text {name} has fewer bytes"
            ));
        }
    }
    Err(anyhow!("no text {name} above"))
}

fn part_of<'a>(bytes: &'a [u8], part: &str) -> Result<Option<&'a [u8]>> {
    match part.strip_suffix("..") {
        Some(number) => Ok(bytes.get(number.parse::<usize>()?..)),
        None => Ok(bytes.get(..part.parse::<usize>()?)),
    }
}
