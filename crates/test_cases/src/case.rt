ghost use Rattle.std.specs.Prelude.{◌<◌};

use crate::block::Block;
use crate::escape::put_unescaped;
use anyhow::{Result, bail, ensure};
use sd_base::Text;
use std::alloc::Global;

/// One run of the top call: its words, its files, which calls of the shelf and the sinks fail, how many bytes each sink
/// has room for, and how many it takes a send.
#[derive(Drop)]
pub(crate) struct Case {
    pub name: Text,
    pub words: Vec<Text>,
    pub files: Vec<NamedFile>,
    /// Names whose files are shown after the run.
    pub looks: Vec<Text>,
    pub shelf_fails: Vec<u64>,
    pub out_fails: Vec<u64>,
    pub err_fails: Vec<u64>,
    pub out_room: usize,
    pub err_room: usize,
    pub most: usize,
    ghost takes_some: { 0 < most },
}

/// A file on the shelf.
#[derive(Drop)]
pub(crate) struct NamedFile {
    pub name: Text,
    pub bytes: Vec<u8>,
}

impl Case {
    /// A case without words and files, in which nothing fails and there is room for each text.
    pub(crate) fn new(alloc: Global, name: &str) -> Result<Case> {
        Ok(Case {
            name: Text::of(alloc, name)?,
            words: Vec::new(alloc),
            files: Vec::new(alloc),
            looks: Vec::new(alloc),
            shelf_fails: Vec::new(alloc),
            out_fails: Vec::new(alloc),
            err_fails: Vec::new(alloc),
            out_room: 4_194_304,
            err_room: 4_194_304,
            most: 65_536,
        })
    }

    /// Puts what a block says into the case.
    pub(crate) fn put(&mut self, alloc: Global, block: Block) -> Result<()> {
        let (key, rest) = block.key();
        match key {
            "words" => self.words = words_of(alloc, rest)?,
            "file" => {
                let name = word_of(alloc, rest)?;
                let bytes = Vec::from_slice(alloc, block.content.as_slice())?;
                self.files.push(NamedFile { name, bytes })?;
            }
            "look" => self.looks.push(word_of(alloc, rest)?)?,
            "shelf-fails" => self.shelf_fails = numbers_of(alloc, rest)?,
            "out-fails" => self.out_fails = numbers_of(alloc, rest)?,
            "err-fails" => self.err_fails = numbers_of(alloc, rest)?,
            "out-room" => self.out_room = rest.parse::<usize>()?,
            "err-room" => self.err_room = rest.parse::<usize>()?,
            "most" => {
                let most = rest.parse::<usize>()?;
                ensure!(most > 0, "a send takes at least one byte");
                self.most = most;
            }
            _ => bail!("no line of a case begins with {key}"),
        }
        Ok(())
    }
}

/// The cases of blocks, among which texts may stand.
pub(crate) fn cases_of(alloc: Global, blocks: Vec<Block>) -> Result<Vec<Case>> {
    let mut cases = Vec::new(alloc);
    for block in blocks {
        put_block(alloc, &mut cases, block)?;
    }
    Ok(cases)
}

// Begins a case, or puts what a block says into the last one.
fn put_block(alloc: Global, cases: &mut Vec<Case>, block: Block) -> Result<()> {
    let (key, rest) = block.key();
    if key == "text" {
        return Ok(());
    }
    if key == "case" {
        cases.push(Case::new(alloc, rest)?)?;
        return Ok(());
    }
    match cases.last_mut() {
        Some(case) => case.put(alloc, block),
        None => bail!("a line of a case before the first case"),
    }
}

// The words of a line, with one space between any two.
fn words_of(alloc: Global, line: &str) -> Result<Vec<Text>> {
    let mut words = Vec::new(alloc);
    for word in line.split(' ') {
        words.push(word_of(alloc, word)?)?;
    }
    Ok(words)
}

fn word_of(alloc: Global, word: &str) -> Result<Text> {
    let mut bytes = Vec::new(alloc);
    put_unescaped(alloc, &mut bytes, word)?;
    Ok(Text::new(String::from_utf8(bytes)?))
}

fn numbers_of(alloc: Global, line: &str) -> Result<Vec<u64>> {
    let mut numbers = Vec::new(alloc);
    for word in line.split(' ') {
        numbers.push(word.parse::<u64>()?)?;
    }
    Ok(numbers)
}
