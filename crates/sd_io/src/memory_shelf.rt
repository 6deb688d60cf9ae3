ghost use Rattle.std.specs.Prelude.{◌≡◌, ◌<◌, ◌≤◌, ◌^◌, ◌∷◌, ◌↔◌, IsTrue, Bool, true, is_ok, if◌then◌else◌, IfErr, IfOk, MatchBool, MatchResult, length, Option, Some, None};
ghost use Rattle.std.specs.Option.{option_copied};
ghost use Rattle.sd_io.specs.Files.{file_named, NamesDiffer};
ghost use Rattle.sd_io.specs.Memory.{faults_after, is_failing, IsTaken};
ghost use Rattle.sd_io.specs.Outside.{next_count};

use crate::{PutError, Shelf, TakeError};
use sd_base::{NoMemory, Rows, Text};
use std::alloc::Global;
use std::mem;

/// A shelf in memory that tells its files. A call fails where it was chosen to, and a take also where there is no file of the name.
#[derive(Drop)]
pub struct MemoryShelf {
    files: Rows<(Text, Rows<u8>)>,
    failing: Rows<u64>,
    calls: u64,
    faults: u64,
    ghost counted: { faults < 2 ^ 64 },
}

impl MemoryShelf {
    /// A shelf with these files, whose calls are numbered from 1; the numbers in `failing` are those of
    /// the calls that fail with a counted fault. To take what the shelf doesn't hold fails too, and counts none.
    pub fn new(files: Rows<(Text, Rows<u8>)>, failing: Rows<u64>) -> Result<MemoryShelf, NoMemory>
        requires { NamesDiffer files }
        ensures { IfOk result (λ s. (s.files ≡ files) × (s.failing ≡ failing) × (s.calls ≡ 0) × (s.faults ≡ 0)) }
    {
        Ok(MemoryShelf {
            files,
            failing,
            calls: 0,
            faults: 0,
        })
    }

    /// How many faults were counted.
    pub fn faults(&self) -> u64
        ensures { result ≡ self.now.faults }
    {
        self.faults
    }

    /// The bytes of a file; `None` where no file has that name. Cost: linear in the files.
    pub fn file(&self, name: &str) -> Option<&[u8]>
        ensures { option_copied result ≡ file_named name.now self.now.files }
    {
        find(self.files.as_slice(), name)
    }

    // Puts a file before the others, so that it is the one of its name.
    fn add(&mut self, alloc: Global, file: (Text, Rows<u8>)) -> Result<(), PutError>
        ensures files { self.new.files ≡ (if is_ok result then file ∷ self.old.files else self.old.files) }
        ensures lack { IfErr result (λ e. e ≡ PutError.NoMemory) }
        ensures failing { self.new.failing ≡ self.old.failing }
        ensures calls { self.new.calls ≡ self.old.calls }
        ensures faults { self.new.faults ≡ self.old.faults }
    {
        let mut files = mem::replace(&mut self.files, Rows::new(alloc)).into_vec();
        let added = files.insert(0, file);
        self.files = Rows::from_vec(files);
        match added {
            Ok(()) => Ok(()),
            Err(_) => Err(PutError::NoMemory),
        }
    }

    // Counts a call, and a fault where this call is to fail.
    fn is_failing_call(&mut self) -> bool
        ensures listed { result ≡ is_failing self.old.calls self.old.failing }
        ensures numbered { self.new.calls ≡ next_count self.old.calls }
        ensures faults { self.new.faults ≡ faults_after result self.old.faults }
        ensures files { self.new.files ≡ self.old.files }
        ensures failing { self.new.failing ≡ self.old.failing }
    {
        self.calls = self.calls.saturating_add(1);
        let fails = self.failing.as_slice().contains(&self.calls);
        if fails {
            self.faults = self.faults.saturating_add(1);
        }
        fails
    }
}

impl Shelf for MemoryShelf {
    ghost files = { λ s. Some (λ n. file_named n s.files) };

    ghost faults = { λ s. s.faults };

    fn take(&mut self, alloc: Global, name: &str, limit: usize) -> Result<Rows<u8>, TakeError>
        ensures taken { IsTaken (is_failing self.old.calls self.old.failing) (file_named name.now self.old.files) limit result }
        ensures files { self.new.files ≡ self.old.files }
        ensures failing { self.new.failing ≡ self.old.failing }
        ensures numbered { self.new.calls ≡ next_count self.old.calls }
        ensures counts { self.new.faults ≡ faults_after (is_failing self.old.calls self.old.failing) self.old.faults }
    {
        if self.is_failing_call() {
            return Err(TakeError::Failed);
        }
        match find(self.files.as_slice(), name) {
            None => Err(TakeError::Failed),
            Some(bytes) => {
                if bytes.len() > limit {
                    Err(TakeError::TooLong)
                } else {
                    copied(alloc, bytes)
                }
            }
        }
    }

    fn put(&mut self, alloc: Global, name: &str, bytes: &[u8]) -> Result<(), PutError>
        ensures answers { MatchBool (is_failing self.old.calls self.old.failing) (result ≡ Err PutError.Failed)
            (IfErr result (λ error. error ≡ PutError.NoMemory)) }
        ensures files { self.new.files ≡ (if is_ok result then (name.now, bytes.now) ∷ self.old.files else self.old.files) }
        ensures failing { self.new.failing ≡ self.old.failing }
        ensures numbered { self.new.calls ≡ next_count self.old.calls }
        ensures counts { self.new.faults ≡ faults_after (is_failing self.old.calls self.old.failing) self.old.faults }
    {
        if self.is_failing_call() {
            return Err(PutError::Failed);
        }
        let file = file_of(alloc, name, bytes)?;
        self.add(alloc, file)
    }

    ghost counted = { λ s. s.counted };
}

/// Whether no two files have one name. Cost: quadratic in the files.
pub fn names_differ(files: &[(Text, Rows<u8>)]) -> bool
    ensures { IsTrue result ↔ NamesDiffer files.now }
{
    for i in 0..files.len() {
        if find(&files[..i], files[i].0.as_str()).is_some() {
            return false;
        }
    }
    true
}

fn find<'a>(files: &'a [(Text, Rows<u8>)], name: &str) -> Option<&'a [u8]>
    ensures { option_copied result ≡ file_named name.now files.now }
{
    for file in files {
        if file.0.as_str() == name {
            return Some(file.1.as_slice());
        }
    }
    None
}

fn file_of(alloc: Global, name: &str, bytes: &[u8]) -> Result<(Text, Rows<u8>), PutError>
    ensures { MatchResult result (λ f. (f.0 ≡ name.now) × (f.1 ≡ bytes.now)) (λ e. e ≡ PutError.NoMemory) }
{
    let text = Text::of(alloc, name)?;
    let copy = Rows::from_vec(Vec::from_slice(alloc, bytes)?);
    Ok((text, copy))
}

fn copied(alloc: Global, bytes: &[u8]) -> Result<Rows<u8>, TakeError>
    ensures { MatchResult result (λ b. b ≡ bytes.now) (λ e. e ≡ TakeError.NoMemory) }
{
    Ok(Rows::from_vec(Vec::from_slice(alloc, bytes)?))
}
