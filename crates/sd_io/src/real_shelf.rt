ghost use Rattle.std.specs.Prelude.{◌≡◌, ◌↔◌, ◌<◌, ◌≤◌, ◌^◌, length, IfOk, IsOk, IsTrue, MatchResult, None, OnOk};
ghost use Rattle.std.specs.IoError.{error_kind};
ghost use Rattle.sd_io.specs.Outside.{Rose};
ghost use Rattle.sd_io.specs.RealAnswers.{AnswersRead, AnswersTake, IsCountedTake, IsPutErrorOf, IsWrittenTo};

use crate::streams::{read_opened, write_whole};
use crate::{PutError, Shelf, TakeError};
use sd_base::Rows;
use std::alloc::Global;
use std::fs::File;
use std::io;
use std::io::{ErrorKind, Read, Write};

/// The files of the system. It tells nothing of them, and counts each error but want of memory, a missing file among them.
/// Over any reader whose bytes are known, `take_opened` gives all of them or tells that they are more than the limit; over any
/// writer, `write_created` has written all bytes where it succeeds. What is left to trust is which file stands behind a name.
#[derive(Drop)]
pub struct RealShelf<'a> {
    rt: &'a HostRuntime,
    faults: u64,
    ghost counted: { faults < 2 ^ 64 },
}

impl<'a> RealShelf<'a> {
    /// A shelf that has counted no fault.
    pub fn new(rt: &'a HostRuntime) -> RealShelf<'a>
        ensures { result.faults ≡ 0 }
    {
        RealShelf { rt, faults: 0 }
    }

    fn count(&mut self)
        ensures { Rose self.old.faults self.new.faults }
    {
        self.faults = self.faults.saturating_add(1);
    }

    /// What a take answers to what reading the file gave. Each error but want of memory is counted.
    fn answer(&mut self, read: io::Result<Option<Rows<u8>>>) -> Result<Rows<u8>, TakeError>
        ensures { AnswersRead read self.old.faults self.new.faults result }
    {
        match read {
            Ok(Some(bytes)) => Ok(bytes),
            Ok(None) => Err(TakeError::TooLong),
            Err(error) => {
                if is_lack(&error) {
                    return Err(TakeError::NoMemory);
                }
                self.count();
                Err(TakeError::Failed)
            }
        }
    }

    /// The bytes of a file, if it was opened and has at most `limit`.
    fn take_opened<R: Read + Drop>(
        &mut self,
        alloc: Global,
        opened: io::Result<R>,
        limit: usize,
    ) -> Result<Rows<u8>, TakeError>
        ensures takes { IfOk opened (λ reader. AnswersTake (R.remaining reader) limit result) }
        ensures short { IfOk result (λ bytes. length bytes ≤ limit) }
        ensures counts { IsCountedTake self.old.faults self.new.faults result }
    {
        // No list has `usize::MAX` bytes, so a file of that many can't be taken anyway.
        let read = read_opened(alloc, opened, limit.min(usize::MAX - 1));
        self.answer(read)
    }

    /// Writes all bytes to a file, if it was created. Each error is counted, but want of memory where there is no file yet.
    fn write_created<W: Write>(
        &mut self,
        created: &mut io::Result<W>,
        bytes: &[u8],
    ) -> Result<(), PutError>
        ensures answers { MatchResult result (λ _. IsOk created.old × (self.new.faults ≡ self.old.faults))
            (IsPutErrorOf created.old self.old.faults self.new.faults) }
        ensures writes { OnOk result (IsWrittenTo W.contents created.old created.new bytes.now) }
    {
        match created {
            Ok(file) => {
                if write_whole(file, bytes).is_err() {
                    // The file isn't as before, whatever the cause.
                    self.count();
                    return Err(PutError::Failed);
                }
                Ok(())
            }
            Err(error) => {
                if is_lack(error) {
                    return Err(PutError::NoMemory);
                }
                self.count();
                Err(PutError::Failed)
            }
        }
    }
}

impl Shelf for RealShelf<'_> {
    ghost files = { λ _. None };

    ghost faults = { λ s. s.faults };

    fn take(&mut self, alloc: Global, name: &str, limit: usize) -> Result<Rows<u8>, TakeError> {
        let opened = File::open(self.rt, name);
        self.take_opened(alloc, opened, limit)
    }

    fn put(&mut self, _alloc: Global, name: &str, bytes: &[u8]) -> Result<(), PutError> {
        let mut created = File::create(self.rt, name);
        self.write_created(&mut created, bytes)
    }

    ghost counted = { λ s. s.counted };
}

/// Whether an error is want of memory.
fn is_lack(error: &io::Error) -> bool
    ensures { IsTrue result ↔ (error_kind error.now ≡ ErrorKind.OutOfMemory) }
{
    error.kind() == ErrorKind::OutOfMemory
}
