ghost use Rattle.std.specs.Prelude.{◌≡◌, ◌<◌, ◌≤◌, length, take, Err, IfErr, IfOk, IfSome, OnOk, MatchResult};
ghost use Rattle.std.specs.Io.KnownBytes.{Appends, Keeps};
ghost use Rattle.sd_io.specs.Streams.{IsWithin};

use crate::Failed;
use sd_base::Rows;
use std::alloc::Global;
use std::io;
use std::io::{Read, Write};

/// The bytes that a reader has left, if they are at most `limit`; `None` where they are more. One byte past the
/// limit is read, and no more.
fn read_within<R: Read + Drop>(
    alloc: Global,
    reader: R,
    limit: usize,
) -> io::Result<Option<Rows<u8>>>
    requires { limit < usize.MAX }
    ensures fits { IfOk result (λ given. IfSome given (λ bytes. length bytes ≤ limit)) }
    ensures within { IfOk result (IsWithin (R.remaining reader) limit) }
{
    let mut bytes = Vec::new(alloc);
    reader.take(limit as u64 + 1).read_to_end(&mut bytes)?;
    if bytes.len() > limit {
        Ok(None)
    } else {
        Ok(Some(Rows::from_vec(bytes)))
    }
}

/// What `read_within` gives, if the reader was opened, and else the error of opening it.
pub(crate) fn read_opened<R: Read + Drop>(
    alloc: Global,
    opened: io::Result<R>,
    limit: usize,
) -> io::Result<Option<Rows<u8>>>
    requires { limit < usize.MAX }
    ensures fits { IfOk result (λ given. IfSome given (λ bytes. length bytes ≤ limit)) }
    ensures within { IfOk opened (λ reader. IfOk result (IsWithin (R.remaining reader) limit)) }
    ensures error { IfErr opened (λ error. result ≡ Err error) }
{
    match opened {
        Ok(reader) => read_within(alloc, reader, limit),
        Err(error) => Err(error),
    }
}

/// Writes all bytes; where it fails, a first part of them may have been written.
pub(crate) fn write_whole<W: Write>(writer: &mut W, bytes: &[u8]) -> io::Result<()>
    ensures { OnOk result (Appends (W.contents writer.old) (W.contents writer.new) bytes.now) }
{
    writer.write_all(bytes)?;
    writer.flush()
}

/// Writes the first bytes of a piece, at least one, and answers how many. A write that takes none has failed.
pub(crate) fn write_some<W: Write>(writer: &mut W, piece: &[u8]) -> Result<usize, Failed>
    ensures some { IfOk result (λ n. (0 < n) × (n ≤ length piece.now)) }
    ensures bytes { MatchResult result (λ n. Appends (W.contents writer.old) (W.contents writer.new) (take n piece.now))
        (λ _. Keeps (W.contents writer.old) (W.contents writer.new)) }
{
    match writer.write(piece) {
        Ok(n) if n > 0 => Ok(n),
        _ => Err(Failed),
    }
}
