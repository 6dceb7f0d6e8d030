// Readers read to their end and pieces written whole, in a number of calls that is bounded.
ghost use Rattle.std.specs.Prelude.{◌≡◌, ℕ, length, take, IfOk, IfSome, OnOk, OnErr};
ghost use Rattle.std.specs.Io.Iter.{u64_saturate};
ghost use Rattle.std.specs.IoError.{error_kind};
ghost use Rattle.std.specs.Io.KnownBytes.{Appends};
ghost use Rattle.kb_real.specs.Pieces.{ReadsPiece};

use kb_world::Bytes;
use std::alloc::Global;
use std::io;
use std::io::{ErrorKind, Read, Write};

/// How often a loop calls its reader or its writer before it gives up: 2^32 times.
pub const MOST_CALLS: u64 = 0x1_0000_0000;

/// How many bytes one read asks for.
pub const READ_SIZE: usize = 4096;

/// The error of a loop that gave up. It is no want of memory, so a world tells it as a fault.
pub fn given_up() -> io::Error
    ensures { error_kind result ≡ ErrorKind.TimedOut }
{
    io::Error::from(ErrorKind::TimedOut)
}

/// How many bytes at the front of the buffer one read gave, 0 at the reader's end, or nothing where a signal
/// interrupted it.
pub fn read_once<R: Read>(reader: &mut R, buffer: &mut [u8; READ_SIZE]) -> io::Result<Option<usize>>
    ensures { IfOk result (λ read. ReadsPiece (R.remaining reader.old) (R.remaining reader.new) buffer.new read) }
{
    match reader.read(buffer) {
        Ok(count) => Ok(Some(count)),
        Err(error) if error.kind() == ErrorKind::Interrupted => Ok(None),
        Err(error) => Err(error),
    }
}

/// How many bytes the reader gives up to its end. A reader that hasn't ended after 2^32 reads is an error.
pub fn length_to_end<R: Read>(reader: &mut R) -> io::Result<u64>
    ensures { IfOk result (λ len. IfSome (R.remaining reader.old) (λ bytes. len ≡ u64_saturate (length bytes))) }
{
    let mut buffer = [0u8; READ_SIZE];
    let mut len = 0u64;
    for _ in 0..MOST_CALLS {
        match read_once(reader, &mut buffer)? {
            Some(0) => return Ok(len),
            Some(count) => len = len.saturating_add(count as u64),
            None => {}
        }
    }
    Err(given_up())
}

/// All that the reader gives up to its end. A reader that hasn't ended after 2^32 reads is an error.
pub fn bytes_to_end<R: Read>(alloc: Global, reader: &mut R) -> io::Result<Bytes>
    ensures { IfOk result (λ read. IfSome (R.remaining reader.old) (λ bytes. read ≡ bytes)) }
{
    let mut buffer = [0u8; READ_SIZE];
    let mut bytes = Bytes::new(alloc);
    for _ in 0..MOST_CALLS {
        match read_once(reader, &mut buffer)? {
            Some(0) => return Ok(bytes),
            Some(count) => bytes.push(&buffer[..count])?,
            None => {}
        }
    }
    Err(given_up())
}

/// Writes the whole piece and flushes the writer. A write that takes nothing of what is left is an error, and so is a
/// piece that isn't written whole after 2^32 writes. An error leaves a front of the piece written.
pub fn write_whole<W: Write>(writer: &mut W, piece: &[u8]) -> io::Result<()>
    ensures whole { OnOk result (Appends (W.contents writer.old) (W.contents writer.new) piece.now) }
    ensures front { OnErr result ((n : ℕ) × Appends (W.contents writer.old) (W.contents writer.new) (take n piece.now)) }
{
    let mut rest = piece;
    for _ in 0..MOST_CALLS {
        if rest.is_empty() {
            return writer.flush();
        }
        match writer.write(rest) {
            Ok(0) => return Err(io::Error::from(ErrorKind::WriteZero)),
            Ok(count) => rest = &rest[count..],
            Err(error) if error.kind() == ErrorKind::Interrupted => {}
            Err(error) => return Err(error),
        }
    }
    Err(given_up())
}
