//! Whole inputs and whole outputs: what is read to its end, what is written to its last byte.
ghost use Rattle.std.specs.Prelude.{◌≡◌, ◌<◌, ◌≤◌, ℕ, List, length, take, vec_len, IfOk, OnOk, IfErr, IfSome, IsErrOf};
ghost use Rattle.std.specs.Io.KnownBytes.{Appends, Consumes, IsAtEnd};

use std::alloc::{AllocError, Allocator};
use std::io::{ErrorKind, Read, Write};

/// The most bytes that are read from one file or standard input: 16 MiB.
pub const MOST_BYTES: usize = 16_777_216;

/// The most read calls that are made for one input, tries after an interruption among them.
pub const MOST_READS: u32 = 33_554_432;

/// How many bytes one read call asks for.
const CHUNK: usize = 65536;

/// Why an input can't be read whole.
#[derive(Clone, Copy, Debug, PartialEq, Eq)]
pub enum ReadFault {
    /// A read failed, or the most read calls were made and the end had not come.
    Read,
    /// The input has more than `MOST_BYTES` bytes.
    TooLong,
    /// Memory ran out.
    Memory,
}

impl From<AllocError> for ReadFault {
    ghost use Rattle.std.specs.Prelude.{◌≡◌};
    ghost use Rattle.ee_interface.specs.declared.command_line.files.ReadFault.TheVariants.{Memory};

    ghost from_gives = { λ _ fault. fault ≡ Memory };

    fn from(_error: AllocError) -> ReadFault {
        ReadFault::Memory
    }
}

/// A write failed or took no byte, and this many bytes of what was to be written went out.
#[derive(Clone, Copy, Debug, PartialEq, Eq)]
pub struct Stopped {
    pub written: usize,
}

/// Reads all that the reader has left. A read that was interrupted is tried again.
///
/// # Errors
///
/// `Read` where a read fails, at the latest after `MOST_READS` calls; `TooLong`; `Memory`.
pub fn read_whole<A: Allocator + Copy, R: Read>(
    alloc: A,
    reader: &mut R,
) -> Result<Vec<u8, A>, ReadFault>
    ensures whole { IfOk result
        (λ bytes. IfSome (R.remaining reader.old) (λ all. bytes.items ≡ all)) }
    ensures end { OnOk result (IsAtEnd (R.remaining reader.new)) }
    ensures short { IfOk result (λ bytes. vec_len bytes ≤ MOST_BYTES) }
    ensures too_long { IsErrOf result ReadFault.TooLong
        → IfSome (R.remaining reader.old) (λ all. MOST_BYTES < length all) }
    // What was read by then is not too long.
    ensures failed { IsErrOf result ReadFault.Read
        → (bs : List ℕ) × Consumes (R.remaining reader.old) (R.remaining reader.new) bs
        × (length bs ≤ MOST_BYTES) }
{
    let mut bytes = Vec::new(alloc);
    let mut chunk = [0u8; CHUNK];
    'reading: for _ in 0..MOST_READS {
        match reader.read(&mut chunk) {
            Ok(0) => return Ok(bytes),
            Ok(count) if count > MOST_BYTES - bytes.len() => return Err(ReadFault::TooLong),
            Ok(count) => bytes.extend_from_slice(&chunk[..count])?,
            Err(error) if error.kind() == ErrorKind::Interrupted => {}
            Err(_) => return Err(ReadFault::Read),
        }
    }
    Err(ReadFault::Read)
}

/// Writes all the bytes, in order.
///
/// # Errors
///
/// `Stopped` at the first write that fails, an interruption included, or takes no byte: exactly
/// that front of the bytes went out.
pub fn write_whole<W: Write>(writer: &mut W, bytes: &[u8]) -> Result<(), Stopped>
    ensures all { OnOk result (Appends (W.contents writer.old) (W.contents writer.new) bytes.now) }
    ensures front { IfErr result (λ stopped.
        Appends (W.contents writer.old) (W.contents writer.new) (take stopped.written bytes.now)) }
    ensures short { IfErr result (λ stopped. stopped.written < length bytes.now) }
{
    let mut written = 0;
    'writing: while written < bytes.len() {
        match writer.write(&bytes[written..]) {
            Ok(0) | Err(_) => return Err(Stopped { written }),
            Ok(count) => written += count,
        }
    }
    Ok(())
}
