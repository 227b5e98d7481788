//! Whole files and whole texts, over many calls.

ghost use Rattle.std.specs.Prelude.{◌≡◌, ◌≤◌, IfOk, vec_len};
ghost use Rattle.outside.specs.Whole.{whole_of, Answers, WholeCounts};
ghost use Rattle.outside.specs.Sink.{Appends, SinkCounts};

use super::{Files, ReadAnswer, Sink, TakeAnswer};
use std::alloc::{AllocError, Global};

/// Why a file was not read whole.
#[derive(Clone, Copy, Debug, PartialEq, Eq)]
pub enum WholeError {
    /// There is no file of this name.
    Missing,
    /// The file is longer than the limit.
    TooLong,
    /// A read failed.
    ReadFault,
    /// There was no memory for it.
    Memory,
}

impl From<AllocError> for WholeError {
    ghost use Rattle.std.specs.Prelude.{◌≡◌};
    ghost use Rattle.outside.specs.declared.whole.WholeError.TheVariants.{Memory};

    ghost from_gives = { λ _ e. e ≡ Memory };

    fn from(_error: AllocError) -> WholeError {
        WholeError::Memory
    }
}

/// Why bytes were not written whole.
#[derive(Clone, Copy, Debug, PartialEq, Eq)]
pub enum SinkError {
    /// A write failed.
    WriteFault,
    /// There was no memory for it.
    Memory,
}

/// The size of the buffer of a reading.
const BUFFER: usize = 65_536;

// A buffer on the heap. Only its size is said, since nothing rests on what it holds.
fn buffer(alloc: Global, size: usize) -> Result<Vec<u8>, AllocError>
    ensures { IfOk result (λ v. vec_len v ≡ size) }
{
    Ok(vec![in alloc; 0u8; size]?)
}

/// Reads a whole file of at most `limit` bytes. A failed read ends the reading.
pub fn read_whole<F: Files>(
    alloc: Global,
    files: &mut F,
    name: &str,
    limit: u64,
) -> Result<Vec<u8>, WholeError>
    ensures told { F.told files.old → F.told files.new }
    ensures content { F.file files.new ≡ F.file files.old }
    ensures answer { F.told files.old → Answers result (whole_of (F.file files.old name.now) limit) }
    ensures ok_within { IfOk result (λ v. vec_len v ≤ limit) }
    ensures read_faults { WholeCounts result (F.read_faults files.old) (F.read_faults files.new) }
    ensures write_faults { F.write_faults files.new ≡ F.write_faults files.old }
{
    let mut buf = buffer(alloc, BUFFER)?;
    let mut bytes: Vec<u8> = Vec::new(alloc);
    while bytes.len() as u64 <= limit {
        match files.read(name, bytes.len() as u64, &mut buf) {
            ReadAnswer::Got(count) => bytes.extend_from_slice(&buf[..count])?,
            ReadAnswer::End => return Ok(bytes),
            ReadAnswer::Missing => return Err(WholeError::Missing),
            ReadAnswer::Failed => return Err(WholeError::ReadFault),
        }
    }
    Err(WholeError::TooLong)
}

/// Writes all bytes. After an error the first of them, none or some, were appended.
pub fn write_all<O: Sink>(out: &mut O, bytes: &[u8]) -> Result<(), SinkError>
    ensures told { O.told out.old → O.told out.new }
    ensures content { O.told out.old → Appends result (O.written out.old) (O.written out.new) bytes.now }
    ensures faults { SinkCounts result (O.faults out.old) (O.faults out.new) }
{
    let mut rest = bytes;
    while !rest.is_empty() {
        match out.write(rest) {
            TakeAnswer::Took(count) => rest = rest.split_at(count).1,
            TakeAnswer::Failed => return Err(SinkError::WriteFault),
            TakeAnswer::Memory => return Err(SinkError::Memory),
        }
    }
    Ok(())
}
