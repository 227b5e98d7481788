//! The real files and the standard output: the trusted edge. What is trusted is that the system's single calls do what
//! they answer; the loops over them are proved. No clause says what a real file holds, so [`OsFiles`] tells nothing of
//! contents. [`OsSink`] tells what its writer tells: the standard output nothing, a writer in memory its bytes.

ghost use Rattle.std.specs.Prelude.{◌≡◌, ◌≤◌, ◌==◌, ◌⊎◌, [], None, IsSome, length, unwrap_or, IfErr, IfOk, if◌then◌else◌};

use super::{Files, PutAnswer, ReadAnswer, Sink, SinkError, TakeAnswer, write_all};
use std::io::{self, ErrorKind, Read, Seek, SeekFrom, Write};
use std::{fs, rt};

/// The files of the system, a name being a path. A file that isn't there, or a path through something
/// that is no folder, is `Missing`; a folder in a file's place, or want of permission, is `Failed`.
#[derive(Drop)]
pub struct OsFiles<R: rt::Files> {
    rt: R,
    read_faults: u64,
    write_faults: u64,
}

impl<R: rt::Files> OsFiles<R> {
    /// The files that a runtime reaches.
    pub fn new(rt: R) -> OsFiles<R>
        ensures read_faults { ⟦<OsFiles<R> as Files>⟧.read_faults result ≡ 0 }
        ensures write_faults { ⟦<OsFiles<R> as Files>⟧.write_faults result ≡ 0 }
    {
        OsFiles {
            rt,
            read_faults: 0,
            write_faults: 0,
        }
    }
}

// One read of the system, at an offset.
fn read_at<R: rt::Files>(rt: &R, name: &str, at: u64, buf: &mut [u8]) -> io::Result<usize>
    ensures { IfOk result (λ n. n ≤ length buf.old) }
{
    let mut file = fs::open(rt, name)?;
    file.seek(SeekFrom::Start(at))?;
    file.read(buf)
}

fn is_missing(kind: ErrorKind) -> bool {
    kind == ErrorKind::NotFound || kind == ErrorKind::NotADirectory
}

// Writes a whole file by single writes of the system.
fn put<R: rt::Files>(rt: &R, name: &str, bytes: &[u8]) -> io::Result<Result<(), SinkError>> {
    let mut file = OsSink::new(fs::create(rt, name)?);
    Ok(write_all(&mut file, bytes))
}

// What a read of the system answers.
fn answer_of(read: io::Result<usize>) -> ReadAnswer
    ensures bytes { IfOk read (λ n. result ≡ (if n == 0 then ReadAnswer.End else ReadAnswer.Got n)) }
    ensures none { IfErr read (λ _. (result ≡ ReadAnswer.Missing) ⊎ (result ≡ ReadAnswer.Failed)) }
{
    match read {
        Ok(0) => ReadAnswer::End,
        Ok(count) => ReadAnswer::Got(count),
        Err(error) if is_missing(error.kind()) => ReadAnswer::Missing,
        Err(_) => ReadAnswer::Failed,
    }
}

impl<R: rt::Files> Files for OsFiles<R> {
    ghost told = { λ _. ⊥ };

    ghost file = { λ _ _. None };

    ghost read_faults = { λ s. s.read_faults };

    ghost write_faults = { λ s. s.write_faults };

    fn read(&mut self, name: &str, at: u64, buf: &mut [u8]) -> ReadAnswer {
        match answer_of(read_at(&self.rt, name, at, buf)) {
            ReadAnswer::Failed => {
                self.read_faults = self.read_faults.saturating_add(1);
                ReadAnswer::Failed
            }
            answer => answer,
        }
    }

    fn write(&mut self, name: &str, bytes: &[u8]) -> PutAnswer {
        match put(&self.rt, name, bytes) {
            Ok(Ok(())) => PutAnswer::Done,
            Ok(Err(SinkError::Memory)) => PutAnswer::Memory,
            Err(error) if error.kind() == ErrorKind::OutOfMemory => PutAnswer::Memory,
            _ => {
                self.write_faults = self.write_faults.saturating_add(1);
                PutAnswer::Failed
            }
        }
    }
}

/// A writer of the system as a sink: the standard output, or an open file.
#[derive(Drop)]
pub struct OsSink<W: Write + Drop> {
    writer: W,
    faults: u64,
}

impl<W: Write + Drop> OsSink<W> {
    /// A writer, none of whose writes failed yet.
    pub fn new(writer: W) -> OsSink<W>
        ensures faults { ⟦<OsSink<W> as Sink>⟧.faults result ≡ 0 }
    {
        OsSink { writer, faults: 0 }
    }
}

impl<W: Write + Drop> Sink for OsSink<W> {
    ghost told = { λ s. IsSome (W.contents s.writer) };

    ghost written = { λ s. unwrap_or (W.contents s.writer) [] };

    ghost faults = { λ s. s.faults };

    fn write(&mut self, piece: &[u8]) -> TakeAnswer {
        match self.writer.write(piece) {
            Ok(count) if count > 0 || piece.is_empty() => TakeAnswer::Took(count),
            _ => {
                self.faults = self.faults.saturating_add(1);
                TakeAnswer::Failed
            }
        }
    }
}
