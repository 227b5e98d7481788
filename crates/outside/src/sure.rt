//! Files and a sink in memory, of which no call fails.

ghost use Rattle.std.specs.Prelude.{◌≡◌, ◌≢◌, ℕ, ◌<◌, List, [], ◌++◌, length};
ghost use Rattle.outside.specs.Files.{Reads, Holds};
ghost use Rattle.outside.specs.Held.{held_of, file_in, fullest_read};
ghost use Rattle.outside.specs.Sink.{TookMost, taken_of};

use super::held::Held;
use super::{Files, PutAnswer, ReadAnswer, Sink, TakeAnswer};
use std::alloc::Global;
use std::marker::Model;

/// Files in memory, seen as the list of their names and contents. Of two with one name the first counts.
/// No call fails: both counts of faults are always 0.
#[derive(Drop)]
pub struct SureFiles {
    held: Held,
}

impl Model for SureFiles {
    ghost Value = { List (List ℕ × List ℕ) };

    ghost view = { λ f. f.held };
}

impl SureFiles {
    /// Files by name and content.
    pub fn new(files: Vec<(String, Vec<u8>)>) -> SureFiles
        ensures { result ≡ held_of files.items }
    {
        SureFiles {
            held: Held::new(files),
        }
    }
}

impl Files for SureFiles {
    ghost told = { λ _. Unit {0} };

    ghost file = { λ s. file_in s };

    ghost read_faults = { λ _. 0 };

    ghost write_faults = { λ _. 0 };

    fn read(&mut self, name: &str, at: u64, buf: &mut [u8]) -> ReadAnswer
        requires { 0 < length buf.old }
        ensures unchanged { self.new ≡ self.old }
        ensures fullest { result ≡ fullest_read (file_in self.old name.now) at (length buf.old) }
        ensures answer { Reads (file_in self.old name.now) at result buf.new }
    {
        self.held.read(name, at, buf)
    }

    fn write(&mut self, name: &str, bytes: &[u8]) -> PutAnswer
        ensures sure { result ≢ PutAnswer.Failed }
        ensures others { (other : List ℕ) → other ≢ name.now
            → file_in self.new other ≡ file_in self.old other }
        ensures content { Holds result (file_in self.new name.now) bytes.now }
        ensures kept { result ≢ PutAnswer.Done → self.new ≡ self.old }
    {
        match self.held.put(name, bytes) {
            Ok(()) => PutAnswer::Done,
            Err(_) => PutAnswer::Memory,
        }
    }
}

/// A sink in memory, seen as the list of the written bytes. No call fails: its count of faults is always 0.
#[derive(Drop)]
pub struct SureSink {
    bytes: Vec<u8>,
}

impl Model for SureSink {
    ghost Value = { List ℕ };

    ghost view = { λ s. s.bytes.items };
}

impl SureSink {
    /// An empty sink.
    pub fn new(alloc: Global) -> SureSink
        ensures { result ≡ [] }
    {
        SureSink {
            bytes: Vec::new(alloc),
        }
    }

    /// The written bytes.
    pub fn written(&self) -> &[u8]
        ensures { result.now ≡ self.now }
    {
        &self.bytes
    }
}

impl Sink for SureSink {
    ghost told = { λ _. Unit {0} };

    ghost written = { λ s. s };

    ghost faults = { λ _. 0 };

    fn write(&mut self, piece: &[u8]) -> TakeAnswer
        ensures sure { result ≢ TakeAnswer.Failed }
        ensures all { TookMost result (length piece.now) }
        ensures content { self.new ≡ self.old ++ taken_of result piece.now }
    {
        match self.bytes.extend_from_slice(piece) {
            Ok(()) => TakeAnswer::Took(piece.len()),
            Err(_) => TakeAnswer::Memory,
        }
    }
}
