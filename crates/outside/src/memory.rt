//! Files and a sink in memory, of which chosen calls fail.

ghost use Rattle.std.specs.Prelude.{◌≡◌, ◌≢◌, ◌↔◌, ℕ, ◌<◌, List, [], ◌++◌, min, length};
ghost use Rattle.outside.specs.Calls.{no_calls, NextFails, after_call, read_failed, put_failed, take_failed};
ghost use Rattle.outside.specs.Files.{ReadCounts, PutCounts, GotFits, Reads, Holds};
ghost use Rattle.outside.specs.Held.{held_of, file_in, fullest_read};
ghost use Rattle.outside.specs.Sink.{TakeCounts, TookFits, taken_of, TookMost};

use super::calls::Calls;
use super::held::Held;
use super::{Files, PutAnswer, ReadAnswer, Sink, TakeAnswer};
use std::alloc::Global;
use std::marker::Model;

/// Files in memory, of which the calls with listed numbers fail, from 1, reads and writes apart. Of two
/// files with one name the first counts. A read gives as many bytes as fit in the buffer.
#[derive(Drop)]
pub struct MemFiles {
    held: Held,
    reads: Calls,
    writes: Calls,
}

impl Model for MemFiles {
    ghost use Rattle.outside.specs.Memory.{FilesInMemory};

    ghost Value = { FilesInMemory };

    ghost view = { λ m. record { files = m.held; reads = m.reads; writes = m.writes } };
}

impl MemFiles {
    /// Files by name and content, before the first call.
    pub fn new(
        files: Vec<(String, Vec<u8>)>,
        fail_reads: Vec<u64>,
        fail_writes: Vec<u64>,
    ) -> MemFiles
        ensures files { result.files ≡ held_of files.items }
        ensures reads { result.reads ≡ no_calls fail_reads.items }
        ensures writes { result.writes ≡ no_calls fail_writes.items }
    {
        MemFiles {
            held: Held::new(files),
            reads: Calls::new(fail_reads),
            writes: Calls::new(fail_writes),
        }
    }
}

impl Files for MemFiles {
    ghost told = { λ _. Unit {0} };

    ghost file = { λ m. file_in m.files };

    ghost read_faults = { λ m. m.reads.faults };

    ghost write_faults = { λ m. m.writes.faults };

    fn read(&mut self, name: &str, at: u64, buf: &mut [u8]) -> ReadAnswer
        requires { 0 < length buf.old }
        ensures content { file_in self.new.files ≡ file_in self.old.files }
        ensures fits { GotFits result (length buf.old) }
        ensures answer { Reads (file_in self.old.files name.now) at result buf.new }
        ensures read_faults { ReadCounts result self.old.reads.faults self.new.reads.faults }
        ensures write_faults { self.new.writes.faults ≡ self.old.writes.faults }

        // What it says beside its trait.
        ensures fails { (result ≡ ReadAnswer.Failed) ↔ NextFails self.old.reads }
        ensures fullest { let file = file_in self.old.files name.now in
            result ≢ ReadAnswer.Failed → result ≡ fullest_read file at (length buf.old) }
        ensures counted { self.new ≡ record self.old { reads = after_call self.old.reads (read_failed result) } }
    {
        if self.reads.next_fails() {
            return ReadAnswer::Failed;
        }
        self.held.read(name, at, buf)
    }

    fn write(&mut self, name: &str, bytes: &[u8]) -> PutAnswer
        ensures others { (other : List ℕ) → other ≢ name.now
            → file_in self.new.files other ≡ file_in self.old.files other }
        ensures content { Holds result (file_in self.new.files name.now) bytes.now }
        ensures read_faults { self.new.reads.faults ≡ self.old.reads.faults }
        ensures write_faults { PutCounts result self.old.writes.faults self.new.writes.faults }

        // What it says beside its trait.
        ensures fails { (result ≡ PutAnswer.Failed) ↔ NextFails self.old.writes }
        ensures kept { result ≢ PutAnswer.Done → self.new.files ≡ self.old.files }
        ensures reads { self.new.reads ≡ self.old.reads }
        ensures counted { self.new.writes ≡ after_call self.old.writes (put_failed result) }
    {
        if self.writes.next_fails() {
            return PutAnswer::Failed;
        }
        match self.held.put(name, bytes) {
            Ok(()) => PutAnswer::Done,
            Err(_) => PutAnswer::Memory,
        }
    }
}

/// A sink in memory that takes at most so many bytes a call, and of which the calls with listed numbers
/// fail, from 1.
#[derive(Drop)]
pub struct MemSink {
    bytes: Vec<u8>,
    most: usize,
    calls: Calls,
}

impl Model for MemSink {
    ghost use Rattle.std.specs.Prelude.{◌<◌};
    ghost use Rattle.outside.specs.Memory.{SinkInMemory};

    ghost Value = { SinkInMemory };

    ghost view = { λ s. record { written = s.bytes.items; most = s.most; calls = s.calls } };

    ghost invariant = { λ s. 0 < s.most };
}

impl MemSink {
    /// An empty sink, before the first call.
    pub fn new(alloc: Global, most: usize, fail: Vec<u64>) -> MemSink
        requires { 0 < most }
        ensures written { result.written ≡ [] }
        ensures most { result.most ≡ most }
        ensures calls { result.calls ≡ no_calls fail.items }
    {
        MemSink {
            bytes: Vec::new(alloc),
            most,
            calls: Calls::new(fail),
        }
    }

    /// The written bytes.
    pub fn written(&self) -> &[u8]
        ensures { result.now ≡ self.now.written }
    {
        &self.bytes
    }
}

impl Sink for MemSink {
    ghost told = { λ _. Unit {0} };

    ghost written = { λ s. s.written };

    ghost faults = { λ s. s.calls.faults };

    fn write(&mut self, piece: &[u8]) -> TakeAnswer
        ensures content { self.new.written ≡ self.old.written ++ taken_of result piece.now }
        ensures fits { TookFits result (length piece.now) }
        ensures faults { TakeCounts result self.old.calls.faults self.new.calls.faults }

        // What it says beside its trait.
        ensures fails { (result ≡ TakeAnswer.Failed) ↔ NextFails self.old.calls }
        ensures most { TookMost result (min self.old.most (length piece.now)) }
        ensures kept { self.new.most ≡ self.old.most }
        ensures counted { self.new.calls ≡ after_call self.old.calls (take_failed result) }
    {
        if self.calls.next_fails() {
            return TakeAnswer::Failed;
        }
        let count = self.most.min(piece.len());
        match self.bytes.extend_from_slice(&piece[..count]) {
            Ok(()) => TakeAnswer::Took(count),
            Err(_) => TakeAnswer::Memory,
        }
    }
}
