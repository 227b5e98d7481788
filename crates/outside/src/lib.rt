//! The files and the sink that lie outside of the program. The traits [`Files`] and [`Sink`] say what a
//! caller can rely on: what a file holds, what was written, and how often a call failed. Each has three
//! implementations: over the system, which tells nothing of real contents; in memory, where no call fails; and
//! in memory, where chosen calls fail. [`read_whole`] and [`write_all`] are what a program calls.
#![tactic(auto)]

mod calls;
mod files;
mod held;
mod laws;
mod memory;
mod sink;
mod sure;
mod system;
mod whole;

pub use files::Files;
pub use laws::{counts_never_fall, no_fault_at_zero, read_is_exact, whole_is_exact};
pub use memory::{MemFiles, MemSink};
pub use sink::Sink;
pub use sure::{SureFiles, SureSink};
pub use system::{OsFiles, OsSink};
pub use whole::{SinkError, WholeError, read_whole, write_all};

/// What a read of a file answers.
#[derive(Clone, Copy, Debug, PartialEq, Eq)]
pub enum ReadAnswer {
    /// So many bytes, at least one, stand at the start of the buffer.
    Got(usize),
    /// The file has no byte from the offset on.
    End,
    /// There is no file of this name.
    Missing,
    /// The read failed.
    Failed,
}

/// What a write of a whole file answers.
#[derive(Clone, Copy, Debug, PartialEq, Eq)]
pub enum PutAnswer {
    /// The file holds the bytes.
    Done,
    /// The write failed.
    Failed,
    /// There was no memory for it.
    Memory,
}

/// What a write to a sink answers.
#[derive(Clone, Copy, Debug, PartialEq, Eq)]
pub enum TakeAnswer {
    /// So many bytes of the piece, from its first on, were appended.
    Took(usize),
    /// The write failed, and nothing was appended.
    Failed,
    /// There was no memory for it, and nothing was appended.
    Memory,
}
