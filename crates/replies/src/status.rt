//! How a run ends.

ghost use Rattle.std.specs.Prelude.{◌≡◌};
ghost use Rattle.answers.specs.Answers as answers;
ghost use Rattle.replies.specs.Statuses.{status_of};

/// How a run ends; [`exit_number`] is the number that the program ends with.
#[derive(Clone, Copy, Debug, PartialEq, Eq)]
pub enum Status {
    /// The report was printed.
    Done,
    /// A bit is bad; the report names all that are.
    Unsafe,
    /// A connection had no path.
    NoRoute,
    /// The input was refused.
    Refused,
    /// The words have no reading.
    Usage,
    /// A read of a file failed.
    ReadFault,
    /// A write of a file, or to the output, failed.
    WriteFault,
    /// There was no memory.
    Memory,
}

/// The number that the program ends with.
pub fn exit_number(status: Status) -> u8
    ensures { result ≡ answers.exit_number (status_of status) }
{
    match status {
        Status::Done => 0,
        Status::Unsafe => 1,
        Status::NoRoute => 2,
        Status::Refused => 3,
        Status::Usage => 4,
        Status::ReadFault => 5,
        Status::WriteFault => 6,
        Status::Memory => 7,
    }
}
