//! Printing.

ghost use Rattle.std.specs.Prelude.{◌≡◌, ◌++◌};
ghost use Rattle.top_call.specs.Printed.{IsPrintable, Prints, PrintCounts};
ghost use Rattle.replies.specs.Statuses.{status_of};

use outside::{Sink, SinkError, write_all};
use replies::{Reply, Status};

/// Prints a reply. The status is the reply's where all of its text was printed.
#[tactic(auto, using(crate::proofs::Whole::printed_whole, crate::proofs::Whole::counts_whole))]
pub fn print<O: Sink>(out: &mut O, reply: &Reply) -> Status
    requires { IsPrintable reply.now }
    ensures told { O.told out.old → O.told out.new }
    ensures prints { O.told out.old → Prints reply.now (status_of result) (O.written out.old) (O.written out.new) }
    ensures faults { PrintCounts reply.now (status_of result) (O.faults out.old) (O.faults out.new) }
{
    match write_all(out, &reply.text) {
        Ok(()) => reply.status,
        Err(SinkError::WriteFault) => Status::WriteFault,
        Err(SinkError::Memory) => Status::Memory,
    }
}
