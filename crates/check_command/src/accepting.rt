//! The reply to a design that is accepted.

ghost use Rattle.std.specs.Prelude.{◌≡◌, IfOk};
ghost use Rattle.check_command.specs.Checked.{accepted_answer};
ghost use Rattle.design_answers.specs.Reported.{counts_of};

use replies::{Reply, Status};
use report_text::{Counts, checked_text};
use side_file::Side;
use std::alloc::{AllocError, Global};

// A count as it is printed. 4,294,967,296 elements take all memory there is.
fn short(count: usize) -> Result<u32, AllocError>
    ensures { IfOk result (λ n. n ≡ count) }
{
    match u32::try_from(count) {
        Ok(n) => Ok(n),
        Err(_) => Err(AllocError),
    }
}

// How many slices, pads, output triples and voters a side file has.
fn counts(side: &Side) -> Result<Counts, AllocError>
    ensures { IfOk result (λ counts. counts ≡ counts_of side.now) }
{
    Ok(Counts {
        slices: short(side.slices.len())?,
        pads: short(side.pads.len())?,
        outputs: short(side.outputs.len())?,
        voters: short(side.voters.len())?,
    })
}

/// The counts of the side file.
pub(crate) fn accepted(alloc: Global, side: &Side) -> Result<Reply, AllocError>
    ensures { IfOk result (λ reply. reply ≡ accepted_answer side.now) }
{
    let counts = counts(side)?;
    let text = checked_text(alloc, &counts)?;
    Ok(Reply {
        status: Status::Done,
        text,
    })
}
