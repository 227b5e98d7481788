//! What a search came to is cleared again.

ghost use Rattle.std.specs.Prelude.{◌≡◌, ℕ, ◌<◌, length};
ghost use Rattle.words.specs.Members.{In};
ghost use Rattle.net_search.specs.Marks.{Cleared, IsListed, far_marks};
ghost use Rattle.net_search.specs.Gathering.{IsAtRest, Keeps};

use crate::reach::{Mark, Reach, put_mark};
use rr_ids::WireId;

// Clears the marks of some wires.
fn clear_marks(wires: &[WireId], marks: &mut [Mark])
    requires { (w : ℕ) → In wires.now w → w < length marks.old }
    ensures { Cleared wires.now marks.old marks.new }
{
    for w in wires {
        put_mark(marks, *w, Mark::Far);
    }
}

// Clears the marks of the listed wires, which are all that have one.
fn clear_all(inside: &[WireId], edge: &[WireId], marks: &mut [Mark])
    requires inside { (w : ℕ) → In inside.now w → w < length marks.old }
    requires edge { (w : ℕ) → In edge.now w → w < length marks.old }
    requires known { (w : ℕ) → w < length marks.old → IsListed inside.now edge.now marks.old w }
    ensures { marks.new ≡ far_marks (length marks.old) }
{
    clear_marks(inside, marks);
    clear_marks(edge, marks);
}

// Clears what a search came to, in the time that the search took to come there.
pub(crate) fn clear(reach: &mut Reach)
    requires { Keeps (length reach.old.marks.items) reach.old }
    ensures { IsAtRest (length reach.old.marks.items) reach.new }
{
    clear_all(&reach.inside, &reach.edge, &mut reach.marks);
    reach.inside.clear();
    reach.edge.clear();
}
