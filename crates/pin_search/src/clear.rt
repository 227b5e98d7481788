//! What a search came to is cleared again.

ghost use Rattle.std.specs.Prelude.{◌≡◌, ℕ, ◌<◌, ◌⊎◌, length, replicate, slice_index, get_or, false};
ghost use Rattle.words.specs.Members.{In};
ghost use Rattle.pin_search.specs.Labels.{far};
ghost use Rattle.pin_search.specs.Fronts.{IsAtRest, Keeps};

use crate::front::Front;
use crate::label::Label;
use crate::wires::{put_label, put_mark};
use rr_ids::WireId;

// Clears labels at the touched wires.
fn clear_labels(touched: &[WireId], labels: &mut [Label])
    requires wires { (w : ℕ) → In touched.now w → w < length labels.old }
    requires known { (w : ℕ) → w < length labels.old → In touched.now w ⊎ (slice_index labels.old w ≡ far) }
    ensures { labels.new ≡ replicate (length labels.old) far }
{
    for w in touched {
        put_label(labels, *w, Label::far());
    }
}

// Clears marks at the touched wires.
fn clear_marks(touched: &[WireId], marks: &mut [bool])
    requires wires { (w : ℕ) → In touched.now w → w < length marks.old }
    requires known { (w : ℕ) → w < length marks.old → In touched.now w ⊎ (get_or marks.old w false ≡ false) }
    ensures { marks.new ≡ replicate (length marks.old) false }
{
    for w in touched {
        put_mark(marks, *w, false);
    }
}

// Clears what a search came to, in the time that the search took to come there.
pub(crate) fn clear(front: &mut Front)
    requires { Keeps (length front.old.labels.items) front.old }
    ensures { IsAtRest (length front.old.labels.items) front.new }
{
    clear_labels(&front.touched, &mut front.labels);
    clear_marks(&front.touched, &mut front.waiting);
    front.queue.clear();
    front.touched.clear();
    front.best = Label::far();
}
