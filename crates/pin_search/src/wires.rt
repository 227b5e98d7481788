//! Lists with an element for each wire.

ghost use Rattle.std.specs.Prelude.{◌≡◌, ◌<◌, length, slice_index, slice_set, get_or, false};

use crate::label::Label;
use rr_ids::{Id, WireId};

// The label at a wire.
pub(crate) fn label_at(labels: &[Label], w: WireId) -> Label
    requires { w < length labels.now }
    ensures { result ≡ slice_index labels.now w }
{
    labels[w.to_u32() as usize]
}

// Writes the label at a wire.
pub(crate) fn put_label(labels: &mut [Label], w: WireId, label: Label)
    requires { w < length labels.old }
    ensures { labels.new ≡ slice_set labels.old w label }
{
    labels[w.to_u32() as usize] = label;
}

// The mark at a wire.
pub(crate) fn mark_at(marks: &[bool], w: WireId) -> bool
    requires { w < length marks.now }
    ensures { result ≡ get_or marks.now w false }
{
    marks[w.to_u32() as usize]
}

// Writes the mark at a wire.
pub(crate) fn put_mark(marks: &mut [bool], w: WireId, mark: bool)
    requires { w < length marks.old }
    ensures { marks.new ≡ slice_set marks.old w mark }
{
    marks[w.to_u32() as usize] = mark;
}
