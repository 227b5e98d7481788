//! What is reached from a net's tree.

ghost use Rattle.std.specs.Prelude.{◌≡◌, ◌<◌, length, slice_set};
ghost use Rattle.net_search.specs.Marks.{mark_of};

use rr_ids::{Id, WireId};

/// How far a search has come with a wire.
#[derive(Clone, Copy)]
pub enum Mark {
    /// No arc from inside was met that leads to it.
    Far,
    /// One was, and it may not be entered.
    Shut,
    /// One was, and it may be entered, but not by an arc met so far.
    Open,
    /// It is reached.
    Inside,
}

/// The wires that are reached, and those around them.
#[derive(Drop)]
pub struct Reach {
    /// At each wire how far the search has come with it.
    pub marks: Vec<Mark>,
    /// The wires that are reached, in the order in which they were.
    pub inside: Vec<WireId>,
    /// The wires to which an arc led from inside before they were reached, if they were.
    pub edge: Vec<WireId>,
}

// The mark of a wire.
pub(crate) fn mark_at(marks: &[Mark], w: WireId) -> Mark
    requires { w < length marks.now }
    ensures { result ≡ mark_of marks.now w }
{
    marks[w.to_u32() as usize]
}

// Marks a wire.
pub(crate) fn put_mark(marks: &mut [Mark], w: WireId, mark: Mark)
    requires { w < length marks.old }
    ensures { marks.new ≡ slice_set marks.old w mark }
{
    marks[w.to_u32() as usize] = mark;
}

// Marks a wire of what is reached.
pub(crate) fn set_mark(reach: &mut Reach, w: WireId, mark: Mark)
    requires { w < length reach.old.marks.items }
    ensures marks { reach.new.marks.items ≡ slice_set reach.old.marks.items w mark }
    ensures inside { reach.new.inside.items ≡ reach.old.inside.items }
    ensures edge { reach.new.edge.items ≡ reach.old.edge.items }
{
    put_mark(&mut reach.marks, w, mark);
}
