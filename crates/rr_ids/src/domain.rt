//! The copies of a triplicated design.

/// One of the three copies, ordered by number.
#[derive(Clone, Copy, Debug, PartialEq, Eq, PartialOrd, Ord, Hash)]
pub enum Domain {
    D0,
    D1,
    D2,
}
