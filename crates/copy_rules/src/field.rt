//! In what registers may differ.

/// In what two copies of a register may differ, in this order.
#[derive(Clone, Copy, PartialEq, Eq)]
pub enum Field {
    Set,
    Data,
    Enable,
    Reset,
    Clock,
}
