//! Why nodes have no order.

use crate::NodeId;
use std::alloc::AllocError;
use thiserror::Error;

/// Why nodes have no order.
#[derive(Clone, Copy, Debug, PartialEq, Eq, Error)]
pub enum OrderError {
    /// The least node that reaches itself.
    #[error("a node reaches itself")]
    Loop(NodeId),
    #[error("out of memory")]
    Memory,
}

impl From<AllocError> for OrderError {
    ghost use Rattle.std.specs.Prelude.{◌≡◌};
    ghost use Rattle.cycle_order.specs.declared.error.OrderError.TheVariants.{Memory};

    ghost from_gives = { λ _ e. e ≡ Memory };

    fn from(_error: AllocError) -> OrderError {
        OrderError::Memory
    }
}
