//! Why a device has no routing graph.

use std::alloc::{AllocError, AllocFailed};
use thiserror::Error;

/// A wire by name, on its own.
#[derive(Debug, Drop)]
pub enum OwnedWire {
    Local { row: i32, col: i32, base: Vec<u8> },
    Wide { base: Vec<u8> },
}

/// Why a device has no routing graph.
#[derive(Debug, Drop, Error)]
pub enum GraphError {
    /// More wires than a graph may have.
    #[error("too many wires")]
    Wires,
    /// More muxes, and no more wires.
    #[error("too many muxes")]
    Muxes,
    /// More arcs, and no more wires or muxes.
    #[error("too many arcs")]
    Arcs,
    /// The least wire that is the output of two tables, registers or pads.
    #[error("a cell output stands twice")]
    Overlap(OwnedWire),
    #[error("out of memory")]
    Memory,
}

impl From<AllocError> for GraphError {
    ghost use Rattle.std.specs.Prelude.{◌≡◌};
    ghost use Rattle.route_graph.specs.declared.errors.GraphError.TheVariants.{Memory};

    ghost from_gives = { λ _ e. e ≡ Memory };

    fn from(_error: AllocError) -> GraphError {
        GraphError::Memory
    }
}

impl<T: Drop> From<AllocFailed<T>> for GraphError {
    ghost use Rattle.std.specs.Prelude.{◌≡◌};
    ghost use Rattle.route_graph.specs.declared.errors.GraphError.TheVariants.{Memory};

    ghost from_gives = { λ _ e. e ≡ Memory };

    fn from(_error: AllocFailed<T>) -> GraphError {
        GraphError::Memory
    }
}
