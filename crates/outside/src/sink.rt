//! A place that takes bytes in order.

ghost use Rattle.std.specs.Prelude.{◌≡◌, ℕ, List, ◌++◌, length};
ghost use Rattle.outside.specs.Sink.{TakeCounts, TookFits, taken_of};

use super::TakeAnswer;

/// What takes bytes in order, as many a call as it likes.
pub trait Sink {
    /// Whether the written bytes are told.
    ghost told: { Self → Type 0 };

    /// The bytes that were written, in order.
    ghost written: { Self → List ℕ };

    /// How often a write failed.
    ghost faults: { Self → ℕ };

    /// Appends bytes of the piece, from its first on: at least one of a piece that isn't empty. After
    /// `Failed` and `Memory` nothing was appended.
    fn write(&mut self, piece: &[u8]) -> TakeAnswer
        ensures told { told self.old → told self.new }
        ensures content { told self.old → written self.new ≡ written self.old ++ taken_of result piece.now }
        ensures fits { TookFits result (length piece.now) }
        ensures faults { TakeCounts result (faults self.old) (faults self.new) };
}
