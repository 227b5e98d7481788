//! Files by name.

ghost use Rattle.std.specs.Prelude.{◌≡◌, ◌≢◌, ℕ, ◌<◌, List, Option, length};
ghost use Rattle.outside.specs.Files.{ReadCounts, PutCounts, GotFits, Reads, Holds};

use super::{PutAnswer, ReadAnswer};

/// Files that are read in parts and written whole. A name is any text.
pub trait Files {
    /// Whether the map of the files is told.
    ghost told: { Self → Type 0 };

    /// The map: what the file of each name holds, a name being its bytes.
    ghost file: { Self → List ℕ → Option (List ℕ) };

    /// How often a read failed.
    ghost read_faults: { Self → ℕ };

    /// How often a write failed.
    ghost write_faults: { Self → ℕ };

    /// Reads bytes of a file from an offset on into the front of `buf`; what stands there past the bytes
    /// of `Got`, or after another answer, is free.
    fn read(&mut self, name: &str, at: u64, buf: &mut [u8]) -> ReadAnswer
        requires { 0 < length buf.old }
        ensures told { told self.old → told self.new }
        ensures content { file self.new ≡ file self.old }
        ensures fits { GotFits result (length buf.old) }
        ensures answer { told self.old → Reads (file self.old name.now) at result buf.new }
        ensures read_faults { ReadCounts result (read_faults self.old) (read_faults self.new) }
        ensures write_faults { write_faults self.new ≡ write_faults self.old };

    /// Writes a whole file in the place of what stands under the name. After `Failed` and `Memory` the
    /// name holds anything.
    fn write(&mut self, name: &str, bytes: &[u8]) -> PutAnswer
        ensures told { told self.old → told self.new }
        ensures others { (other : List ℕ) → other ≢ name.now
            → file self.new other ≡ file self.old other }
        ensures content { told self.old → Holds result (file self.new name.now) bytes.now }
        ensures read_faults { read_faults self.new ≡ read_faults self.old }
        ensures write_faults { PutCounts result (write_faults self.old) (write_faults self.new) };
}
