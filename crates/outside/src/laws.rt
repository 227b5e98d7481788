//! Laws on the words that the contracts of this crate are made of. There is no code: each is the contract
//! of a function with an empty body.

ghost use Rattle.std.specs.Prelude.{◌≡◌, ◌≢◌, ◌↔◌, ℕ, ◌<◌, ◌≤◌, List, length, Option, Some, None, Ok, Err, Result, IsSomeAnd};
ghost use Rattle.std.specs.declared.vec.Vec.{Vec};
ghost use Rattle.std.specs.declared.alloc.Global.{Global};
ghost use Rattle.outside.specs.declared.ReadAnswer.{ReadAnswer};
ghost use Rattle.outside.specs.declared.ReadAnswer.TheVariants.{End};
ghost use Rattle.outside.specs.declared.ReadAnswer.TheVariants as read;
ghost use Rattle.outside.specs.declared.PutAnswer.{PutAnswer};
ghost use Rattle.outside.specs.declared.TakeAnswer.{TakeAnswer};
ghost use Rattle.outside.specs.declared.whole.WholeError.{WholeError};
ghost use Rattle.outside.specs.declared.whole.WholeError.TheVariants.{Missing, TooLong, ReadFault};
ghost use Rattle.outside.specs.declared.whole.SinkError.{SinkError};
ghost use Rattle.outside.specs.declared.whole.SinkError.TheVariants.{WriteFault};
ghost use Rattle.outside.specs.Files.{ReadCounts, PutCounts, GotFits, Reads};
ghost use Rattle.outside.specs.Sink.{TakeCounts, SinkCounts};
ghost use Rattle.outside.specs.Whole.{WholeCounts, whole_of};

/// A read that doesn't fail answers `End` exactly where the file is there and has no byte from the offset
/// on, and `Missing` exactly where there is no such file.
pub fn read_is_exact()
    ensures end { (file : Option (List ℕ)) (at room : ℕ) (answer : ReadAnswer) (buffer : List ℕ)
        → GotFits answer room → Reads file at answer buffer → answer ≢ read.Failed
        → (answer ≡ read.End) ↔ IsSomeAnd file (λ bytes. length bytes ≤ at) }
    ensures missing { (file : Option (List ℕ)) (at : ℕ) (answer : ReadAnswer) (buffer : List ℕ)
        → Reads file at answer buffer → answer ≢ read.Failed
        → (answer ≡ read.Missing) ↔ (file ≡ None) }
{}

/// Where no read fails and there is memory, a reading of a whole file answers `Missing` exactly where there
/// is no such file, `TooLong` exactly where it is longer than the limit, and otherwise gives all of it.
pub fn whole_is_exact()
    ensures missing { (file : Option (List ℕ)) (limit : ℕ) → (whole_of file limit ≡ Err Missing) ↔ (file ≡ None) }
    ensures too_long { (file : Option (List ℕ)) (limit : ℕ)
        → (whole_of file limit ≡ Err TooLong) ↔ IsSomeAnd file (λ bytes. limit < length bytes) }
    ensures whole { (bytes : List ℕ) (limit : ℕ) → length bytes ≤ limit → whole_of (Some bytes) limit ≡ Ok bytes }
{}

/// No call lets a count of faults fall.
pub fn counts_never_fall()
    ensures read { (answer : ReadAnswer) (before now : ℕ) → ReadCounts answer before now → before ≤ now }
    ensures put { (answer : PutAnswer) (before now : ℕ) → PutCounts answer before now → before ≤ now }
    ensures take { (answer : TakeAnswer) (before now : ℕ) → TakeCounts answer before now → before ≤ now }
    ensures whole { (result : Result (Vec ℕ Global) WholeError) (before now : ℕ)
        → WholeCounts result before now → before ≤ now }
    ensures all { (result : Result (Unit {0}) SinkError) (before now : ℕ)
        → SinkCounts result before now → before ≤ now }
{}

/// Where a count of faults is always 0, no reading and no writing answers a fault.
pub fn no_fault_at_zero()
    ensures whole { (result : Result (Vec ℕ Global) WholeError)
        → WholeCounts result 0 0 → result ≢ Err ReadFault }
    ensures all { (result : Result (Unit {0}) SinkError) → SinkCounts result 0 0 → result ≢ Err WriteFault }
{}
