//! Patterns of bits.

ghost use Rattle.std.specs.Prelude.{◌≡◌, [], ◌∷◌, ◌++◌, ◌==◌, length, nat_lt, OnOk, OnErr, IfOk};
ghost use Rattle.records.specs.Limits.{most_pattern_bits};

use smallvec::SmallVec;
use std::alloc::{AllocError, Global};
use std::marker::Model;
use text_cut::PatternBit;

// The most bits of a pattern.
const MOST_BITS: usize = 32;

/// The bits of a pattern in the order in which a line names them. Four are kept inline.
#[derive(Drop)]
pub struct Pattern {
    bits: SmallVec<PatternBit, 4>,
}

impl Model for Pattern {
    ghost use Rattle.std.specs.Prelude.{List, ℕ, Bool};
    ghost use Rattle.std.specs.Coded.{coded_list};
    ghost use Rattle.patterns.specs.Bits.{PatternBit as Bit};

    ghost Value = { List Bit };

    ghost view = { λ p. p.bits.items };
}

impl Pattern {
    /// A pattern of no bits, which takes no memory.
    pub fn new(alloc: Global) -> Pattern
        ensures { result ≡ [] }
    {
        Pattern {
            bits: SmallVec::new(alloc),
        }
    }

    /// Adds a bit at the end. An `Err` changes nothing.
    pub fn push(&mut self, bit: PatternBit) -> Result<(), AllocError>
        ensures ok { OnOk result (self.new ≡ self.old ++ bit ∷ []) }
        ensures err { OnErr result (self.new ≡ self.old) }
    {
        self.bits.push(bit)?;
        Ok(())
    }

    /// The bits in order.
    pub fn as_slice(&self) -> &[PatternBit]
        ensures { result.now ≡ self.now }
    {
        self.bits.as_slice()
    }

    /// How many bits there are, repeats counted.
    pub fn len(&self) -> usize
        ensures { result ≡ length self.now }
    {
        self.bits.as_slice().len()
    }

    /// Whether the pattern has no bits.
    pub fn is_empty(&self) -> bool
        ensures { result ≡ (length self.now == 0) }
    {
        self.bits.as_slice().is_empty()
    }

    /// Whether there are more bits than a pattern may have.
    pub(crate) fn is_too_long(&self) -> bool
        ensures { result ≡ nat_lt most_pattern_bits (length self.now) }
    {
        self.len() > MOST_BITS
    }

    /// An equal pattern.
    pub fn copy(&self) -> Result<Pattern, AllocError>
        ensures { IfOk result (λ p. p ≡ self.now) }
    {
        let bits = SmallVec::from_slice(*self.bits.allocator(), self.bits.as_slice())?;
        Ok(Pattern { bits })
    }
}
