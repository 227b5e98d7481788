//! Bits of the configuration memory.

use std::fmt;
use std::marker::Model;

/// A bit of the device, ordered by frame, then bit. It prints as `F20B8`.
#[derive(Clone, Copy, Debug, PartialEq, Eq, PartialOrd, Ord, Hash)]
pub struct DeviceBit {
    pub frame: u32,
    pub bit: u32,
}

impl Model for DeviceBit {
    ghost use Rattle.patterns.specs.Bits.{DeviceBit as Bit};

    ghost Value = { Bit };

    ghost view = { λ b. record { frame = b.frame; bit = b.bit } };

    ghost inverse = { λ b. record { frame = b.frame; bit = b.bit } };
}

impl fmt::Display for DeviceBit {
    ghost use Rattle.std.specs.Prelude.{Some, ◌∷◌, ◌++◌};
    ghost use Rattle.std.specs.Fmt.{decimal};

    ghost output = { λ b. Some (70 ∷ decimal b.frame ++ 66 ∷ decimal b.bit) };

    fn fmt<W: fmt::Write>(&self, f: &mut fmt::Formatter<W>) -> fmt::Result {
        let frame = self.frame;
        let bit = self.bit;
        write!(f, "F{frame}B{bit}")
    }
}
