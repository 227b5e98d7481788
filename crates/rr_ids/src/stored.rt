//! Where the bytes of a name stand.

ghost use Rattle.std.specs.Prelude.{◌≡◌, ◌≤◌, length, take, IfOk};

use std::alloc::{AllocError, Global};
use std::marker::Model;

// The most bytes that stand in a value itself.
const ROOM: usize = 23;

/// Up to 23 bytes, in the value itself.
#[derive(Debug, Drop)]
pub(crate) struct Short {
    room: [u8; 23],
    len: u8,
}

impl Model for Short {
    ghost use Rattle.std.specs.Prelude.{List, ℕ, ◌≤◌, take};
    ghost use Rattle.std.specs.Coded.{coded_list, coded_ℕ};

    ghost Value = { List ℕ };

    ghost coded = { coded_list coded_ℕ };

    ghost view = { λ short. take short.len short.room };

    ghost invariant = { λ short. short.len ≤ 23 };
}

impl Short {
    // These bytes.
    fn new(bytes: &[u8]) -> Short
        requires { length bytes.now ≤ 23 }
        ensures { result ≡ bytes.now }
    {
        let mut room = [0; 23];
        let len = bytes.len();
        room[..len].copy_from_slice(bytes);
        Short {
            room,
            len: len as u8,
        }
    }

    // The bytes in order.
    fn bytes(&self) -> &[u8]
        ensures { result.now ≡ self.now }
    {
        &self.room[..self.len as usize]
    }

    // The same bytes again.
    fn copy(&self) -> Short
        ensures { result ≡ self.now }
    {
        Short {
            room: self.room,
            len: self.len,
        }
    }
}

/// Bytes, few of them in the value itself, more in one allocation.
#[derive(Debug, Drop)]
pub(crate) enum Stored {
    Short(Short),
    Long(Vec<u8>),
}

impl Stored {
    ghost use Rattle.rr_ids.specs.Stored.{stored_bytes};

    /// These bytes.
    pub(crate) fn new(alloc: Global, bytes: &[u8]) -> Result<Stored, AllocError>
        ensures { IfOk result (λ stored. stored_bytes stored ≡ bytes.now) }
    {
        if bytes.len() <= ROOM {
            return Ok(Stored::Short(Short::new(bytes)));
        }
        Ok(Stored::Long(Vec::from_slice(alloc, bytes)?))
    }

    /// The bytes in order.
    pub(crate) fn bytes(&self) -> &[u8]
        ensures { result.now ≡ stored_bytes self.now }
    {
        match self {
            Stored::Short(short) => short.bytes(),
            Stored::Long(bytes) => bytes.as_slice(),
        }
    }

    /// The same bytes again.
    pub(crate) fn copy(&self) -> Result<Stored, AllocError>
        ensures { IfOk result (λ stored. stored_bytes stored ≡ stored_bytes self.now) }
    {
        match self {
            Stored::Short(short) => Ok(Stored::Short(short.copy())),
            Stored::Long(bytes) => Ok(Stored::Long(Vec::from_slice(
                *bytes.allocator(),
                bytes.as_slice(),
            )?)),
        }
    }
}
