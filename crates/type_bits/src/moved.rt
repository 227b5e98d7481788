//! Bits that are moved to tiles.

ghost use Rattle.std.specs.Prelude.{◌≡◌, IfOk};

use crate::gathered::{DatabaseBits, bits_of_tile, bits_of_types};
use graph_names::TileDatabases;
use kept_bits::PlaceBit;
use mux_bits::TileBits;
use named_device::NamedDevice;
use rr_ids::TileId;
use std::alloc::{AllocError, Global};
use std::marker::Model;
use tile_grid::Tile;

/// A device that is lent, with the bits of the muxes of each type of its tiles. Contracts see the device and the list of its wires.
#[derive(Drop)]
pub struct MovedBits<'n, 'a> {
    named: &'n NamedDevice<'a>,
    types: Vec<DatabaseBits>,
}

impl<'n, 'a> Model for MovedBits<'n, 'a> {
    ghost use Rattle.std.specs.Prelude.{◌≡◌};
    ghost use Rattle.device_numbers.specs.Numbered.{Numbered};
    ghost use Rattle.type_bits.specs.TypeBits.{device_bits};

    ghost Value = { Numbered };

    ghost view = { λ m. m.named.now };

    ghost invariant = { λ m. m.types.items ≡ device_bits m.named.now.device };
}

impl<'n, 'a> MovedBits<'n, 'a> {
    /// Gathers the bits of the muxes of the databases of a device, once for each type. Takes time in proportion to the databases and
    /// the logarithm of how many bits a mux has.
    #[tactic(auto, using(crate::proofs::OfTypes::bits_are_of_types))]
    pub fn new(alloc: Global, named: &'n NamedDevice<'a>) -> Result<MovedBits<'n, 'a>, AllocError>
        ensures { IfOk result (λ moved. moved ≡ named.now) }
    {
        let numbers = named.numbers();
        let types = bits_of_types(alloc, named.rules(), numbers.types().types())?;
        Ok(MovedBits { named, types })
    }
}

impl<'n, 'a> TileBits for MovedBits<'n, 'a> {
    ghost device = { λ m. m.device };

    fn tile(&self, t: TileId) -> Option<&Tile> {
        self.named.tile(t)
    }

    fn bits(&self, t: TileId, place: u32) -> Option<&[PlaceBit]> {
        let numbers = self.named.numbers();
        bits_of_tile(self.types.as_slice(), numbers.types(), t, place)
    }
}
