//! What a device with numbers lends besides them.

ghost use Rattle.std.specs.Prelude.{◌≡◌};
ghost use Rattle.tile_types.specs.Types.{AreTypesOf};

use crate::DeviceNumbers;
use device_names::Device;
use tile_types::TileTypes;

impl<'a> DeviceNumbers<'a> {
    /// The device.
    pub fn device(&self) -> &'a Device<'a>
        ensures { result.now ≡ self.now.device }
    {
        self.device
    }

    /// The types of its tiles.
    pub fn types(&self) -> &TileTypes<'a>
        ensures { AreTypesOf self.now.device result.now }
    {
        &self.types
    }
}
