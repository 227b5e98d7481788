//! Devices whose wires have numbers.

ghost use Rattle.std.specs.Prelude.{◌≡◌, IfOk, IsErrOf};
ghost use Rattle.device_wires.specs.Named.{NamesTooMany, named_wires};
ghost use Rattle.fabric.specs.InOrder.{InOrderOnce};
ghost use Rattle.fabric.specs.Wires.{wire_cmp};

use device_names::Device;
use device_wires::{Wires, WiresError, wires_with};
use slot_wires::SlotWires;
use std::alloc::Global;
use std::marker::Model;
use tile_types::TileTypes;
use type_shapes::{Shapes, shapes_of};

/// A device with its wires under numbers, in wire order, the types of its tiles, and the number of the wire of each slot of
/// each tile. Contracts see the device and the list of the wires.
#[derive(Drop)]
pub struct DeviceNumbers<'a> {
    pub(crate) device: &'a Device<'a>,
    pub(crate) wires: Wires,
    pub(crate) types: TileTypes<'a>,
    pub(crate) slots: SlotWires,
    pub(crate) shapes: Shapes,
}

impl<'a> Model for DeviceNumbers<'a> {
    ghost use Rattle.device_numbers.specs.Numbered.{IsNumbered, Numbered};

    ghost Value = { Numbered };

    ghost view = { λ d. record { device = d.device.now; wires = d.wires } };

    ghost invariant = { λ d. IsNumbered d.device.now d.wires d.types d.slots d.shapes };
}

impl<'a> DeviceNumbers<'a> {
    /// Numbers the wires of a device; `TooMany` exactly where they are more than 2^24.
    pub fn new(alloc: Global, device: &'a Device<'a>) -> Result<DeviceNumbers<'a>, WiresError>
        ensures device { IfOk result (λ d. d.device ≡ device.now) }
        ensures wires { IsErrOf result WiresError.TooMany → NamesTooMany device.now }
    {
        let types = TileTypes::of(alloc, device)?;
        let wires = wires_with(alloc, device, &types)?;
        let slots = SlotWires::of(alloc, device, &types, &wires)?;
        let shapes = shapes_of(alloc, types.types())?;
        Ok(DeviceNumbers {
            device,
            wires,
            types,
            slots,
            shapes,
        })
    }

    /// The wires: those that the device names, in wire order, each once.
    pub fn wires(&self) -> &Wires
        ensures wires { result.now ≡ self.now.wires }
        ensures named { InOrderOnce wire_cmp (named_wires self.now.device) self.now.wires }
    {
        &self.wires
    }
}
