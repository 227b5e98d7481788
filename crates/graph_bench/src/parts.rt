//! The muxes and arcs of a device.

use anyhow::Result;
use device_numbers::DeviceNumbers;
use graph_rows::rows_of;
use std::alloc::Global;

/// How many muxes and arcs a device has.
pub fn counts(alloc: Global, numbers: &DeviceNumbers<'_>) -> Result<(usize, usize)> {
    let rows = rows_of(alloc, numbers)?;
    let muxes = &rows.muxes;
    let arcs = &rows.arcs;
    Ok((muxes.len(), arcs.arcs().len()))
}
