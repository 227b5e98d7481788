//! Builds what a routing graph is made of, from the files of a device, and prints how much there is: wires, muxes
//! and arcs, and how many names are found in the databases of its first tiles. Its words are the family's folder, the profile's file and the device's name. Time it, or
//! count its instructions, from outside.
#![tactic(auto)]

mod files;
mod named;
mod parts;

use anyhow::{Context, Result};
use device_names::Device;
use device_numbers::DeviceNumbers;
use std::alloc::Global;
use std::env;
use std::rt::Files;

// The line of counts of a device.
fn line_of<'a>(alloc: Global, device: &'a Device<'a>) -> Result<String> {
    let numbers = DeviceNumbers::new(alloc, device)?;
    let (muxes, arcs) = parts::counts(alloc, &numbers)?;
    let wires = numbers.wires().len();
    Ok(format!(in alloc; "wires {wires} muxes {muxes} arcs {arcs}")?)
}

fn main(rt: HostRuntime) -> Result<()> {
    let mut words = env::args(&rt)?.skip(1);
    let family = words.next().context("a family's folder is wanted")?;
    let profile = words.next().context("a profile's file is wanted")?;
    let name = words.next().context("a device's name is wanted")?;
    let grid = files::grid_of(&rt, family.as_str(), name.as_str())?;
    let databases = files::databases_of(&rt, family.as_str(), &grid)?;
    let profile = files::profile_of(&rt, profile.as_str())?;
    let device = Device {
        grid: &grid,
        databases: &databases,
        profile: &profile,
    };
    let line = line_of(rt.alloc(), &device)?;
    let names = named::found_in(rt.alloc(), &grid, &databases)?;
    println!(&rt; "{line} names {names}")?;
    Ok(())
}
