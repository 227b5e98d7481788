//! The cells that are touched.

ghost use Rattle.std.specs.Prelude.{◌≡◌, ◌++◌, ◌∷◌, [], filter, map, IfOk, OnOk, if◌then◌else◌};
ghost use Rattle.std.specs.List.{list_any};
ghost use Rattle.patterns.specs.Bits.{bits_of_list};
ghost use Rattle.upset.specs.Effect.{touched_names};

use crate::bits::is_one_among;
use cell_parts::{Cells, PadCell, SliceCell};
use rr_ids::{DeviceBit, Name};
use std::alloc::{AllocError, Global};

// Adds a name, if its cell is touched.
fn add_if<'c>(names: &mut Vec<&'c Name>, is_touched: bool, name: &'c Name) -> Result<(), AllocError>
    ensures { OnOk result (map (λ n. n.now) names.new.items
        ≡ (if is_touched then map (λ n. n.now) names.old.items ++ name.now ∷ [] else map (λ n. n.now) names.old.items)) }
{
    if is_touched {
        names.push(name)?;
    }
    Ok(())
}

// Adds the names of the slices with a setting that names a bit that flips.
fn add_slices<'c>(
    names: &mut Vec<&'c Name>,
    slices: &'c [SliceCell],
    flips: &[DeviceBit],
) -> Result<(), AllocError>
    ensures { OnOk result (map (λ n. n.now) names.new.items
        ≡ map (λ n. n.now) names.old.items ++ map (λ s. s.name) (filter (λ s. list_any (bits_of_list flips.now) s.bits) slices.now)) }
{
    for slice in slices {
        let is_touched = is_one_among(flips, slice.bits.as_slice());
        add_if(names, is_touched, &slice.name)?;
    }
    Ok(())
}

// Adds the names of the pads with a setting that names a bit that flips.
fn add_pads<'c>(
    names: &mut Vec<&'c Name>,
    pads: &'c [PadCell],
    flips: &[DeviceBit],
) -> Result<(), AllocError>
    ensures { OnOk result (map (λ n. n.now) names.new.items
        ≡ map (λ n. n.now) names.old.items ++ map (λ p. p.name) (filter (λ p. list_any (bits_of_list flips.now) p.bits) pads.now)) }
{
    for pad in pads {
        let is_touched = is_one_among(flips, pad.bits.as_slice());
        add_if(names, is_touched, &pad.name)?;
    }
    Ok(())
}

/// The names of the cells that are touched: slices, then pads.
pub(crate) fn touched_cells<'c>(
    alloc: Global,
    cells: &'c Cells,
    flips: &[DeviceBit],
) -> Result<Vec<&'c Name>, AllocError>
    ensures { IfOk result (λ names. map (λ n. n.now) names.items ≡ touched_names cells.now (bits_of_list flips.now)) }
{
    let mut names = Vec::new(alloc);
    add_slices(&mut names, cells.slices.as_slice(), flips)?;
    add_pads(&mut names, cells.pads.as_slice(), flips)?;
    Ok(names)
}
