//! Wires, parts and pins as reports name them.

use cell_parts::PartKind;

/// A wire of a row and a column, which may lie outside the grid, or one of the whole device. Its base is its name without a
/// place.
#[derive(Clone, Copy)]
pub enum Wire<'a> {
    Local { row: i32, col: i32, base: &'a [u8] },
    Wide { base: &'a [u8] },
}

/// A part by the name of its cell.
#[derive(Clone, Copy)]
pub struct PartName<'a> {
    pub cell: &'a [u8],
    pub part: PartKind,
}

/// A pin by its part and its number there.
#[derive(Clone, Copy)]
pub struct PinName<'a> {
    pub part: PartName<'a>,
    pub pin: u32,
}
