//! Fixed connections and cell outputs by slots.

ghost use Rattle.std.specs.Prelude.{◌≡◌, ◌++◌, OnOk, option_to_list};
ghost use Rattle.tile_parts.specs.Slots.{wire_at};
ghost use Rattle.fixed_links.specs.Slots.{link_at, links_in, outputs_in};

use link_order::Link;
use rr_ids::WireId;
use std::alloc::AllocError;
use std::marker::Model;
use tile_parts::wire_of;
use tile_types::SlotId;

/// A fixed connection or a join of a tile type: the slots of its sink and its source; `None` for names that don't count.
#[derive(Drop)]
pub(crate) struct FixedSlots {
    pub(crate) sink: Option<SlotId>,
    pub(crate) source: Option<SlotId>,
}

impl Model for FixedSlots {
    ghost use Rattle.fixed_links.specs.Slots.{FixedSlots as Record};

    ghost Value = { Record };

    ghost view = { λ f. record { sink = f.sink; source = f.source } };
}

/// The fixed connections and joins of a tile type, and the outputs of the cells at its sites, by slots.
#[derive(Drop)]
pub(crate) struct TypeLinks {
    pub(crate) fixed: Vec<FixedSlots>,
    pub(crate) outputs: Vec<Option<SlotId>>,
}

impl Model for TypeLinks {
    ghost use Rattle.fixed_links.specs.Slots.{TypeLinks as Record};

    ghost Value = { Record };

    ghost view = { λ t. record { fixed = t.fixed.items; outputs = t.outputs.items } };
}

// Adds the link of a fixed connection, where both its names have wires.
fn add_link(
    links: &mut Vec<Link>,
    row: &[Option<WireId>],
    fixed: &FixedSlots,
) -> Result<(), AllocError>
    ensures { OnOk result (links.new.items ≡ links.old.items ++ option_to_list (link_at row.now fixed.now)) }
{
    let Some(sink) = wire_of(row, fixed.sink) else {
        return Ok(());
    };
    let Some(source) = wire_of(row, fixed.source) else {
        return Ok(());
    };
    links.push(Link { source, sink })?;
    Ok(())
}

/// Adds the links of the fixed connections of a tile, in order.
pub(crate) fn add_links(
    links: &mut Vec<Link>,
    row: &[Option<WireId>],
    fixed: &[FixedSlots],
) -> Result<(), AllocError>
    ensures { OnOk result (links.new.items ≡ links.old.items ++ links_in row.now fixed.now) }
{
    for connection in fixed {
        add_link(links, row, connection)?;
    }
    Ok(())
}

// Adds the wire of a slot, where it has one.
fn add_output(
    outputs: &mut Vec<WireId>,
    row: &[Option<WireId>],
    slot: Option<SlotId>,
) -> Result<(), AllocError>
    ensures { OnOk result (outputs.new.items ≡ outputs.old.items ++ option_to_list (wire_at row.now slot)) }
{
    if let Some(wire) = wire_of(row, slot) {
        outputs.push(wire)?;
    }
    Ok(())
}

/// Adds the wires of the cell outputs of a tile, in order.
pub(crate) fn add_outputs(
    outputs: &mut Vec<WireId>,
    row: &[Option<WireId>],
    slots: &[Option<SlotId>],
) -> Result<(), AllocError>
    ensures { OnOk result (outputs.new.items ≡ outputs.old.items ++ outputs_in row.now slots.now) }
{
    for slot in slots {
        add_output(outputs, row, *slot)?;
    }
    Ok(())
}
