//! The records of databases behind the numbers of muxes and arcs.

ghost use Rattle.fabric.specs.Graph.{Graph};
ghost use Rattle.record_laws.specs.Records.{AreArcsOf, AreMuxesOf, arc_behind as arc_behind_in, mux_behind as mux_behind_in, mux_record as mux_record_in};
ghost use Rattle.std.specs.Option.{option_copied};
ghost use Rattle.std.specs.Prelude.{◌≡◌, option_map, slice_get};

use crate::TileDatabases;
use arc_rows::ArcInfo;
use bits_db::{Arc, Mux};
use mux_rows::MuxInfo;
use rr_ids::{ArcId, Id, MuxId, Name};
use text_cut::PatternBit;

// The record of a mux.
fn mux_record<'a, D: TileDatabases<'a>>(device: &D, mux: &MuxInfo) -> Option<&'a Mux>
    ensures { option_copied result ≡ mux_record_in (D.device device.now) mux.now }
{
    let names = device.names(mux.tile)?;
    let db = names.database();
    db.muxes.get(mux.place as usize)
}

// The record of the mux of a number.
fn mux_behind<'a, D: TileDatabases<'a>>(device: &D, muxes: &[MuxInfo], m: MuxId) -> Option<&'a Mux>
    ensures { option_copied result ≡ mux_behind_in (D.device device.now) muxes.now m }
{
    let mux = muxes.get(m.to_u32() as usize)?;
    mux_record(device, mux)
}

// The record of the arc of a number.
fn arc_behind<'a, D: TileDatabases<'a>>(
    device: &D,
    muxes: &[MuxInfo],
    arcs: &[ArcInfo],
    a: ArcId,
) -> Option<&'a Arc>
    ensures { option_copied result ≡ arc_behind_in (D.device device.now) muxes.now arcs.now a }
{
    let arc = arcs.get(a.to_u32() as usize)?;
    let mux = mux_behind(device, muxes, arc.mux)?;
    mux.arcs.get(arc.place as usize)
}

/// The pattern of the arc of a number; where the muxes and arcs are those of the graph of the device, `None` exactly where there is
/// no such arc. Takes no memory, and the same time for each arc.
pub fn pattern_of<'a, D: TileDatabases<'a>>(
    device: &D,
    muxes: &[MuxInfo],
    arcs: &[ArcInfo],
    a: ArcId,
) -> Option<&'a [PatternBit]>
    ensures { (g : Graph) → AreArcsOf (D.device device.now) g muxes.now arcs.now
        → option_map (λ bits. bits.now) result ≡ option_map (λ x. x.arc.bits) (slice_get g.arcs a) }
{
    let arc = arc_behind(device, muxes, arcs, a)?;
    Some(arc.bits.as_slice())
}

/// The name of the source of the arc of a number, as the database writes it; `None` as `pattern_of`.
pub fn source_name<'a, D: TileDatabases<'a>>(
    device: &D,
    muxes: &[MuxInfo],
    arcs: &[ArcInfo],
    a: ArcId,
) -> Option<&'a Name>
    ensures { (g : Graph) → AreArcsOf (D.device device.now) g muxes.now arcs.now
        → option_map (λ name. name.now) result ≡ option_map (λ x. x.arc.source) (slice_get g.arcs a) }
{
    let arc = arc_behind(device, muxes, arcs, a)?;
    Some(&arc.source)
}

/// The name of the sink of the mux of a number, as the database writes it; where the muxes are those of the graph of the device,
/// `None` exactly where there is no such mux.
pub fn sink_name<'a, D: TileDatabases<'a>>(
    device: &D,
    muxes: &[MuxInfo],
    m: MuxId,
) -> Option<&'a Name>
    ensures { (g : Graph) → AreMuxesOf (D.device device.now) g muxes.now
        → option_map (λ name. name.now) result ≡ option_map (λ x. x.mux.sink) (slice_get g.muxes m) }
{
    let mux = mux_behind(device, muxes, m)?;
    Some(&mux.sink)
}
