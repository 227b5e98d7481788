//! Patterns by the names of sources.

ghost use Rattle.fabric.specs.Graph.{Graph};
ghost use Rattle.fabric.specs.Image.{arc_named};
ghost use Rattle.record_laws.specs.Records.{AreMuxesOf, arc_named_behind, mux_record};
ghost use Rattle.std.specs.Option.{option_copied};
ghost use Rattle.std.specs.Prelude.{◌≡◌, find, option_and_then, option_map, slice_get};
ghost use Rattle.std.specs.Str.{bytes_eq};

use crate::TileDatabases;
use bits_db::Arc;
use database_names::DatabaseNames;
use kept_bits::is_ignored;
use mux_rows::MuxInfo;
use rr_ids::{Id, MuxId, Name};
use text_cut::PatternBit;

// The first arc from a source of the mux at a place of a database.
#[tactic(auto, using(crate::proofs::Found::none_behind))]
fn arc_at<'a>(names: &DatabaseNames<'a>, place: usize, source: &Name) -> Option<&'a Arc>
    ensures { option_copied result ≡ option_and_then (λ mux. find (λ a. bytes_eq a.source source.now) mux.arcs) (slice_get names.now.muxes place) }
{
    if place >= names.database().muxes.len() {
        return None;
    }
    names.arc(place, source)
}

// The first arc of a mux from a source, whether or not the source is ignored.
fn first_arc<'a, D: TileDatabases<'a>>(device: &D, mux: &MuxInfo, source: &Name) -> Option<&'a Arc>
    ensures { option_copied result ≡ option_and_then (λ mux. find (λ a. bytes_eq a.source source.now) mux.arcs) (mux_record (D.device device.now) mux.now) }
{
    let names = device.names(mux.tile)?;
    arc_at(names, mux.place as usize, source)
}

// The same of the mux of a number.
fn arc_of<'a, D: TileDatabases<'a>>(
    device: &D,
    muxes: &[MuxInfo],
    m: MuxId,
    source: &Name,
) -> Option<&'a Arc>
    ensures { option_copied result ≡ arc_named_behind (D.device device.now) muxes.now m source.now }
{
    let mux = muxes.get(m.to_u32() as usize)?;
    first_arc(device, mux, source)
}

/// The pattern of the arc of a mux from the source of a name; where the muxes are those of the graph of the device, `None` exactly
/// where the mux has no such arc. Takes no memory, and time in proportion to the logarithm of the number of arcs of the mux.
#[tactic(auto, using(record_laws::proofs::ArcsFound::ignored_found))]
pub fn pattern_named<'a, D: TileDatabases<'a>>(
    device: &D,
    muxes: &[MuxInfo],
    m: MuxId,
    source: &Name,
) -> Option<&'a [PatternBit]>
    ensures { (g : Graph) → AreMuxesOf (D.device device.now) g muxes.now
        → option_map (λ bits. bits.now) result ≡ option_map (λ a. a.arc.bits) (arc_named g m source.now) }
{
    if is_ignored(device.rules(), source) {
        return None;
    }
    let arc = arc_of(device, muxes, m, source)?;
    Some(arc.bits.as_slice())
}
