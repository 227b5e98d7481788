//! The arcs of a device by numbers.

ghost use Rattle.std.specs.Prelude.{◌≡◌, ◌<◌, ◌≤◌, ◌++◌, IfOk, IsErrOf, OnOk, Some, length, option_map, slice_get};
ghost use Rattle.device_numbers.specs.Numbered.{arcs_at, sources_at};
ghost use Rattle.fabric.specs.GraphOf.{muxes_of};
ghost use Rattle.graph_numbers.specs.Numbers.{mux_numbers};
ghost use Rattle.graph_numbers.specs.StandFor.{arc_numbers};
ghost use Rattle.records.specs.Limits.{most_arcs, most_muxes};
ghost use Rattle.tile_parts.specs.Slots.{arcs_in};
ghost use Rattle.words.specs.Members.{In};

use crate::{CountError, DeviceNumbers};
use arc_rows::ArcInfo;
use mux_rows::MuxInfo;
use rr_ids::{Id, MuxId, WireId};
use std::alloc::Global;
use tile_parts::{MuxSlots, add_arcs};
use tile_types::SlotId;

// The most arcs of a graph.
const MOST_ARCS: usize = 33_554_432;

// Adds the arcs of a mux, unless there are too many then.
fn add_few(
    arcs: &mut Vec<ArcInfo>,
    number: MuxId,
    sink: WireId,
    row: &[Option<WireId>],
    sources: &[Option<SlotId>],
) -> Result<(), CountError>
    ensures ok { OnOk result (arcs.new.items ≡ arcs.old.items ++ arcs_in row.now number sink sources.now) }
    ensures few { OnOk result (length arcs.new.items ≤ most_arcs) }
    ensures too_many { IsErrOf result CountError.TooMany → most_arcs < length (arcs.old.items ++ arcs_in row.now number sink sources.now) }
{
    if sources.len() >= 4_294_967_296 {
        return Err(CountError::Memory);
    }
    add_arcs(arcs, number, sink, row, sources)?;
    if arcs.len() > MOST_ARCS {
        return Err(CountError::TooMany);
    }
    Ok(())
}

// The slots of the sources of the mux at a place.
fn sources_in(shape: &[MuxSlots], place: usize) -> &[Option<SlotId>]
    requires { place < length shape.now }
    ensures { Some result.now ≡ option_map (λ s. s.sources) (slice_get shape.now place) }
{
    let slots = &shape[place];
    slots.sources.as_slice()
}

impl<'a> DeviceNumbers<'a> {
    // The slots of the sources of a mux.
    #[tactic(auto, using(crate::proofs::MuxArcs::place_below, crate::proofs::MuxArcs::tile_below))]
    fn sources(&self, mux: &MuxInfo) -> &[Option<SlotId>]
        requires { In (mux_numbers self.now.device self.now.wires) mux.now }
        ensures { Some result.now ≡ sources_at self.now mux.now }
    {
        sources_in(self.shape(mux.tile), mux.place as usize)
    }

    // Adds the arcs of the mux of a number.
    #[tactic(auto, using(crate::proofs::MuxArcs::mux_arcs_made, crate::proofs::MuxArcs::tile_below))]
    fn add_arcs_of(
        &self,
        arcs: &mut Vec<ArcInfo>,
        number: MuxId,
        mux: &MuxInfo,
    ) -> Result<(), CountError>
        requires { In (mux_numbers self.now.device self.now.wires) mux.now }
        ensures ok { OnOk result (arcs.new.items ≡ arcs.old.items ++ arcs_at self.now number mux.now) }
        ensures few { OnOk result (length arcs.new.items ≤ most_arcs) }
        ensures too_many { IsErrOf result CountError.TooMany → most_arcs < length (arcs.old.items ++ arcs_at self.now number mux.now) }
    {
        let sources = self.sources(mux);
        add_few(arcs, number, mux.sink, self.row(mux.tile), sources)
    }

    /// The arcs of muxes, by mux, then in file order, without those whose source is ignored; `TooMany` exactly where they are more
    /// than 2^25. The muxes are those of the device, as `muxes` gives them.
    #[tactic(auto, using(crate::proofs::MuxArcs::one_mux_more, crate::proofs::MuxArcs::no_mux_left, crate::proofs::MuxArcs::too_many_arcs, crate::proofs::MuxArcs::listed_at))]
    pub fn arcs(&self, alloc: Global, muxes: &[MuxInfo]) -> Result<Vec<ArcInfo>, CountError>
        requires muxes { muxes.now ≡ mux_numbers self.now.device self.now.wires }
        requires few { length muxes.now ≤ most_muxes }
        ensures ok { IfOk result (λ arcs. arcs.items ≡ arc_numbers self.now.device self.now.wires (muxes_of self.now.device self.now.wires)) }
        ensures few { IfOk result (λ arcs. length arcs.items ≤ most_arcs) }
        ensures too_many { IsErrOf result CountError.TooMany → most_arcs < length (arc_numbers self.now.device self.now.wires (muxes_of self.now.device self.now.wires)) }
    {
        let mut arcs = Vec::new(alloc);
        for (number, mux) in muxes.iter().enumerate() {
            self.add_arcs_of(&mut arcs, MuxId::from_u32(number as u32), mux)?;
        }
        Ok(arcs)
    }
}
