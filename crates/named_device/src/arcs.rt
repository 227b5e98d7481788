//! Arcs by the names of their sources.

ghost use Rattle.arc_search.specs.Numbers.{key_in, key_named as key_named_in, place_from};
ghost use Rattle.fabric.specs.Graph.{Graph};
ghost use Rattle.record_laws.specs.Records.{AreArcsOf};
ghost use Rattle.std.specs.Prelude.{◌==◌, ◌&&◌, ◌≡◌, ◌<◌, ◌^◌, length, option_and_then, position, slice_get};
ghost use Rattle.std.specs.Str.{bytes_eq};

use crate::NamedDevice;
use arc_rows::ArcInfo;
use arc_search::{ArcKey, number_of};
use database_names::DatabaseNames;
use graph_names::TileDatabases;
use mux_rows::MuxInfo;
use rr_ids::{ArcId, Id, MuxId, Name};

// The place of the first arc from a source of the mux at a place of a database.
#[tactic(auto, using(crate::proofs::Places::none_behind))]
fn place_at(names: &DatabaseNames<'_>, mux: usize, source: &Name) -> Option<usize>
    ensures { result ≡ option_and_then (λ m. position (λ a. bytes_eq a.source source.now) m.arcs) (slice_get names.now.muxes mux) }
{
    if mux >= names.database().muxes.len() {
        return None;
    }
    names.arc_place(mux, source)
}

impl<'a> NamedDevice<'a> {
    // The place of the first arc of a mux from a source in the database.
    fn arc_place(&self, mux: &MuxInfo, source: &Name) -> Option<usize>
        ensures { result ≡ place_from self.now.device source.now mux.now }
    {
        let names = self.names(mux.tile)?;
        place_at(names, mux.place as usize, source)
    }

    // What tells the first arc of a mux from a source.
    fn arc_key(&self, m: MuxId, mux: &MuxInfo, source: &Name) -> Option<ArcKey>
        ensures { result ≡ key_in self.now.device self.now.wires m source.now mux.now }
    {
        let place = self.arc_place(mux, source)?;
        let wire = self.wire_named(mux.tile, source)?;
        Some(ArcKey {
            mux: m,
            place,
            source: wire,
            sink: mux.sink,
        })
    }

    // The same of the mux of a number.
    fn key_named(&self, muxes: &[MuxInfo], m: MuxId, source: &Name) -> Option<ArcKey>
        ensures { result ≡ key_named_in self.now.device self.now.wires muxes.now m source.now }
    {
        let mux = muxes.get(m.to_u32() as usize)?;
        self.arc_key(m, mux, source)
    }

    /// The first arc of a mux, in arc order, from the source of a name; where muxes and arcs are those of the graph of the device, `None`
    /// exactly where the mux has no such arc. Takes no memory, and time in proportion to the logarithm of the number of arcs.
    pub fn arc_named(
        &self,
        muxes: &[MuxInfo],
        arcs: &[ArcInfo],
        m: MuxId,
        source: &Name,
    ) -> Option<ArcId>
        requires { length arcs.now < 2 ^ 32 }
        ensures { (g : Graph) → AreArcsOf self.now.device g muxes.now arcs.now
            → result ≡ position (λ a. (a.mux == m) && bytes_eq a.arc.source source.now) g.arcs }
    {
        // each graph of the device has these wires
        let _ = self.numbers.wires();
        match self.key_named(muxes, m, source) {
            Some(key) => number_of(arcs, &key),
            None => None,
        }
    }
}
