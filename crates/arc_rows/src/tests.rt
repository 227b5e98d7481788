ghost use Rattle.std.specs.Prelude.{◌≡◌};

use crate::{ArcInfo, ArcRows};
use rr_ids::{ArcId, Id, MuxId, WireId};
use std::test::Fail;

// An arc of these numbers.
fn arc(mux: u32, place: u32, source: u32, sink: u32) -> ArcInfo
    ensures { result ≡ record { mux = mux; place = place; source = source; sink = sink } }
{
    ArcInfo {
        mux: MuxId::from_u32(mux),
        place,
        source: WireId::from_u32(source),
        sink: WireId::from_u32(sink),
    }
}

#[test]
fn arcs_stand_in_arc_order(rt: HostRuntime) -> Result<(), Fail> {
    let arcs = [arc(0, 0, 1, 2), arc(0, 1, 0, 2)].to_vec(rt.alloc())?;
    let rows = ArcRows::new(rt.alloc(), 3, 1, arcs)?;
    assert_eq!(rt; rows.wires(), 3);
    assert_eq!(rt; rows.muxes(), 1);
    assert_eq!(rt; rows.arcs(), [arc(0, 1, 0, 2), arc(0, 0, 1, 2)].as_slice());
    assert_eq!(rt; rows.arc(ArcId::from_u32(1)).place, 0);
    assert_eq!(rt;
        rows.outs(WireId::from_u32(1)),
        [ArcId::from_u32(1)].as_slice()
    );
    assert_eq!(rt;
        rows.ins(WireId::from_u32(2)),
        [ArcId::from_u32(0), ArcId::from_u32(1)].as_slice()
    );
    assert_eq!(rt; rows.of_mux(MuxId::from_u32(0)).len(), 2);
    Ok(())
}
