use crate::{MuxInfo, MuxRows};
use rr_ids::{Id, MuxId, TileId, WireId};
use std::test::Fail;

#[test]
fn muxes_stand_at_their_tile_and_their_sink(rt: HostRuntime) -> Result<(), Fail> {
    let mux = MuxInfo {
        tile: TileId::from_u32(1),
        place: 4,
        sink: WireId::from_u32(2),
    };
    let muxes = [mux].to_vec(rt.alloc())?;
    let rows = MuxRows::new(rt.alloc(), 2, 3, muxes)?;
    assert_eq!(rt; rows.len(), 1);
    assert_eq!(rt; rows.muxes(), [mux].as_slice());
    assert_eq!(rt; rows.mux(MuxId::from_u32(0)).place, 4);
    assert_eq!(rt; rows.of_tile(TileId::from_u32(0)).len(), 0);
    assert_eq!(rt;
        rows.of_tile(TileId::from_u32(1)),
        [MuxId::from_u32(0)].as_slice()
    );
    assert_eq!(rt;
        rows.of_sink(WireId::from_u32(2)),
        [MuxId::from_u32(0)].as_slice()
    );
    Ok(())
}
