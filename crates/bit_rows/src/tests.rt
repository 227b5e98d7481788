use crate::{BitRows, MuxBit};
use rr_ids::{DeviceBit, Id, MuxId};
use std::test::Fail;

#[test]
fn bits_stand_at_their_muxes_and_muxes_at_their_bits(rt: HostRuntime) -> Result<(), Fail> {
    let low = DeviceBit {
        frame: 0,
        bit: 70_000,
    };
    let high = DeviceBit {
        frame: 70_000,
        bit: 1,
    };
    let pairs = [
        MuxBit {
            mux: MuxId::from_u32(0),
            bit: high,
        },
        MuxBit {
            mux: MuxId::from_u32(1),
            bit: low,
        },
        MuxBit {
            mux: MuxId::from_u32(1),
            bit: high,
        },
    ]
    .to_vec(rt.alloc())?;
    let rows = BitRows::new(rt.alloc(), 2, pairs)?;
    assert_eq!(rt; rows.bits(), [low, high].as_slice());
    assert_eq!(rt; rows.bits_of(MuxId::from_u32(1)), [low, high].as_slice());
    assert_eq!(rt; rows.muxes_of_bit(low), [MuxId::from_u32(1)].as_slice());
    assert_eq!(rt;
        rows.muxes_of_bit(high),
        [MuxId::from_u32(0), MuxId::from_u32(1)].as_slice()
    );
    assert_eq!(rt; rows.muxes_of_bit(DeviceBit { frame: 0, bit: 0 }).len(), 0);
    Ok(())
}
