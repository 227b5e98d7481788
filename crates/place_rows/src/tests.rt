use crate::rows_of_places;
use rr_ids::{ArcId, Id, WireId};
use std::test::Fail;

#[test]
fn places_stand_in_the_rows_of_their_keys(rt: HostRuntime) -> Result<(), Fail> {
    let mut keys = Vec::new(rt.alloc());
    for number in [2u32, 0, 2] {
        keys.push(WireId::from_u32(number))?;
    }
    assert!(rt; keys.len() < 100);
    assert!(rt; keys.iter().all(|key| key.to_u32() < 3));
    let rows = rows_of_places::<WireId, ArcId>(rt.alloc(), 3, &keys)?;
    assert_eq!(rt; rows.len(), 3);
    assert_eq!(rt; rows.row(WireId::from_u32(1)).len(), 0);
    assert_eq!(rt;
        rows.row(WireId::from_u32(2)),
        [ArcId::from_u32(0), ArcId::from_u32(2)].as_slice()
    );
    Ok(())
}
