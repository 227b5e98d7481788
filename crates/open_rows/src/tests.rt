use crate::OpenRows;
use rr_ids::{Id, WireId};
use std::test::Fail;

#[test]
fn rows_have_no_item_at_first(rt: HostRuntime) -> Result<(), Fail> {
    let rows: OpenRows<WireId, u32> = OpenRows::new(rt.alloc(), &[2, 0, 1], 0)?;
    assert_eq!(rt; rows.len(), 3);
    assert_eq!(rt; rows.row(WireId::from_u32(0)).len(), 0);
    Ok(())
}
