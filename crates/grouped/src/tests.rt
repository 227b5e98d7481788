use crate::Grouped;
use rr_ids::{Id, WireId};
use std::alloc::{AllocError, Global};
use std::test::Fail;

// Wires of these numbers.
fn wires(alloc: Global, numbers: &[u32]) -> Result<Vec<WireId>, AllocError> {
    let mut wires = Vec::new(alloc);
    for number in numbers {
        wires.push(WireId::from_u32(*number))?;
    }
    Ok(wires)
}

#[test]
fn items_stand_in_the_rows_of_their_keys(rt: HostRuntime) -> Result<(), Fail> {
    let keys = wires(rt.alloc(), &[3, 0, 3, 1, 0, 3])?;
    let items = [10u32, 11, 12, 13, 14, 15].to_vec(rt.alloc())?;
    assert_eq!(rt; keys.len(), items.len());
    assert!(rt; keys.len() < 100);
    assert!(rt; keys.iter().all(|key| key.to_u32() < 4));
    let grouped = Grouped::new(rt.alloc(), 4, &keys, &items)?;
    assert_eq!(rt; grouped.len(), 4);
    assert_eq!(rt; grouped.items(), [11, 14, 13, 10, 12, 15].as_slice());
    assert_eq!(rt; grouped.row(WireId::from_u32(0)), [11, 14].as_slice());
    assert_eq!(rt; grouped.row(WireId::from_u32(1)), [13].as_slice());
    assert_eq!(rt; grouped.row(WireId::from_u32(2)).len(), 0);
    assert_eq!(rt; grouped.row(WireId::from_u32(3)), [10, 12, 15].as_slice());
    Ok(())
}
