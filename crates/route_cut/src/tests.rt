use crate::{Cut, check};
use net_square::Square;
use rr_ids::{Id, List, WireId};
use std::alloc::{AllocError, Global};
use std::test::Fail;

// Wires by their numbers.
fn wires(alloc: Global, numbers: &[u32]) -> Result<List<WireId>, AllocError> {
    let mut wires = List::new(alloc);
    for n in numbers {
        wires.push(WireId::from_u32(*n))?;
    }
    Ok(wires)
}

#[test]
fn a_cut_is_told_from_other_sets(rt: HostRuntime) -> Result<(), Fail> {
    let alloc = rt.alloc();
    let rules = Square::new(1, false);
    let pin = WireId::from_u32(3);
    let rows: [(&[u32], &[u32], bool); 8] = [
        (&[0, 1, 2], &[3], true),
        (&[0, 1, 2, 3], &[], false),
        (&[0, 1], &[2, 3], false),
        (&[0, 1, 2], &[], false),
        (&[0, 1, 2], &[3, 4], false),
        (&[0, 1, 2, 4], &[3], false),
        (&[0, 2, 1], &[3], false),
        (&[1, 2], &[3], false),
    ];
    for (inside, rim, is_cut) in rows {
        let cut = Cut {
            inside: wires(alloc, inside)?,
            rim: wires(alloc, rim)?,
        };
        assert_eq!(rt; check(&cut, &rules, pin), is_cut);
    }
    Ok(())
}
