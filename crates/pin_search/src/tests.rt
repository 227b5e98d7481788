use crate::{Path, PinSpace, find};
use net_square::Square;
use rr_ids::{ArcId, Id, WireId};
use std::test::Fail;

// Whether the answer is the path over two arcs, of weight 2.
fn is_path(answer: &Option<Path>, first: u32, last: u32) -> bool {
    match answer {
        Some(path) => {
            path.arcs.as_slice() == [ArcId::from_u32(first), ArcId::from_u32(last)].as_slice()
                && path.weight == 2
        }
        None => false,
    }
}

#[test]
fn the_first_of_the_least_paths_is_found_or_none(rt: HostRuntime) -> Result<(), Fail> {
    let alloc = rt.alloc();
    let pin = WireId::from_u32(3);
    let mut space = PinSpace::reserve(alloc, 4)?;
    let light = Square::new(1, true);
    let answer = find(alloc, &light, pin, &mut space)?;
    assert!(rt; is_path(&answer, 0, 1));
    let closed = Square::new(1, false);
    assert!(rt; find(alloc, &closed, pin, &mut space)?.is_none());
    let heavy = Square::new(2, true);
    let answer = find(alloc, &heavy, pin, &mut space)?;
    assert!(rt; is_path(&answer, 2, 3));
    Ok(())
}
