use crate::{PathAnswer, SearchSpace, least_path};
use net_square::Square;
use route_cut::check;
use rr_ids::{ArcId, Id, WireId};
use std::test::Fail;

// Whether the answer is the path over two arcs, of weight 2.
fn is_path(answer: &PathAnswer, first: u32, last: u32) -> bool {
    match answer {
        PathAnswer::Found { arcs, weight } => {
            arcs.as_slice() == [ArcId::from_u32(first), ArcId::from_u32(last)].as_slice()
                && *weight == 2
        }
        PathAnswer::Blocked(_) => false,
    }
}

#[test]
fn a_path_or_a_cut_is_found(rt: HostRuntime) -> Result<(), Fail> {
    let alloc = rt.alloc();
    let pin = WireId::from_u32(3);
    let mut space = SearchSpace::reserve(alloc, 4)?;
    let light = Square::new(1, true);
    let answer = least_path(alloc, &light, pin, &mut space)?;
    assert!(rt; is_path(&answer, 0, 1));
    let closed = Square::new(1, false);
    match least_path(alloc, &closed, pin, &mut space)? {
        PathAnswer::Found { .. } => panic!(rt; "there is no path"),
        PathAnswer::Blocked(cut) => {
            let inside = [0, 1, 2].map(WireId::from_u32);
            assert!(rt; cut.inside.as_slice() == inside.as_slice());
            assert!(rt; cut.rim.as_slice() == [pin].as_slice());
            assert!(rt; check(&cut, &closed, pin));
        }
    }
    let heavy = Square::new(2, true);
    let answer = least_path(alloc, &heavy, pin, &mut space)?;
    assert!(rt; is_path(&answer, 2, 3));
    Ok(())
}
