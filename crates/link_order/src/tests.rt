ghost use Rattle.std.specs.Prelude.{◌≡◌};

use crate::{Link, in_order};
use rr_ids::{Id, WireId};
use std::test::Fail;

// The link of two numbers.
fn link(source: u32, sink: u32) -> Link
    ensures { result ≡ record { source = source; sink = sink } }
{
    Link {
        source: WireId::from_u32(source),
        sink: WireId::from_u32(sink),
    }
}

#[test]
fn links_are_put_in_order_once(rt: HostRuntime) -> Result<(), Fail> {
    let links = [link(2, 1), link(0, 3), link(3, 1), link(2, 1), link(1, 0)];
    let ordered = in_order(rt.alloc(), 4, &links)?;
    let expected = [link(1, 0), link(2, 1), link(3, 1), link(0, 3)];
    assert_eq!(rt; ordered.as_slice(), expected.as_slice());
    Ok(())
}
