ghost use Rattle.std.specs.Prelude.{◌≡◌};

use crate::LinkStack;
use link_order::Link;
use rr_ids::{Id, WireId};
use std::test::Fail;

// The wire of a number.
fn wire(number: u32) -> WireId
    ensures { result ≡ number }
{
    WireId::from_u32(number)
}

// The link of two numbers.
fn link(source: u32, sink: u32) -> Link
    ensures { result ≡ record { source = source; sink = sink } }
{
    Link {
        source: wire(source),
        sink: wire(sink),
    }
}

#[test]
fn links_are_joined(rt: HostRuntime) -> Result<(), Fail> {
    let links = [link(0, 2), link(2, 1), link(0, 2)];
    let outputs = [wire(0)];
    let joined = LinkStack::new(rt.alloc(), 4, &links, &outputs, &[1, 1, 1, 1])?;
    assert_eq!(rt; joined.drivers(wire(1)), [wire(2)].as_slice());
    assert_eq!(rt; joined.feed(wire(1)), Some(wire(0)));
    assert_eq!(rt; joined.feed(wire(3)), None);
    assert_eq!(rt; joined.next(wire(0)), [wire(2)].as_slice());
    Ok(())
}
