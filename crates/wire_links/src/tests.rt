ghost use Rattle.std.specs.Prelude.{◌≡◌};

use crate::{LinksError, WireLinks};
use link_order::Link;
use rr_ids::{Id, WireId};
use std::test::Fail;
use wire_contests::Contest;

// The wire of a number.
fn wire(number: u32) -> WireId
    ensures { result ≡ number }
{
    WireId::from_u32(number)
}

// The link of two numbers.
fn link(source: u32, sink: u32) -> Link
    ensures { result ≡ record { source = source; sink = sink } }
{
    Link {
        source: wire(source),
        sink: wire(sink),
    }
}

#[test]
fn links_are_joined(rt: HostRuntime) -> Result<(), Fail> {
    let links = [link(0, 2), link(2, 1), link(3, 1), link(0, 2)];
    let outputs = [wire(0)];
    let joined = WireLinks::new(rt.alloc(), 4, &links, &outputs)?;
    assert_eq!(rt; joined.drivers(wire(1)), [wire(2), wire(3)].as_slice());
    assert_eq!(rt; joined.driver(wire(1)), Some(wire(2)));
    assert_eq!(rt; joined.feed(wire(1)), Some(wire(0)));
    assert_eq!(rt; joined.feed(wire(3)), None);
    assert_eq!(rt; joined.next(wire(0)), [wire(2)].as_slice());
    let below = joined.below(rt.alloc(), wire(0))?;
    assert_eq!(rt; below.as_slice(), [wire(0), wire(2), wire(1)].as_slice());
    Ok(())
}

#[test]
fn the_least_contested_wire_is_named(rt: HostRuntime) -> Result<(), Fail> {
    let links = [link(0, 3), link(0, 2), link(1, 2)];
    let outputs = [wire(0), wire(1), wire(3)];
    let error = WireLinks::new(rt.alloc(), 4, &links, &outputs).err();
    let contest = Contest {
        wire: wire(2),
        first: wire(0),
        second: wire(1),
    };
    assert_eq!(rt; error, Some(LinksError::Contested(contest)));
    Ok(())
}
