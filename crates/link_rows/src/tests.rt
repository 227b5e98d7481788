ghost use Rattle.std.specs.Prelude.{◌≡◌};

use crate::{CellOutputs, LinkRows, OutputsError};
use link_order::Link;
use rr_ids::{Id, WireId};
use std::test::Fail;

// The link of two numbers.
fn link(source: u32, sink: u32) -> Link
    ensures { result ≡ record { source = source; sink = sink } }
{
    Link {
        source: WireId::from_u32(source),
        sink: WireId::from_u32(sink),
    }
}

#[test]
fn links_stand_in_rows_both_ways(rt: HostRuntime) -> Result<(), Fail> {
    let rows = LinkRows::new(rt.alloc(), 3, &[link(2, 1), link(0, 1), link(2, 1)])?;
    assert_eq!(rt; rows.wires(), 3);
    assert_eq!(rt; rows.links(), [link(0, 1), link(2, 1)].as_slice());
    assert_eq!(rt; rows.sources(WireId::from_u32(1)).len(), 2);
    assert_eq!(rt;
        rows.sinks(WireId::from_u32(2)),
        [WireId::from_u32(1)].as_slice()
    );
    Ok(())
}
