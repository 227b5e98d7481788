use crate::{Counts, PartName, PinName, Refusal, Wire, checked_text, refused_text, safe_text};
use cell_parts::PartKind;
use std::test::Fail;

#[test]
fn texts_are_printed(rt: HostRuntime) -> Result<(), Fail> {
    let alloc = rt.alloc();
    let pin = PinName {
        part: PartName {
            cell: b"w0",
            part: PartKind::Table(0),
        },
        pin: 3,
    };
    let wire = Wire::Local {
        row: -1,
        col: 12,
        base: b"F",
    };
    let refused = refused_text(alloc, Refusal::UnnamedSource(pin, wire))?;
    assert_eq!(rt;
        refused.as_slice(),
        b"refused 28 UnnamedSource w0.t0 3 R-1C12/F\n".as_slice()
    );
    let counts = Counts {
        slices: 3,
        pads: 6,
        outputs: 1,
        voters: 3,
    };
    let checked = checked_text(alloc, &counts)?;
    assert_eq!(rt;
        checked.as_slice(),
        b"triplicated\nslices 3 pads 6 outputs 1 voters 3\n".as_slice()
    );
    let safe = safe_text(alloc, 178)?;
    assert_eq!(rt; safe.as_slice(), b"safe\nbits 178\n".as_slice());
    Ok(())
}
