ghost use Rattle.std.specs.Prelude.{◌≡◌, slice_set};

use crate::{DeviceBit, Id, Limit, List, Name, NameError, Text, TypedVec, WireId, is_name};
use std::test::Fail;

// A write through `get_mut` changes one element alone.
fn put_first(cells: &mut TypedVec<WireId, u8>, value: u8)
    ensures { cells.new ≡ slice_set cells.old 0 value }
{
    if let Some(cell) = cells.get_mut(WireId::from_u32(0)) {
        *cell = value;
    }
}

#[test]
fn small_types_hold_what_they_are_given(rt: HostRuntime) -> Result<(), Fail> {
    let alloc = rt.alloc();
    assert!(rt; matches!(Name::new(alloc, b""), Err(NameError::BadName)));
    assert!(rt; Name::new(alloc, b"X")?.copy()?.bytes() == b"X".as_slice());
    assert!(rt; Text::new(alloc, b"a b")?.copy()?.bytes() == b"a b".as_slice());
    let mut names = List::new(alloc);
    names.push(Name::new(alloc, b"X")?)?;
    assert_eq!(rt; names.len(), 1);
    let mut cells = TypedVec::<WireId, u8>::new(alloc);
    assert_eq!(rt; cells.push(3)?.to_u32(), 0);
    assert_eq!(rt; cells.push(4)?, WireId::from_u32(1));
    put_first(&mut cells, 5);
    assert_eq!(rt; cells.get(WireId::from_u32(0)), Some(&5));
    assert_eq!(rt; cells.get(WireId::from_u32(2)), None);
    Ok(())
}

#[test]
fn names_have_1_to_255_printed_bytes(rt: HostRuntime) -> Result<(), Fail> {
    let alloc = rt.alloc();
    let rows = [
        (0, b'A', false),
        (1, b' ', false),
        (1, b'!', true),
        (1, b'~', true),
        (1, 0x7F, false),
        (255, b'A', true),
        (256, b'A', false),
    ];
    for (count, byte, good) in rows {
        let bytes = vec![in alloc; byte; count]?;
        assert_eq!(rt; is_name(&bytes), good, "{count} of {byte}");
        match Name::new(alloc, &bytes) {
            Ok(name) => assert!(rt;
                good && name.bytes() == bytes.as_slice(),
                "{count} of {byte}"
            ),
            Err(error) => assert!(rt; !good && error == NameError::BadName, "{count} of {byte}"),
        }
    }
    Ok(())
}

#[test]
fn limits_and_bits_print(rt: HostRuntime) -> Result<(), Fail> {
    let alloc = rt.alloc();
    let rows = [
        (Limit::Tiles, "tiles"),
        (Limit::Types, "types"),
        (Limit::Place, "place"),
        (Limit::Pattern, "pattern"),
        (Limit::Slices, "slices"),
        (Limit::Pads, "pads"),
        (Limit::Parts, "parts"),
        (Limit::Wires, "wires"),
        (Limit::Muxes, "muxes"),
        (Limit::Arcs, "arcs"),
    ];
    for (limit, text) in rows {
        assert_eq!(rt; limit.text(), text);
    }
    let limit = Limit::Pattern;
    let bit = DeviceBit { frame: 20, bit: 8 };
    let printed = format!(in alloc; "{limit} {bit}")?;
    assert_eq!(rt; printed.as_str(), "pattern F20B8");
    Ok(())
}
