use crate::NameSet;
use rr_ids::Name;
use std::test::Fail;

#[test]
fn names_and_fronts_are_found(rt: HostRuntime) -> Result<(), Fail> {
    let alloc = rt.alloc();
    let mut names = Vec::new(alloc);
    for bytes in [b"G_".as_slice(), b"25K_", b"G_"] {
        names.push(Name::new(alloc, bytes)?)?;
    }
    let set = NameSet::new(alloc, &names)?;
    let rows: [(&[u8], bool, bool); 5] = [
        (b"G_", true, true),
        (b"G_CK0", false, true),
        (b"25K_X", false, true),
        (b"G", false, false),
        (b"", false, false),
    ];
    for (bytes, is_name, has_front) in rows {
        assert_eq!(rt; set.contains(bytes), is_name);
        assert_eq!(rt; set.has_front_of(bytes), has_front);
    }
    Ok(())
}
