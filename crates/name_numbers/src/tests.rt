use crate::NameNumbers;
use rr_ids::Name;
use std::test::Fail;

#[test]
fn each_name_has_one_number(rt: HostRuntime) -> Result<(), Fail> {
    let alloc = rt.alloc();
    let first = Name::new(alloc, b"H0")?;
    let second = Name::new(alloc, b"A")?;
    let numbers = NameNumbers::of(alloc, &[&first, &second, &first])?;
    assert_eq!(rt; numbers.as_slice().len(), 2);
    assert_eq!(rt; numbers.number(b"H0"), Some(0));
    assert_eq!(rt; numbers.number(b"A"), Some(1));
    assert_eq!(rt; numbers.number(b"B"), None);
    Ok(())
}
