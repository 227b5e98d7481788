//! Numbers that may be there, in a list.

ghost use Rattle.std.specs.Prelude.{◌≡◌, ◌++◌, IfOk, OnOk};
ghost use Rattle.copy_checks.specs.Listed.{AreThere, present};

use rr_ids::Number;
use std::alloc::{AllocError, Global};

// Adds a number where it is there.
fn add<K>(list: &mut Vec<Number<K>>, number: Option<Number<K>>) -> Result<(), AllocError>
    ensures { OnOk result (list.new.items ≡ list.old.items ++ present number) }
{
    if let Some(number) = number {
        list.push(number)?;
    }
    Ok(())
}

/// Those of three numbers that are there.
pub(crate) fn listed<K>(
    alloc: Global,
    first: Option<Number<K>>,
    second: Option<Number<K>>,
    third: Option<Number<K>>,
) -> Result<Vec<Number<K>>, AllocError>
    ensures { IfOk result (λ list. AreThere first second third list.items) }
{
    let mut list = Vec::new(alloc);
    add(&mut list, first)?;
    add(&mut list, second)?;
    add(&mut list, third)?;
    Ok(list)
}
