//! Rows of places.

ghost use Rattle.std.specs.Prelude.{◌≡◌, ◌<◌, ◌^◌, length, map, IfOk};
ghost use Rattle.std.specs.List.{All, range_with_len};
ghost use Rattle.place_rows.specs.PlaceRows.{place_rows};

use grouped::Grouped;
use rr_ids::Id;
use std::alloc::{AllocError, Global};

// The numbers below a count.
fn numbers_below<P: Id>(alloc: Global, count: usize) -> Result<Vec<P>, AllocError>
    requires { count < 2 ^ 32 }
    ensures { IfOk result (λ numbers. numbers.items ≡ map P.id_of (range_with_len 0 count)) }
{
    let mut numbers = Vec::with_capacity(alloc, count)?;
    for number in 0..count as u32 {
        numbers.push(P::from_u32(number))?;
    }
    Ok(numbers)
}

/// For each number below a count the places of the list where a key has it, in order, as numbers of their own kind. Takes
/// time in proportion to the keys and the count.
pub fn rows_of_places<K: Id, P: Id>(
    alloc: Global,
    count: u32,
    keys: &[K],
) -> Result<Grouped<K, P>, AllocError>
    requires known { All (λ key. K.number key < count) keys.now }
    requires few { length keys.now < 2 ^ 32 }
    ensures { IfOk result (λ rows. rows ≡ place_rows K.number P.id_of count keys.now) }
{
    let numbers = numbers_below(alloc, keys.len())?;
    Grouped::new(alloc, count, keys, &numbers)
}
