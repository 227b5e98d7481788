//! The least assignment at which tables give different outputs.

ghost use Rattle.std.specs.Prelude.{◌≡◌, ◌^◌, ◌≤◌, length};
ghost use Rattle.table_copies.specs.Outputs.{IsLeastDiffering};

use crate::copies::Tables;
use crate::digits::Assignment;
use crate::outputs::differ_at;

// How many assignments there are for so many feeders.
fn assignments(count: usize) -> u32
    requires { count ≤ 12 }
    ensures { result ≡ 2 ^ count }
{
    1 << count
}

/// The least number whose digits make a copy give 0 and another one 1.
pub(crate) fn least_differing(tables: &Tables, count: usize) -> Option<u32>
    requires { count ≤ 12 }
    ensures { IsLeastDiffering count tables.now result }
{
    for number in 0..assignments(count) {
        if differ_at(tables, Assignment { count, number }) {
            return Some(number);
        }
    }
    None
}
