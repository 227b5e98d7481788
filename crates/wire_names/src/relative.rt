//! Relative names.

ghost use Rattle.std.specs.Prelude.{◌≤ℤ◌, pos, negsuc};

use crate::distance::Moved;

/// Rows and columns from a tile's place, and a base.
#[derive(Clone, Copy, Debug)]
pub struct Relative<'a> {
    pub rows: i32,
    pub columns: i32,
    pub base: &'a [u8],
    pub ghost low_rows: { negsuc 254 ≤ℤ rows },
    pub ghost high_rows: { rows ≤ℤ pos 255 },
    pub ghost low_columns: { negsuc 254 ≤ℤ columns },
    pub ghost high_columns: { columns ≤ℤ pos 255 },
}

impl<'a> Relative<'a> {
    ghost use Rattle.std.specs.Prelude.{◌≡◌, ◌<◌, ◌≤◌, length};
    ghost use Rattle.fabric.specs.WireOfName.{relative_of};
    ghost use Rattle.wire_names.specs.Parts.{relative_view};

    // The distances and the base of a name; none and the whole name where it isn't relative.
    pub(crate) fn read(name: &'a [u8]) -> Relative<'a>
        ensures parts { relative_view result ≡ relative_of name.now }
        ensures some { 0 < length name.now → 0 < length result.base.now }
        ensures shorter { length result.base.now ≤ length name.now }
    {
        let down = Moved::read(b'N', b'S', name);
        let right = Moved::read(b'W', b'E', down.rest);
        match right.rest {
            [b'_', base @ ..] if !base.is_empty() => Relative {
                rows: down.by,
                columns: right.by,
                base,
            },
            _ => Relative {
                rows: 0,
                columns: 0,
                base: name,
            },
        }
    }
}
