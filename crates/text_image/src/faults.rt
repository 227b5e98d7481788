//! What is wrong with a line of a text.

ghost use Rattle.std.specs.Prelude.{◌≡◌, option_map};
ghost use Rattle.text_image.specs.Faults.{fault_view, first_of};

/// How a line names what isn't there.
#[derive(Clone, Copy, Debug)]
pub enum LineError {
    /// The tile isn't in the grid.
    UnknownTile,
    /// An arc in a tile without a place.
    NoPlace,
    /// The tile has no such mux.
    UnknownSink,
    /// The mux has no such arc.
    UnknownSource,
    /// The tile has no such word or enum.
    UnknownSetting,
    /// The enum has no such option.
    UnknownValue,
    /// The word has another number of bits.
    WordLength,
    /// A raw bit at or past the tile's last frame or bit.
    OutsideTile,
}

/// The number of a line, from 1, and what is wrong with it.
#[derive(Clone, Copy, Debug)]
pub struct TextFault {
    pub line: u32,
    pub error: LineError,
}

/// Of two faults the one of the lower line, and where their lines are equal the first.
pub(crate) fn earlier(first: Option<TextFault>, second: Option<TextFault>) -> Option<TextFault>
    ensures { option_map fault_view result ≡ first_of (option_map fault_view first) (option_map fault_view second) }
{
    match (first, second) {
        (Some(a), Some(b)) if b.line < a.line => Some(b),
        (Some(a), _) => Some(a),
        (None, other) => other,
    }
}

/// A fault of a line.
pub(crate) fn fault(line: u32, error: LineError) -> Option<TextFault>
    ensures { option_map fault_view result ≡ option_map fault_view (Some (record { line = line; error = error })) }
{
    Some(TextFault { line, error })
}
