//! The place that a tile's name gives.

ghost use Rattle.std.specs.Prelude.{◌≡◌, ◌≤◌, length, option_map};
ghost use Rattle.std.specs.List.{position_or_len, prefix_len};
ghost use Rattle.texts.specs.Numbers.{is_digit, value_of};
ghost use Rattle.json_forms.specs.Places as places;
ghost use Rattle.tile_grid.specs.Capped.{capped, capped_front, capped_place};

// Rows and columns are counted up to this one, which is above each that a grid may have.
const FAR: u16 = 256;

// The value of decimal digits, or FAR where it is more.
fn value(digits: &[u8]) -> u16
    ensures { result ≡ capped (value_of digits.now) }
{
    let mut value = 0u16;
    for digit in digits {
        value = (10 * value + u16::from(digit.saturating_sub(b'0'))).min(FAR);
    }
    value
}

// How many decimal digits a text begins with.
fn digit_count(text: &[u8]) -> usize
    ensures count { result ≡ prefix_len is_digit text.now }
    ensures within { result ≤ length text.now }
{
    for (place, byte) in text.iter().enumerate() {
        if !byte.is_ascii_digit() {
            return place;
        }
    }
    text.len()
}

// The value of the digits that a text begins with, and what stands behind them.
fn behind_digits(text: &[u8]) -> Option<(u16, &[u8])>
    ensures { option_map (λ p. (p.0, p.1.now)) result ≡ option_map capped_front (places.behind_digits text.now) }
{
    let count = digit_count(text);
    if count == 0 {
        return None;
    }
    let (digits, behind) = text.split_at(count);
    Some((value(digits), behind))
}

// The value of the digits behind a letter that a text begins with, and what stands behind them.
fn lettered(letter: u8, text: &[u8]) -> Option<(u16, &[u8])>
    ensures { option_map (λ p. (p.0, p.1.now)) result ≡ option_map capped_front (places.lettered letter text.now) }
{
    match text {
        [first, rest @ ..] if *first == letter => behind_digits(rest),
        _ => None,
    }
}

// The place that a text begins with.
fn place_at_front(text: &[u8]) -> Option<(u16, u16)>
    ensures { result ≡ option_map capped_place (places.place_at_front text.now) }
{
    let (row, behind) = lettered(b'R', text)?;
    let (col, _) = lettered(b'C', behind)?;
    Some((row, col))
}

// The first place in a text.
fn first_place(text: &[u8]) -> Option<(u16, u16)>
    ensures { result ≡ option_map capped_place (places.first_place text.now) }
{
    let mut rest = text;
    while let [_, behind @ ..] = rest {
        if let Some(place) = place_at_front(rest) {
            return Some(place);
        }
        rest = behind;
    }
    None
}

// Where the first colon stands, or the length where there is none.
fn colon_place(name: &[u8]) -> usize
    ensures place { result ≡ position_or_len places.is_colon name.now }
    ensures within { result ≤ length name.now }
{
    for (place, byte) in name.iter().enumerate() {
        if *byte == b':' {
            return place;
        }
    }
    name.len()
}

/// The place of a tile by its name, each part up to 256.
pub(crate) fn place_of(name: &[u8]) -> Option<(u16, u16)>
    ensures { result ≡ option_map capped_place (places.place_of name.now) }
{
    let (before, _) = name.split_at(colon_place(name));
    first_place(before)
}
