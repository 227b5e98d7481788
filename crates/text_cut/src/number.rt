//! Decimal numbers.

ghost use Rattle.std.specs.Prelude.{◌≡◌, ◌≤◌, length, if◌then◌else◌, Some, None};
ghost use Rattle.std.specs.List.{list_all};
ghost use Rattle.texts.specs.Numbers.{is_digit, value_of, number_up_to as number_up_to_of, decimal_of};

/// The number of a word of 1 to 10 decimal digits, where it is below 2^32.
pub fn decimal(word: &[u8]) -> Option<u32>
    ensures { result ≡ decimal_of word.now }
{
    number_up_to(u32::MAX, word)
}

// The number of a word of 1 to 10 decimal digits, where it is at most so great.
pub(crate) fn number_up_to(most: u32, word: &[u8]) -> Option<u32>
    ensures { result ≡ number_up_to_of most word.now }
{
    if word.is_empty() || word.len() > 10 {
        return None;
    }
    let value = digits_value(word)?;
    if value > u64::from(most) {
        return None;
    }
    Some(value as u32)
}

// The value of decimal digits, where all the bytes are digits.
fn digits_value(word: &[u8]) -> Option<u64>
    requires { length word.now ≤ 10 }
    ensures { result ≡ (if list_all is_digit word.now then Some (value_of word.now) else None) }
{
    let mut value: u64 = 0;
    for digit in word {
        if !digit.is_ascii_digit() {
            return None;
        }
        value = 10 * value + u64::from(*digit - b'0');
    }
    Some(value)
}
