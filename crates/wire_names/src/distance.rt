//! The distances at the front of a relative name.

ghost use Rattle.std.specs.Prelude.{◌≡◌, ◌≤◌, ◌≤ℤ◌, pos, negsuc, neg_ℤ, [], ◌∷◌, MatchOption, None, Some, length, drop, take_while, if◌then◌else◌};
ghost use Rattle.texts.specs.Numbers.{is_digit, number_up_to};
ghost use Rattle.records.specs.Limits.{most_distance};

use text_cut::decimal;

/// What has been read of a name: how far it moves, and what is left of the name.
#[derive(Clone, Copy)]
pub(crate) struct Moved<'a> {
    pub(crate) by: i32,
    pub(crate) rest: &'a [u8],
    pub(crate) ghost low: { negsuc 254 ≤ℤ by },
    pub(crate) ghost high: { by ≤ℤ pos 255 },
}

impl<'a> Moved<'a> {
    ghost use Rattle.fabric.specs.WireOfName.{behind_number, distance_of};
    ghost use Rattle.wire_names.specs.Parts.{moved_view};

    // The distance at the front of a name, which one letter lowers and another one raises.
    pub(crate) fn read(lowers: u8, raises: u8, name: &'a [u8]) -> Moved<'a>
        ensures parts { moved_view result ≡ distance_of (lowers ∷ []) (raises ∷ []) name.now }
        ensures shorter { length result.rest.now ≤ length name.now }
    {
        match name.split_first() {
            Some((letter, behind)) if *letter == lowers => Moved::behind(true, name, behind),
            Some((letter, behind)) if *letter == raises => Moved::behind(false, name, behind),
            _ => Moved { by: 0, rest: name },
        }
    }

    // The distance of a letter that lowers or raises: the number behind it, or none.
    fn behind(lowers: bool, name: &'a [u8], behind: &'a [u8]) -> Moved<'a>
        ensures parts { moved_view result ≡ behind_number (if lowers then (λ n. neg_ℤ (pos n)) else (λ n. pos n)) name.now behind.now }
        ensures shorter { length behind.now ≤ length name.now → length result.rest.now ≤ length name.now }
    {
        match front_number(behind) {
            Some((number, rest)) => Moved {
                by: if lowers {
                    -i32::from(number)
                } else {
                    i32::from(number)
                },
                rest,
            },
            None => Moved { by: 0, rest: name },
        }
    }
}

// The number of at most 255 at the front of a text, and what stands behind its digits.
fn front_number<'a>(text: &'a [u8]) -> Option<(u8, &'a [u8])>
    ensures { let digits = take_while is_digit text.now in
        MatchOption result (number_up_to most_distance digits ≡ None)
        (λ r. (number_up_to most_distance digits ≡ Some r.0) × (r.1.now ≡ drop (length digits) text.now)) }
{
    let (digits, rest) = text.split_at(digits_len(text));
    let number = decimal(digits)?;
    if number > 255 {
        return None;
    }
    Some((number as u8, rest))
}

// How many digits stand in front.
fn digits_len(text: &[u8]) -> usize
    ensures { result ≡ length (take_while is_digit text.now) }
{
    text.iter().take_while(|byte| byte.is_ascii_digit()).count()
}
