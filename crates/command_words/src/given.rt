//! Options as they stand among words, two words each.

ghost use Rattle.std.specs.Prelude.{◌≡◌, ◌+◌, ◌<◌, ◌^◌, IfOk, length, map, string_bytes, option_map, slice_get};
ghost use Rattle.command_words.specs.Pairs.{option_in};
ghost use Rattle.commands.specs.Options as options;

use std::alloc::{AllocError, Global};
use std::marker::Model;

/// An option: the number of the word that names it, its name, and the word behind it, if there is one. Contracts see the
/// record of the fields.
#[derive(Drop)]
pub(crate) struct Given<'a> {
    pub(crate) number: u64,
    pub(crate) name: &'a str,
    pub(crate) value: Option<&'a str>,
}

impl<'a> Model for Given<'a> {
    ghost use Rattle.commands.specs.Options.{Given as Record};
    ghost use Rattle.std.specs.Prelude.{option_map, ◌<◌, ◌^◌};

    ghost Value = { Record };

    ghost view = { λ g. record { number = g.number; name = g.name.now; value = option_map (λ v. v.now) g.value } };

    ghost invariant = { λ g. g.number < 2 ^ 63 };
}

// The word at a place, if there is one.
fn word_at(words: &[String], place: usize) -> Option<&str>
    ensures { option_map (λ v. v.now) result ≡ option_map string_bytes (slice_get words.now place) }
{
    let word = words.get(place)?;
    Some(word.as_str())
}

// The option whose name stands at a place.
fn option_at(words: &[String], place: usize) -> Given<'_>
    requires there { place < length words.now }
    requires few { length words.now < 2 ^ 62 }
    ensures { result ≡ option_in words.now place }
{
    Given {
        number: place as u64 + 2,
        name: words[place].as_str(),
        value: word_at(words, place + 1),
    }
}

/// Words as options, two by two, of which the first is word 2.
#[tactic(auto, using(crate::proofs::Pairs::step, crate::proofs::Pairs::none_left))]
pub(crate) fn given_options(alloc: Global, words: &[String]) -> Result<Vec<Given<'_>>, AllocError>
    requires { length words.now < 2 ^ 62 }
    ensures { IfOk result (λ given. given.items ≡ options.given_from 2 (map string_bytes words.now)) }
{
    let mut given = Vec::new(alloc);
    let mut place = 0;
    while place < words.len() {
        given.push(option_at(words, place))?;
        place += 2;
    }
    Ok(given)
}

/// Whether an option of a name is given.
pub(crate) fn is_given(given: &[Given<'_>], name: &str) -> bool
    ensures { result ≡ options.is_given given.now name.now }
{
    for option in given {
        if option.name == name {
            return true;
        }
    }
    false
}

/// The value of the option of a name, where it is given with one.
#[tactic(auto, using(crate::proofs::Found::one_more_found, crate::proofs::Found::none_left))]
pub(crate) fn value_given<'a>(given: &[Given<'a>], name: &str) -> Option<&'a str>
    ensures { option_map (λ v. v.now) result ≡ options.value_given given.now name.now }
{
    for option in given {
        if option.name == name {
            return option.value;
        }
    }
    None
}
