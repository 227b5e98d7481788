//! The reading of the words of a command line.

ghost use Rattle.std.specs.Prelude.{◌≡◌, ◌+◌, ◌<◌, ◌^◌, length, map, option_map, string_bytes, unwrap_or, [], codes};
ghost use Rattle.std.specs.Str.{bytes_eq};
ghost use Rattle.words.specs.OrMemory.{OrMemory};
ghost use Rattle.command_words.specs.Rips.{rip_view};
ghost use Rattle.command_words.specs.Views.{analyse_read, check_read, command_view, harden_read, usage_of};
ghost use Rattle.commands.specs.Options.{number_within};
ghost use Rattle.records.specs.Limits.{most_blocks};
ghost use Rattle.texts.specs.Numbers.{decimal_of};
ghost use Rattle.commands.specs.Readings as readings;

use crate::bits::bit_words;
use crate::given::{Given, given_options, value_given};
use crate::judged::{Allowed, first_option_fault, lacks_one, rounds_of};
use crate::tables::{harden_options, input_options};
use crate::{Command, Hardening, Inputs, Rip, WordsError};
use std::alloc::Global;
use text_cut::decimal;

// The words behind `drivers`.
fn drivers_words(alloc: Global, words: &[String]) -> Result<Command<'_>, WordsError>
    requires { length words.now < 2 ^ 62 }
    ensures { OrMemory command_view usage_of result (readings.drivers_words (map string_bytes words.now)) }
{
    let Some((name, rest)) = words.split_first() else {
        return Err(WordsError::Usage(2));
    };
    let bits = bit_words(alloc, 3, rest)?;
    Ok(Command::Drivers(name.as_str(), bits))
}

// The words behind `run`.
fn run_words(words: &[String]) -> Result<Command<'_>, WordsError>
    ensures { OrMemory command_view usage_of result (readings.run_words (map string_bytes words.now)) }
{
    let Some((word, rest)) = words.split_first() else {
        return Err(WordsError::Usage(2));
    };
    let Some(blocks) = blocks_of(word.as_bytes()) else {
        return Err(WordsError::Usage(2));
    };
    if !rest.is_empty() {
        return Err(WordsError::Usage(3));
    }
    Ok(Command::Run(blocks))
}

// The number of blocks that a word says.
fn blocks_of(word: &[u8]) -> Option<u32>
    ensures { result ≡ number_within 1 most_blocks (decimal_of word.now) }
{
    let blocks = decimal(word)?;
    if 1 <= blocks && blocks <= 2048 {
        return Some(blocks);
    }
    None
}

// The options that words give, if each may stand where it stands and none is missing.
fn options_of<'a>(
    alloc: Global,
    allowed: &[Allowed],
    words: &'a [String],
) -> Result<Vec<Given<'a>>, WordsError>
    requires { length words.now < 2 ^ 62 }
    ensures { OrMemory (λ given. given.items) usage_of result (readings.options_of allowed.now (map string_bytes words.now)) }
{
    let given = given_options(alloc, words)?;
    if let Some(number) = first_option_fault(allowed, &given) {
        return Err(WordsError::Usage(number));
    }
    if lacks_one(allowed, &given) {
        return Err(WordsError::Usage(words.len() as u64 + 2));
    }
    Ok(given)
}

fn text_of<'a>(given: &[Given<'a>], name: &str) -> &'a str
    ensures { result.now ≡ readings.text_of given.now name.now }
{
    match value_given(given, name) {
        Some(value) => value,
        None => "",
    }
}

fn inputs_of<'a>(given: &[Given<'a>]) -> Inputs<'a>
    ensures { result ≡ readings.inputs_of given.now }
{
    Inputs {
        family: text_of(given, "--family"),
        profile: text_of(given, "--profile"),
        side: text_of(given, "--side"),
        config: text_of(given, "--config"),
    }
}

fn rounds_given(given: &[Given<'_>]) -> u32
    ensures { result ≡ (readings.hardening_of given.now).rounds }
{
    let Some(value) = value_given(given, "--rounds") else {
        return 32;
    };
    match rounds_of(value) {
        Some(rounds) => rounds,
        None => 32,
    }
}

fn rip_given(given: &[Given<'_>]) -> Rip
    ensures { rip_view result ≡ (readings.hardening_of given.now).rip }
{
    match value_given(given, "--rip") {
        Some(value) if value == "all" => Rip::All,
        _ => Rip::Unsafe,
    }
}

fn hardening_of<'a>(given: &[Given<'a>]) -> Hardening<'a>
    ensures { result ≡ readings.hardening_of given.now }
{
    Hardening {
        out: text_of(given, "--out"),
        side_out: text_of(given, "--side-out"),
        cut_out: text_of(given, "--cut-out"),
        rounds: rounds_given(given),
        rip: rip_given(given),
    }
}

// The words behind `check`.
fn check_words(alloc: Global, words: &[String]) -> Result<Command<'_>, WordsError>
    requires { length words.now < 2 ^ 62 }
    ensures { OrMemory command_view usage_of result (check_read (map string_bytes words.now)) }
{
    let given = options_of(alloc, &input_options(), words)?;
    Ok(Command::Check(inputs_of(&given)))
}

// The words behind `analyse`.
fn analyse_words(alloc: Global, words: &[String]) -> Result<Command<'_>, WordsError>
    requires { length words.now < 2 ^ 62 }
    ensures { OrMemory command_view usage_of result (analyse_read (map string_bytes words.now)) }
{
    let given = options_of(alloc, &input_options(), words)?;
    Ok(Command::Analyse(inputs_of(&given)))
}

// The words behind `harden`.
fn harden_words(alloc: Global, words: &[String]) -> Result<Command<'_>, WordsError>
    requires { length words.now < 2 ^ 62 }
    ensures { OrMemory command_view usage_of result (harden_read (map string_bytes words.now)) }
{
    let given = options_of(alloc, &harden_options(), words)?;
    Ok(Command::Harden(inputs_of(&given), hardening_of(&given)))
}

/// The command of a name that the words behind it say; `Usage` tells the first word that can't stand where it stands, 1 where
/// there is no command of the name.
pub fn command_of<'a>(
    alloc: Global,
    name: &str,
    words: &'a [String],
) -> Result<Command<'a>, WordsError>
    ensures { OrMemory command_view usage_of result (readings.command_words name.now (map string_bytes words.now)) }
{
    if words.len() >= 4_611_686_018_427_387_904 {
        return Err(WordsError::Memory);
    }
    match name {
        "drivers" => drivers_words(alloc, words),
        "check" => check_words(alloc, words),
        "analyse" => analyse_words(alloc, words),
        "harden" => harden_words(alloc, words),
        "run" => run_words(words),
        _ => Err(WordsError::Usage(1)),
    }
}
