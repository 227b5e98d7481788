//! What a cell takes.

ghost use Rattle.std.specs.Prelude.{◌≡◌, option_map};
ghost use Rattle.json_forms.specs.Choices as choices;
ghost use Rattle.json_values.specs.Reads.{Reads};
ghost use Rattle.cell_profile.specs.Takes.{take_of, take_for};

use json_values::FormError;
use rr_ids::Name;
use std::alloc::Global;

/// What a value of a setting makes a cell take: an input of a register a wire, its complement or a constant; a
/// pad its mode.
#[derive(Drop)]
pub enum Take {
    Wire(Name),
    NotWire(Name),
    Zero,
    One,
    Off,
    In,
    Out,
}

/// What a choice is for, which says what its cases may take.
#[derive(Clone, Copy)]
pub(crate) enum Purpose {
    /// The data, enable or reset of a register.
    Input,
    Set,
    Clock,
    /// The mode of a pad.
    Mode,
}

// What an input of a register takes.
fn input_take(alloc: Global, text: &[u8]) -> Result<Take, FormError>
    ensures { Reads take_of result (choices.input_take text.now) }
{
    match text {
        [b'=', wire @ ..] => Ok(Take::Wire(json_values::named(alloc, wire)?)),
        [b'!', wire @ ..] => Ok(Take::NotWire(json_values::named(alloc, wire)?)),
        b"0" => Ok(Take::Zero),
        b"1" => Ok(Take::One),
        _ => Err(FormError::Unfit),
    }
}

// What the `set` of a register takes: a constant.
fn set_take(alloc: Global, text: &[u8]) -> Result<Take, FormError>
    ensures { Reads take_of result (choices.set_take text.now) }
{
    match input_take(alloc, text)? {
        Take::Zero => Ok(Take::Zero),
        Take::One => Ok(Take::One),
        _ => Err(FormError::Unfit),
    }
}

// What the clock of a register takes: a wire, or 0 where it has none.
fn clock_take(alloc: Global, text: &[u8]) -> Result<Take, FormError>
    ensures { Reads take_of result (choices.clock_take text.now) }
{
    match input_take(alloc, text)? {
        Take::Zero => Ok(Take::Zero),
        Take::Wire(wire) => Ok(Take::Wire(wire)),
        _ => Err(FormError::Unfit),
    }
}

// The mode of a pad; none where the text is no mode.
fn mode_take(text: &[u8]) -> Option<Take>
    ensures { option_map take_of result ≡ choices.mode_take text.now }
{
    match text {
        b"off" => Some(Take::Off),
        b"in" => Some(Take::In),
        b"out" => Some(Take::Out),
        _ => None,
    }
}

/// What a text makes a cell take, in a choice of a purpose.
pub(crate) fn read_take(alloc: Global, purpose: Purpose, text: &[u8]) -> Result<Take, FormError>
    ensures { Reads take_of result (take_for purpose text.now) }
{
    match purpose {
        Purpose::Input => input_take(alloc, text),
        Purpose::Set => set_take(alloc, text),
        Purpose::Clock => clock_take(alloc, text),
        Purpose::Mode => mode_take(text).ok_or(FormError::Unfit),
    }
}
