//! The arguments of refusals, by their forms.

ghost use Rattle.std.specs.Prelude.{◌≡◌};
ghost use Rattle.answers.specs.Texts.{refusal_arguments};
ghost use Rattle.report_text.specs.Arguments.{argument_texts};
ghost use Rattle.report_text.specs.Refused.{refusal_view};

use crate::Refusal;
use crate::named::{PartName, PinName, Wire};
use rr_ids::Limit;

/// Arguments as they are printed one after the other.
#[derive(Clone, Copy)]
pub(crate) enum Arguments<'a> {
    None,
    Word(&'a [u8]),
    Number(u32),
    WordNumber(&'a [u8], u32),
    WordLimit(&'a [u8], Limit),
    Words(&'a [u8], &'a [u8]),
    OneWire(Wire<'a>),
    Wires(Wire<'a>, Wire<'a>, Wire<'a>),
    ThreeWords(&'a [u8], &'a [u8], &'a [u8]),
    PinWire(PinName<'a>, Wire<'a>),
    Part(PartName<'a>),
    Pin(PinName<'a>),
    PartNumber(PartName<'a>, u32),
    PartWord(PartName<'a>, &'a [u8]),
}

/// The arguments of a refusal.
pub(crate) fn arguments_of(refusal: Refusal<'_>) -> Arguments<'_>
    ensures { argument_texts result ≡ refusal_arguments (refusal_view refusal.entry) }
{
    match refusal {
        Refusal::Missing(file) => Arguments::Word(file),
        Refusal::TooLong(file) => Arguments::Word(file),
        Refusal::BadLine(file, line) => Arguments::WordNumber(file, line),
        Refusal::OutsideBlock(file, line) => Arguments::WordNumber(file, line),
        Refusal::NoDevice(file) => Arguments::Word(file),
        Refusal::TooLarge(file, limit) => Arguments::WordLimit(file, limit),
        Refusal::NotJson(file) => Arguments::Word(file),
        Refusal::BadShape(file, key) => Arguments::Words(file, key),
        Refusal::DuplicateName(cell) => Arguments::Word(cell),
        Refusal::UnknownName(cell) => Arguments::Word(cell),
        Refusal::Unpaired(cell) => Arguments::Word(cell),
        Refusal::WrongDomain(cell) => Arguments::Word(cell),
        Refusal::OverlapShape(wire) => Arguments::OneWire(wire),
        Refusal::UnknownTile(line) => Arguments::Number(line),
        Refusal::NoPlace(line) => Arguments::Number(line),
        Refusal::UnknownSink(line) => Arguments::Number(line),
        Refusal::UnknownSource(line) => Arguments::Number(line),
        Refusal::UnknownSetting(line) => Arguments::Number(line),
        Refusal::UnknownValue(line) => Arguments::Number(line),
        Refusal::WordLength(line) => Arguments::Number(line),
        Refusal::OutsideTile(line) => Arguments::Number(line),
        Refusal::ArcDiffers(tile, sink) => Arguments::Words(tile, sink),
        Refusal::Contested(wire, first, second) => Arguments::Wires(wire, first, second),
        Refusal::UnknownSite(cell) => Arguments::Word(cell),
        Refusal::ShapeDiffers(cell) => Arguments::Word(cell),
        Refusal::Unmodelled(cell, setting, value) => Arguments::ThreeWords(cell, setting, value),
        Refusal::UnnamedPad(tile, kind) => Arguments::Words(tile, kind),
        Refusal::UnnamedSource(pin, wire) => Arguments::PinWire(pin, wire),
        Refusal::Loop(part) => Arguments::Part(part),
        Refusal::OpenPin(pin) => Arguments::Pin(pin),
        Refusal::ClockAsData(pin) => Arguments::Pin(pin),
        Refusal::NotClocked(part) => Arguments::Part(part),
        Refusal::ForeignRead(pin) => Arguments::Pin(pin),
        Refusal::NotMasking(part, address) => Arguments::PartNumber(part, address),
        Refusal::CopiesDiffer(part, what) => Arguments::PartWord(part, what),
        Refusal::NoOutputs => Arguments::None,
    }
}
