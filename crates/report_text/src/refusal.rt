//! What is refused, each kind with its arguments, and how it is printed.

ghost use Rattle.std.specs.Prelude.{◌≡◌};
ghost use Rattle.answers.specs.Refusals.{refusal_name, refusal_number};
ghost use Rattle.report_text.specs.Refused.{refusal_view};

use crate::named::{PartName, PinName, Wire};
use rr_ids::Limit;

/// The first check that fails, with its arguments: names and files by their bytes, numbers of lines from 1. The arguments
/// are lent.
#[derive(Clone, Copy)]
pub enum Refusal<'a> {
    /// The file isn't there.
    Missing(&'a [u8]),
    /// The file is longer than its limit.
    TooLong(&'a [u8]),
    /// The file's first line outside the grammar, from 1.
    BadLine(&'a [u8], u32),
    /// A line of a block that isn't modelled.
    OutsideBlock(&'a [u8], u32),
    /// The file has no `.device` line.
    NoDevice(&'a [u8]),
    /// A limit that is passed; for the graph the file is `graph`.
    TooLarge(&'a [u8], Limit),
    /// The file has no JSON reading.
    NotJson(&'a [u8]),
    /// JSON of another form, at a member, an element or a tile.
    BadShape(&'a [u8], &'a [u8]),
    /// A second use in the side file.
    DuplicateName(&'a [u8]),
    /// A triple or voter names what isn't listed as such.
    UnknownName(&'a [u8]),
    /// A slice or pad in no triple.
    Unpaired(&'a [u8]),
    /// An entry of a triple that isn't in its domain.
    WrongDomain(&'a [u8]),
    /// The output of two tables, registers or pads.
    OverlapShape(Wire<'a>),
    /// A line whose tile isn't in the grid.
    UnknownTile(u32),
    /// A line with an arc in a tile without a place.
    NoPlace(u32),
    /// A line that names no mux.
    UnknownSink(u32),
    /// A line that names no arc.
    UnknownSource(u32),
    /// A line that names no word or enum.
    UnknownSetting(u32),
    /// A line that names no option.
    UnknownValue(u32),
    /// A line with another number of bits than the word has.
    WordLength(u32),
    /// A line with a raw bit past the tile.
    OutsideTile(u32),
    /// A tile and a sink at which chosen arcs and arc lines don't agree.
    ArcDiffers(&'a [u8], &'a [u8]),
    /// A wire with two drivers that count, and these.
    Contested(Wire<'a>, Wire<'a>, Wire<'a>),
    /// A cell whose tile or kind isn't there, or whose tile has no place.
    UnknownSite(&'a [u8]),
    /// The first name of a triple of slices of unequal shape.
    ShapeDiffers(&'a [u8]),
    /// A value of a setting without a case; a missing value is `?`.
    Unmodelled(&'a [u8], &'a [u8], &'a [u8]),
    /// An unnamed pad that drives the outside.
    UnnamedPad(&'a [u8], &'a [u8]),
    /// A pin whose feed isn't a modelled output.
    UnnamedSource(PinName<'a>, Wire<'a>),
    /// A table on a cycle of tables.
    Loop(PartName<'a>),
    /// A pin without a feed that isn't ignored.
    OpenPin(PinName<'a>),
    /// A pin that a clock pad feeds and that is no clock pin.
    ClockAsData(PinName<'a>),
    /// A register whose clock pin no clock pad feeds.
    NotClocked(PartName<'a>),
    /// A pin that is fed from another domain and is no voter's.
    ForeignRead(PinName<'a>),
    /// A table whose output another domain changes, with the address so reached.
    NotMasking(PartName<'a>, u32),
    /// Copies that aren't alike, and where.
    CopiesDiffer(PartName<'a>, &'a [u8]),
    /// There is no output triple.
    NoOutputs,
}

impl<'a> Refusal<'a> {
    /// The number of the check.
    pub fn number(self) -> u32
        ensures { result ≡ refusal_number (refusal_view self.entry) }
    {
        match self {
            Refusal::Missing(_) => 1,
            Refusal::TooLong(_) => 2,
            Refusal::BadLine(_, _) => 3,
            Refusal::OutsideBlock(_, _) => 4,
            Refusal::NoDevice(_) => 5,
            Refusal::TooLarge(_, _) => 6,
            Refusal::NotJson(_) => 7,
            Refusal::BadShape(_, _) => 8,
            Refusal::DuplicateName(_) => 9,
            Refusal::UnknownName(_) => 10,
            Refusal::Unpaired(_) => 11,
            Refusal::WrongDomain(_) => 12,
            Refusal::OverlapShape(_) => 13,
            Refusal::UnknownTile(_) => 14,
            Refusal::NoPlace(_) => 15,
            Refusal::UnknownSink(_) => 16,
            Refusal::UnknownSource(_) => 17,
            Refusal::UnknownSetting(_) => 18,
            Refusal::UnknownValue(_) => 19,
            Refusal::WordLength(_) => 20,
            Refusal::OutsideTile(_) => 21,
            Refusal::ArcDiffers(_, _) => 22,
            Refusal::Contested(_, _, _) => 23,
            Refusal::UnknownSite(_) => 24,
            Refusal::ShapeDiffers(_) => 25,
            Refusal::Unmodelled(_, _, _) => 26,
            Refusal::UnnamedPad(_, _) => 27,
            Refusal::UnnamedSource(_, _) => 28,
            Refusal::Loop(_) => 29,
            Refusal::OpenPin(_) => 30,
            Refusal::ClockAsData(_) => 31,
            Refusal::NotClocked(_) => 32,
            Refusal::ForeignRead(_) => 33,
            Refusal::NotMasking(_, _) => 34,
            Refusal::CopiesDiffer(_, _) => 35,
            Refusal::NoOutputs => 36,
        }
    }

    /// The name of the check.
    pub fn name(self) -> &'static str
        ensures { result.now ≡ refusal_name (refusal_view self.entry) }
    {
        match self {
            Refusal::Missing(_) => "Missing",
            Refusal::TooLong(_) => "TooLong",
            Refusal::BadLine(_, _) => "BadLine",
            Refusal::OutsideBlock(_, _) => "OutsideBlock",
            Refusal::NoDevice(_) => "NoDevice",
            Refusal::TooLarge(_, _) => "TooLarge",
            Refusal::NotJson(_) => "NotJson",
            Refusal::BadShape(_, _) => "BadShape",
            Refusal::DuplicateName(_) => "DuplicateName",
            Refusal::UnknownName(_) => "UnknownName",
            Refusal::Unpaired(_) => "Unpaired",
            Refusal::WrongDomain(_) => "WrongDomain",
            Refusal::OverlapShape(_) => "OverlapShape",
            Refusal::UnknownTile(_) => "UnknownTile",
            Refusal::NoPlace(_) => "NoPlace",
            Refusal::UnknownSink(_) => "UnknownSink",
            Refusal::UnknownSource(_) => "UnknownSource",
            Refusal::UnknownSetting(_) => "UnknownSetting",
            Refusal::UnknownValue(_) => "UnknownValue",
            Refusal::WordLength(_) => "WordLength",
            Refusal::OutsideTile(_) => "OutsideTile",
            Refusal::ArcDiffers(_, _) => "ArcDiffers",
            Refusal::Contested(_, _, _) => "Contested",
            Refusal::UnknownSite(_) => "UnknownSite",
            Refusal::ShapeDiffers(_) => "ShapeDiffers",
            Refusal::Unmodelled(_, _, _) => "Unmodelled",
            Refusal::UnnamedPad(_, _) => "UnnamedPad",
            Refusal::UnnamedSource(_, _) => "UnnamedSource",
            Refusal::Loop(_) => "Loop",
            Refusal::OpenPin(_) => "OpenPin",
            Refusal::ClockAsData(_) => "ClockAsData",
            Refusal::NotClocked(_) => "NotClocked",
            Refusal::ForeignRead(_) => "ForeignRead",
            Refusal::NotMasking(_, _) => "NotMasking",
            Refusal::CopiesDiffer(_, _) => "CopiesDiffer",
            Refusal::NoOutputs => "NoOutputs",
        }
    }
}
