//! Whether two registers take the same at a pin.

ghost use Rattle.std.specs.Prelude.{◌≡◌, ◌<◌, length};
ghost use Rattle.cell_parts.specs.CellViews.{input_of};
ghost use Rattle.circuit.specs.Circuits.{Circuit};
ghost use Rattle.circuit.specs.Parts.{sources as sources_of};
ghost use Rattle.table_masks.specs.Least.{ShowsFeeds};
ghost use Rattle.copy_rules.specs.Inputs.{FedAlikeAt, TakenAlike, form_in};

use crate::feeds::{feed_of, same_feed};
use crate::pair::Pair;
use cell_parts::Input;
use circuit_parts::{Parts, SourceId};
use part_triples::PartTriples;

// What two registers take at a pin of one number.
#[derive(Clone, Copy)]
pub(crate) enum Form {
    // not the same
    Apart,
    // the same constant
    Constant,
    // both a wire, or both the opposite of one
    Wires,
}

// Whether two registers take a wire, the opposite of one, or the same constant.
fn form_of(a: Input, b: Input) -> Form
    ensures { result ≡ form_in (input_of a) (input_of b) }
{
    match (a, b) {
        (Input::Wire(_), Input::Wire(_)) => Form::Wires,
        (Input::NotWire(_), Input::NotWire(_)) => Form::Wires,
        (Input::Zero, Input::Zero) => Form::Constant,
        (Input::One, Input::One) => Form::Constant,
        _ => Form::Apart,
    }
}

// Whether parts of one triple feed the pins with a number of two parts.
fn fed_alike_at(
    parts: &Parts<'_>,
    feeds: &[Option<SourceId>],
    triples: &PartTriples,
    pair: &Pair,
    number: u32,
) -> bool
    requires first { pair.now.first < length (sources_of parts.now) }
    requires second { pair.now.second < length (sources_of parts.now) }
    ensures { (c : Circuit) → ShowsFeeds c parts.now feeds.now triples.now → FedAlikeAt c pair.now.first pair.now.second number result }
{
    let first = feed_of(parts, feeds, pair.first, number);
    let second = feed_of(parts, feeds, pair.second, number);
    same_feed(parts, triples, first, second)
}

/// Whether two registers take the same form at the pin with a number, fed by parts of one triple where it is a wire.
pub(crate) fn takes_alike(
    parts: &Parts<'_>,
    feeds: &[Option<SourceId>],
    triples: &PartTriples,
    pair: &Pair,
    number: u32,
    a: Input,
    b: Input,
) -> bool
    requires first { pair.now.first < length (sources_of parts.now) }
    requires second { pair.now.second < length (sources_of parts.now) }
    ensures { (c : Circuit) → ShowsFeeds c parts.now feeds.now triples.now → TakenAlike c pair.now.first pair.now.second number (input_of a) (input_of b) result }
{
    match form_of(a, b) {
        Form::Apart => false,
        Form::Constant => true,
        Form::Wires => fed_alike_at(parts, feeds, triples, pair, number),
    }
}
