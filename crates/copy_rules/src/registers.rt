//! Whether two registers differ in a field.

ghost use Rattle.std.specs.Prelude.{◌≡◌, ◌↔◌, ◌<◌, IsTrue, MatchOption, length, slice_get};
ghost use Rattle.std.specs.Option.{option_copied};
ghost use Rattle.circuit.specs.Cells.{RegisterCell as RegisterRecord};
ghost use Rattle.circuit.specs.Circuits.{Circuit};
ghost use Rattle.circuit.specs.Parts.{OfRegister, sources as sources_of};
ghost use Rattle.table_masks.specs.Least.{ShowsFeeds};
ghost use Rattle.copy_rules.specs.Fields.{field_of};
ghost use Rattle.copy_rules.specs.Copies.{AlikeTold, DiffersAt, IsRegisterAt, NoRegisterAt};

use crate::Field;
use crate::inputs::takes_alike;
use crate::pair::Pair;
use cell_parts::{Kind, RegisterCell, Source};
use circuit_parts::{Parts, SourceId};
use part_triples::PartTriples;
use rr_ids::Id;

// Whether two bits are equal.
fn same_bit(a: bool, b: bool) -> bool
    ensures { IsTrue result ↔ (a ≡ b) }
{
    a == b
}

// Whether two registers are alike in a field.
fn alike_in(
    parts: &Parts<'_>,
    feeds: &[Option<SourceId>],
    triples: &PartTriples,
    pair: &Pair,
    q: &RegisterCell,
    r: &RegisterCell,
    field: Field,
) -> bool
    requires first { pair.now.first < length (sources_of parts.now) }
    requires second { pair.now.second < length (sources_of parts.now) }
    ensures { (c : Circuit) → ShowsFeeds c parts.now feeds.now triples.now → AlikeTold c pair.now.first pair.now.second q.now r.now (field_of field) result }
{
    match field {
        Field::Set => same_bit(q.set, r.set),
        Field::Data => takes_alike(parts, feeds, triples, pair, 0, q.input, r.input),
        Field::Enable => takes_alike(parts, feeds, triples, pair, 1, q.enable, r.enable),
        Field::Reset => takes_alike(parts, feeds, triples, pair, 2, q.reset, r.reset),
        Field::Clock => takes_alike(parts, feeds, triples, pair, 3, q.clock, r.clock),
    }
}

// The register that a part is.
fn register_of<'a>(source: &Source<'a>) -> Option<&'a RegisterCell>
    ensures { MatchOption result ((r : RegisterRecord) → source.now.kind ≡ OfRegister r → ⊥) (λ r. source.now.kind ≡ OfRegister r.now) }
{
    match source.kind {
        Kind::Register(register) => Some(register),
        Kind::Table(_) | Kind::Input | Kind::Clock => None,
    }
}

// The part with a number.
fn source_at<'s, 'a>(sources: &'s [Source<'a>], k: SourceId) -> Option<&'s Source<'a>>
    ensures { option_copied result ≡ slice_get sources.now k }
{
    sources.get(k.to_u32() as usize)
}

// The register that the part with a number is.
fn register_at<'a>(sources: &[Source<'a>], k: SourceId) -> Option<&'a RegisterCell>
    ensures { MatchOption result (NoRegisterAt sources.now k) (λ r. IsRegisterAt sources.now k r.now) }
{
    match source_at(sources, k) {
        None => None,
        Some(source) => register_of(source),
    }
}

/// Whether the two parts are registers that differ in a field.
pub(crate) fn differs_at(
    parts: &Parts<'_>,
    feeds: &[Option<SourceId>],
    triples: &PartTriples,
    pair: &Pair,
    field: Field,
) -> bool
    ensures { (c : Circuit) → ShowsFeeds c parts.now feeds.now triples.now → IsTrue result ↔ DiffersAt c (field_of field) pair.now.first pair.now.second }
{
    match register_at(parts.sources(), pair.first) {
        None => false,
        Some(q) => match register_at(parts.sources(), pair.second) {
            None => false,
            Some(r) => !alike_in(parts, feeds, triples, pair, q, r, field),
        },
    }
}
