//! The first field in which copies of a register differ.

ghost use Rattle.std.specs.Prelude.{◌≡◌, ◌↔◌, ℕ, ◌<◌, IsTrue, get_or, length};
ghost use Rattle.circuit.specs.Circuits.{Circuit};
ghost use Rattle.records.specs.Side.{Triple};
ghost use Rattle.table_masks.specs.Least.{ShowsFeeds};
ghost use Rattle.copy_rules.specs.Fields.{field_of};
ghost use Rattle.copy_rules.specs.Copies.{AreReadCopies, DiffersFrom, SomeDiffer, TellsField};

use crate::Field;
use crate::pair::Pair;
use crate::registers::differs_at;
use circuit_parts::{Parts, SourceId};
use part_triples::PartTriples;

// One of the copies.
fn copy_at(copies: &[SourceId], place: usize) -> SourceId
    requires { place < length copies.now }
    ensures { result ≡ get_or copies.now place 0 }
{
    copies[place]
}

// Whether one of the copies differs in a field from a part.
fn differs_from(
    parts: &Parts<'_>,
    feeds: &[Option<SourceId>],
    triples: &PartTriples,
    copies: &[SourceId],
    first: SourceId,
    field: Field,
) -> bool
    ensures { (c : Circuit) → ShowsFeeds c parts.now feeds.now triples.now → IsTrue result ↔ DiffersFrom c (field_of field) copies.now first }
{
    for i in 0..copies.len() {
        let pair = Pair {
            first,
            second: copy_at(copies, i),
        };
        if differs_at(parts, feeds, triples, &pair, field) {
            return true;
        }
    }
    false
}

// Whether two of the copies differ in a field.
fn some_differ(
    parts: &Parts<'_>,
    feeds: &[Option<SourceId>],
    triples: &PartTriples,
    copies: &[SourceId],
    field: Field,
) -> bool
    ensures { (c : Circuit) → ShowsFeeds c parts.now feeds.now triples.now → IsTrue result ↔ SomeDiffer c (field_of field) copies.now }
{
    for i in 0..copies.len() {
        if differs_from(parts, feeds, triples, copies, copy_at(copies, i), field) {
            return true;
        }
    }
    false
}

/// The first field in which two of the read copies of a register differ; `None` exactly where they differ in none.
pub fn first_field(
    parts: &Parts<'_>,
    feeds: &[Option<SourceId>],
    triples: &PartTriples,
    copies: &[SourceId],
) -> Option<Field>
    ensures { (c : Circuit) → ShowsFeeds c parts.now feeds.now triples.now → (t : Triple) (number : ℕ) → AreReadCopies c t number copies.now → TellsField c t number result }
{
    if some_differ(parts, feeds, triples, copies, Field::Set) {
        return Some(Field::Set);
    }
    if some_differ(parts, feeds, triples, copies, Field::Data) {
        return Some(Field::Data);
    }
    if some_differ(parts, feeds, triples, copies, Field::Enable) {
        return Some(Field::Enable);
    }
    if some_differ(parts, feeds, triples, copies, Field::Reset) {
        return Some(Field::Reset);
    }
    if some_differ(parts, feeds, triples, copies, Field::Clock) {
        return Some(Field::Clock);
    }
    None
}
