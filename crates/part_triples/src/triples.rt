//! The triple of each part with an output.

ghost use Rattle.std.specs.Prelude.{◌≡◌, ◌↔◌, IfOk, IsTrue, None, get_or};
ghost use Rattle.circuit.specs.Parts.{sources as sources_of};
ghost use Rattle.part_triples.specs.Numbers.{AreCopies, numbers_of};
ghost use Rattle.records.specs.Side.{Side as SideRecord};

use crate::CellTripleId;
use crate::alike::same_parts;
use crate::listed::listed;
use crate::part_numbers::{number_at, numbers};
use crate::places::places;
use circuit_parts::{Parts, SourceId};
use side_file::Side;
use std::alloc::{AllocError, Global};
use std::marker::Model;

/// For each part with an output the number of the triple in which its cell stands, where it stands in one. Contracts see the
/// list of the numbers.
#[derive(Drop)]
pub struct PartTriples {
    numbers: Vec<Option<CellTripleId>>,
}

impl Model for PartTriples {
    ghost use Rattle.std.specs.Prelude.{ℕ, List, Option as Maybe};

    ghost Value = { List (Maybe ℕ) };

    ghost view = { λ t. t.numbers.items };
}

impl PartTriples {
    /// The triples of the parts of cells; takes time n log n in parts and triples.
    #[tactic(auto, using(crate::proofs::Told::numbers_told))]
    pub fn new(alloc: Global, parts: &Parts<'_>, side: &Side) -> Result<PartTriples, AllocError>
        ensures { IfOk result (λ t. t ≡ numbers_of side.now (sources_of parts.now)) }
    {
        let all = listed(alloc, side)?;
        let places = places(alloc, &all)?;
        let numbers = numbers(alloc, &places, parts.sources())?;
        Ok(PartTriples { numbers })
    }

    /// The number of the triple in which the cell of a part stands; `None` where it stands in none.
    pub fn of(&self, k: SourceId) -> Option<CellTripleId>
        ensures { result ≡ get_or self.now k None }
    {
        number_at(&self.numbers, k)
    }

    /// Whether two parts are copies of each other, or one part: exactly where both are there and their triples are equal.
    pub fn same(&self, parts: &Parts<'_>, a: SourceId, b: SourceId) -> bool
        ensures { (side : SideRecord) → self.now ≡ numbers_of side (sources_of parts.now) → IsTrue result ↔ AreCopies side (sources_of parts.now) a b }
    {
        same_parts(parts.sources(), &self.numbers, a, b)
    }
}
