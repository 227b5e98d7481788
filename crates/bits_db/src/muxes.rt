//! The muxes of a reading.

ghost use Rattle.std.specs.Prelude.{◌≡◌, ◌∷◌, ◌++◌, [], map, true, OnOk, Some as Present};
ghost use Rattle.words.specs.OrMemory.{OrMemory};
ghost use Rattle.words.specs.Firsts.{unless_fault};
ghost use Rattle.texts.specs.Names.{is_name};
ghost use Rattle.grammars.specs.BitsDb.{arc_of as arc_of_words, arc_fault, bad_line_if, has_sink, last_of};
ghost use Rattle.grammars.specs.RowByRow.{with_arc as with_one_arc};
ghost use Rattle.bits_db.specs.Faults.{fault_of};
ghost use Rattle.bits_db.specs.Readings.{KnowsItsMuxes};

use super::row::arc_of;
use super::{Arc, DbError, Mux};
use rr_ids::{Limit, List, Name};
use std::alloc::{AllocError, Global};
use text_cut::{KnownNames, Words};

/// The muxes that were read so far, of which the last may get more arcs. Contracts see the fields, since the
/// known names are in step with the list only until an error, behind which the muxes are not used.
#[derive(Drop)]
pub(crate) struct Muxes<'a> {
    alloc: Global,
    muxes: List<Mux>,
    sinks: KnownNames<'a>,
    sources: KnownNames<'a>,
}

// The arcs in just the room that they take.
fn fitted(arcs: List<Arc>) -> List<Arc>
    ensures { result ≡ arcs }
{
    let mut items = arcs.into_vec();
    items.shrink_to_fit();
    List::from_vec(items)
}

// Gives back the room that the last mux doesn't need.
fn fit_last(muxes: &mut List<Mux>) -> Result<(), AllocError>
    ensures { OnOk result (muxes.new ≡ muxes.old) }
{
    let Some(Mux { sink, arcs }) = muxes.pop() else {
        return Ok(());
    };
    let arcs = fitted(arcs);
    muxes.push(Mux { sink, arcs })
}

impl<'a> Muxes<'a> {
    /// No mux was read yet.
    pub(crate) fn new(alloc: Global) -> Muxes<'a>
        ensures none { result.muxes ≡ [] }
        ensures known { KnowsItsMuxes result }
    {
        Muxes {
            alloc,
            muxes: List::new(alloc),
            sinks: KnownNames::new(alloc),
            sources: KnownNames::new(alloc),
        }
    }

    /// The muxes that were read.
    pub(crate) fn into_list(self) -> List<Mux>
        ensures { result ≡ self.entry.muxes }
    {
        let Muxes { muxes, .. } = self;
        muxes
    }

    /// Adds a mux of another sink, which has no arcs yet.
    pub(crate) fn add_sink(&mut self, number: u32, sink: &'a [u8]) -> Result<(), DbError>
        requires name { is_name sink.now ≡ true }
        requires known { KnowsItsMuxes self.old }
        ensures muxes { OrMemory (λ _. self.new.muxes) fault_of result (unless_fault (bad_line_if number (has_sink self.old.muxes sink.now)) (self.old.muxes ++ record { sink = sink.now; arcs = [] } ∷ [])) }
        ensures known { OnOk result (KnowsItsMuxes self.new) }
    {
        if !self.sinks.insert(sink)? {
            return Err(DbError::BadLine(number));
        }
        fit_last(&mut self.muxes)?;
        let name = Name::of_bytes(self.alloc, sink)?;
        let arcs = List::new(self.alloc);
        self.muxes.push(Mux { sink: name, arcs })?;
        self.sources.clear();
        Ok(())
    }

    /// Adds a row of the last mux, SOURCE BITS.
    pub(crate) fn add_row(
        &mut self,
        number: u32,
        source: &'a [u8],
        bits: Words<'a>,
    ) -> Result<(), DbError>
        requires { KnowsItsMuxes self.old }
        ensures muxes { let arc = arc_of_words (source.now ∷ map (λ w. w.text) bits.entry) in
            OrMemory (λ _. self.new.muxes) fault_of result (unless_fault (arc_fault number arc (last_of self.old.muxes)) (with_one_arc self.old.muxes arc)) }
        ensures known { OnOk result (KnowsItsMuxes self.new) }
    {
        let Some(arc) = arc_of(self.alloc, source, bits)? else {
            return Err(DbError::BadLine(number));
        };
        self.add_arc(number, source, arc)
    }

    // Adds an arc to the last mux, where it has none of this source.
    fn add_arc(&mut self, number: u32, source: &'a [u8], arc: Arc) -> Result<(), DbError>
        requires source { arc.source ≡ source.now }
        requires known { KnowsItsMuxes self.old }
        ensures muxes { OrMemory (λ _. self.new.muxes) fault_of result (unless_fault (arc_fault number (Present arc) (last_of self.old.muxes)) (with_one_arc self.old.muxes (Present arc))) }
        ensures known { OnOk result (KnowsItsMuxes self.new) }
    {
        let Some(mut mux) = self.muxes.pop() else {
            return Err(DbError::BadLine(number));
        };
        if !self.sources.insert(source)? {
            return Err(DbError::BadLine(number));
        }
        if arc.bits.is_too_long() {
            return Err(DbError::TooLarge(Limit::Pattern));
        }
        mux.arcs.push(arc)?;
        self.muxes.push(mux)?;
        Ok(())
    }
}
