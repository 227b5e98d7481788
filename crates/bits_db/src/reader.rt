//! The reader, row by row.

ghost use Rattle.std.specs.Prelude.{◌≡◌, ◌∷◌, map, true, OnOk, Some as Present};
ghost use Rattle.words.specs.OrMemory.{OrMemory};
ghost use Rattle.words.specs.Firsts.{unless_fault};
ghost use Rattle.grammars.specs.BitsDb as db;
ghost use Rattle.grammars.specs.RowByRow.{nothing_read, with_head as db_with_head, with_row as db_with_row, row_step, line_step};
ghost use Rattle.bits_db.specs.Faults.{fault_of};
ghost use Rattle.bits_db.specs.Heads.{head_view, AreNames};
ghost use Rattle.bits_db.specs.Readings.{reading_view, IsInStep};
ghost use Rattle.text_cut.specs.Lent.{line_view};

use super::connections::Connections;
use super::enums::Enums;
use super::head::{Head, head_of};
use super::muxes::Muxes;
use super::settings::WordSettings;
use super::{DbError, TileDb};
use std::alloc::Global;
use text_cut::{Line, Words};

/// What the rows of a section are.
#[derive(Clone, Copy)]
pub(crate) enum Kind {
    /// Arcs of a mux.
    Mux,
    /// Bits of a word.
    Word,
    /// Options of an enum.
    Enum,
    /// None, behind a fixed connection.
    Fixed,
}

/// What was read so far, and the kind of the last section. Behind an error nothing more is read.
#[derive(Drop)]
pub(crate) struct Reader<'a> {
    kind: Option<Kind>,
    muxes: Muxes<'a>,
    words: WordSettings<'a>,
    enums: Enums<'a>,
    connections: Connections<'a>,
}

impl<'a> Reader<'a> {
    /// Nothing was read yet.
    pub(crate) fn new(alloc: Global) -> Reader<'a>
        ensures nothing { reading_view result ≡ nothing_read }
        ensures known { IsInStep result }
    {
        Reader {
            kind: None,
            muxes: Muxes::new(alloc),
            words: WordSettings::new(alloc),
            enums: Enums::new(alloc),
            connections: Connections::new(alloc),
        }
    }

    /// The database that was read.
    pub(crate) fn into_database(self) -> TileDb
        ensures { result ≡ (reading_view self.entry).db }
    {
        let Reader {
            muxes,
            words,
            enums,
            connections,
            ..
        } = self;
        TileDb {
            muxes: muxes.into_list(),
            words: words.into_list(),
            enums: enums.into_list(),
            fixed: connections.into_list(),
        }
    }

    // Reads a head.
    fn add_head(&mut self, number: u32, head: Head<'a>) -> Result<(), DbError>
        requires names { AreNames head }
        requires known { IsInStep self.old }
        ensures step { let before = (reading_view self.old).db in
            OrMemory (λ _. reading_view self.new) fault_of result (unless_fault (db.head_fault number before (head_view head.entry))
            (record { open_kind = Present (db.kind_of (head_view head.entry)); db = db_with_head before (head_view head.entry) })) }
        ensures known { OnOk result (IsInStep self.new) }
    {
        match head {
            Head::Mux(sink) => {
                self.kind = Some(Kind::Mux);
                self.muxes.add_sink(number, sink)
            }
            Head::Word(name) => {
                self.kind = Some(Kind::Word);
                self.words.add_name(number, name)
            }
            Head::Enum(name, default) => {
                self.kind = Some(Kind::Enum);
                self.enums.add_name(number, name, default)
            }
            Head::Fixed(sink, source) => {
                self.kind = Some(Kind::Fixed);
                self.connections.add(sink, source)?;
                Ok(())
            }
        }
    }

    // Reads a row of the last section.
    fn add_row(&mut self, number: u32, first: &'a [u8], rest: Words<'a>) -> Result<(), DbError>
        requires { IsInStep self.old }
        ensures step { let row = first.now ∷ map (λ w. w.text) rest.entry in let before = reading_view self.old in
            OrMemory (λ _. reading_view self.new) fault_of result (unless_fault (db.row_fault number before.open_kind before.db row)
            (record { open_kind = before.open_kind; db = db_with_row before.open_kind before.db row })) }
        ensures known { OnOk result (IsInStep self.new) }
    {
        match self.kind {
            Some(Kind::Mux) => self.muxes.add_row(number, first, rest),
            Some(Kind::Word) => self.words.add_row(number, first, rest),
            Some(Kind::Enum) => self.enums.add_row(number, first, rest),
            Some(Kind::Fixed) | None => Err(DbError::BadLine(number)),
        }
    }

    // Reads a row that begins with a dot.
    fn add_dot(&mut self, number: u32, first: &'a [u8], rest: Words<'a>) -> Result<(), DbError>
        requires dot { db.begins_with_dot (first.now ∷ map (λ w. w.text) rest) ≡ true }
        requires known { IsInStep self.old }
        ensures step { let row = first.now ∷ map (λ w. w.text) rest.entry in
            OrMemory (λ _. reading_view self.new) fault_of result (row_step (reading_view self.old) (record { number = number; words = row })) }
        ensures known { OnOk result (IsInStep self.new) }
    {
        match head_of(first, rest) {
            Some(head) => self.add_head(number, head),
            None => Err(DbError::BadLine(number)),
        }
    }

    /// Reads a line.
    pub(crate) fn add_line(&mut self, line: &Line<'a>) -> Result<(), DbError>
        requires { IsInStep self.old }
        ensures step { OrMemory (λ _. reading_view self.new) fault_of result (line_step (reading_view self.old) (line_view line.now)) }
        ensures known { OnOk result (IsInStep self.new) }
    {
        let mut words = line.before_hash().words();
        let Some(first) = words.next() else {
            return Ok(());
        };
        if first.text.first() == Some(&b'.') {
            return self.add_dot(line.number, first.text, words);
        }
        self.add_row(line.number, first.text, words)
    }
}
