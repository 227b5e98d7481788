//! The fixed connections of a reading.

ghost use Rattle.std.specs.Prelude.{◌≡◌, [], true, OnOk};
ghost use Rattle.texts.specs.Names.{is_name};
ghost use Rattle.grammars.specs.RowByRow.{with_connection};
ghost use Rattle.bits_db.specs.Readings.{KnowsItsEnds};

use super::Fixed;
use rr_ids::{List, Name};
use std::alloc::{AllocError, Global};
use std::collections::BTreeSet;

/// The sink and the source of a connection, lent from the source.
type Ends<'a> = (&'a [u8], &'a [u8]);

/// The fixed connections that were read so far, each once. Contracts see the fields, as of muxes.
#[derive(Drop)]
pub(crate) struct Connections<'a> {
    alloc: Global,
    connections: List<Fixed>,
    ends: BTreeSet<Ends<'a>>,
}

impl<'a> Connections<'a> {
    /// No connection was read yet.
    pub(crate) fn new(alloc: Global) -> Connections<'a>
        ensures none { result.connections ≡ [] }
        ensures known { KnowsItsEnds result }
    {
        Connections {
            alloc,
            connections: List::new(alloc),
            ends: BTreeSet::new(alloc),
        }
    }

    /// The connections that were read.
    pub(crate) fn into_list(self) -> List<Fixed>
        ensures { result ≡ self.entry.connections }
    {
        let Connections { connections, .. } = self;
        connections
    }

    /// Adds a connection, unless it is there.
    pub(crate) fn add(&mut self, sink: &'a [u8], source: &'a [u8]) -> Result<(), AllocError>
        requires sink { is_name sink.now ≡ true }
        requires source { is_name source.now ≡ true }
        requires known { KnowsItsEnds self.old }
        ensures connections { OnOk result (self.new.connections ≡ with_connection self.old.connections (record { sink = sink.now; source = source.now })) }
        ensures known { OnOk result (KnowsItsEnds self.new) }
    {
        if !self.ends.insert((sink, source))? {
            return Ok(());
        }
        let sink = Name::of_bytes(self.alloc, sink)?;
        let source = Name::of_bytes(self.alloc, source)?;
        self.connections.push(Fixed { sink, source })?;
        Ok(())
    }
}
