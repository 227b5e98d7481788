//! Rows that grow and shrink at their ends.

ghost use Rattle.std.specs.Prelude.{◌≡◌, ◌<◌, ◌^◌, Some, [], sum, map, length, get_or, slice_get, IfOk};
ghost use Rattle.open_rows.specs.Rows.{HasRoom, popped, pushed};

use crate::spans::{Span, part, pop_from, push_into, spans_for, total};
use rr_ids::Id;
use std::alloc::{AllocError, Global};
use std::marker::{Model, PhantomData};

/// Rows under numbers of one kind, in one flat array with room for each from the start. Contracts see the list of the
/// rows, and how many items each of them may have.
#[derive(Drop)]
pub struct OpenRows<K: Id, V> {
    spans: Vec<Span>,
    items: Vec<V>,
    kind: PhantomData<K>,
}

impl<K: Id, V> Model for OpenRows<K, V> {
    ghost use Rattle.std.specs.Prelude.{length};
    ghost use Rattle.open_rows.specs.Rows.{Rows, rows_code};
    ghost use Rattle.open_rows.specs.Spans.{AreOpen, parts_of, room_of};

    ghost Value = { Rows V };

    ghost coded = { rows_code V.code };

    ghost view = { λ r. record { rows = parts_of r.items.items r.spans.items; room = room_of r.spans.items (length r.items.items) } };

    ghost invariant = { λ r. AreOpen r.spans.items (length r.items.items) };
}

impl<K: Id, V: Copy> OpenRows<K, V> {
    /// Rows with no item, each with its room; `filler` is never read. Takes time in proportion to the rows and the room.
    pub fn new(alloc: Global, room: &[u32], filler: V) -> Result<OpenRows<K, V>, AllocError>
        requires few { sum room.now < 2 ^ 32 }
        ensures rows { IfOk result (λ r. r.rows ≡ map (λ _. []) room.now) }
        ensures room { IfOk result (λ r. r.room ≡ room.now) }
    {
        let spans = spans_for(alloc, room)?;
        let items = vec![in alloc; filler; total(room) as usize]?;
        Ok(OpenRows {
            spans,
            items,
            kind: PhantomData,
        })
    }

    /// Puts an item at the end of a row that has room; takes no memory.
    pub fn push(&mut self, key: K, item: V)
        requires room { HasRoom self.old (K.number key) }
        ensures rows { self.new.rows ≡ pushed self.old.rows (K.number key) item }
        ensures room { self.new.room ≡ self.old.room }
    {
        push_into(
            &mut self.spans,
            &mut self.items,
            key.to_u32() as usize,
            item,
        );
    }

    /// Takes the last item off a row; takes no memory.
    pub fn pop(&mut self, key: K)
        requires filled { 0 < length (get_or self.old.rows (K.number key) []) }
        ensures rows { self.new.rows ≡ popped self.old.rows (K.number key) }
        ensures room { self.new.room ≡ self.old.room }
    {
        pop_from(&mut self.spans, key.to_u32() as usize);
    }
}

impl<K: Id, V> OpenRows<K, V> {
    /// How many rows there are.
    pub fn len(&self) -> usize
        ensures rows { result ≡ length self.now.rows }
        ensures room { result ≡ length self.now.room }
    {
        self.spans.as_slice().len()
    }

    /// The row of a number.
    pub fn row(&self, key: K) -> &[V]
        requires known { K.number key < length self.now.rows }
        ensures { Some result.now ≡ slice_get self.now.rows (K.number key) }
    {
        part(&self.items, self.spans[key.to_u32() as usize])
    }
}
