//! Rows that don't change are opened, so that they may grow.

ghost use Rattle.std.specs.Prelude.{◌≡◌, ℕ, ◌+◌, ◌<◌, ◌≤◌, ◌^◌, ◌++◌, [], sum, replicate, length, get_or, slice_set, IfOk};
ghost use Rattle.live_links.specs.Opened.{rooms_of};

use grouped::Grouped;
use open_rows::OpenRows;
use rr_ids::{Id, WireId};
use std::alloc::{AllocError, Global};

// The room of each row: that of its items, and so much more. Want of memory also where there are more than 4,294,967,295 in
// all.
fn rooms(
    alloc: Global,
    rows: &Grouped<WireId, WireId>,
    more: &[u32],
) -> Result<Vec<u32>, AllocError>
    requires same { length more.now ≡ length rows.now }
    requires few { length rows.now < 2 ^ 32 }
    ensures rooms { IfOk result (λ v. v.items ≡ rooms_of rows.now more.now) }
    ensures fit { IfOk result (λ v. sum v.items < 2 ^ 32) }
{
    let mut rooms = Vec::new(alloc);
    let mut total = 0;
    for number in 0..rows.len() as u32 {
        let room = rows.row(WireId::from_u32(number)).len() + more[number as usize] as usize;
        if room > u32::MAX as usize - total {
            return Err(AllocError);
        }
        rooms.push(room as u32)?;
        total += room;
    }
    Ok(rooms)
}

// Puts all items of a row at the end of another one.
fn fill_row(opened: &mut OpenRows<WireId, WireId>, w: WireId, row: &[WireId])
    requires known { w < length opened.old.rows }
    requires room { length (get_or opened.old.rows w []) + length row.now ≤ get_or opened.old.room w 0 }
    ensures rows { opened.new.rows ≡ slice_set opened.old.rows w (get_or opened.old.rows w [] ++ row.now) }
    ensures room { opened.new.room ≡ opened.old.room }
{
    for x in row {
        opened.push(w, *x);
    }
}

// Puts all items of rows into rows that are empty.
fn fill(rows: &Grouped<WireId, WireId>, opened: &mut OpenRows<WireId, WireId>)
    requires few { length rows.now < 2 ^ 32 }
    requires same { length opened.old.rows ≡ length rows.now }
    requires empty { (k : ℕ) → get_or opened.old.rows k [] ≡ [] }
    requires room { (k : ℕ) → length (get_or rows.now k []) ≤ get_or opened.old.room k 0 }
    ensures rows { opened.new.rows ≡ rows.now }
    ensures room { opened.new.room ≡ opened.old.room }
{
    for number in 0..rows.len() as u32 {
        let w = WireId::from_u32(number);
        fill_row(opened, w, rows.row(w));
    }
}

/// The same rows, each with room for so many items more. Want of memory also where there is room for more than
/// 4,294,967,295 items in all.
pub(crate) fn opened(
    alloc: Global,
    rows: &Grouped<WireId, WireId>,
    more: &[u32],
) -> Result<OpenRows<WireId, WireId>, AllocError>
    requires same { length more.now ≡ length rows.now }
    requires few { length rows.now < 2 ^ 32 }
    ensures rows { IfOk result (λ o. o.rows ≡ rows.now) }
    ensures room { IfOk result (λ o. o.room ≡ rooms_of rows.now more.now) }
{
    let rooms = rooms(alloc, rows, more)?;
    let mut opened = OpenRows::new(alloc, &rooms, WireId::from_u32(0))?;
    fill(rows, &mut opened);
    Ok(opened)
}

/// So many ones.
pub(crate) fn ones(alloc: Global, count: u32) -> Result<Vec<u32>, AllocError>
    ensures { IfOk result (λ v. v.items ≡ replicate count 1) }
{
    vec![in alloc; 1u32; count as usize]
}
