//! Where rows stand in a flat array.

ghost use Rattle.std.specs.Prelude.{◌≡◌, ◌+◌, ◌-◌, ◌<◌, ◌≤◌, ◌^◌, sum, length, get_or, slice_set, take, drop, IfOk};
ghost use Rattle.open_rows.specs.Spans.{AreSpans, IsSpanAt, longer, shorter, spans_from};

use std::alloc::{AllocError, Global};

/// Where a row begins, and how many items it has.
#[derive(Clone, Copy)]
pub struct Span {
    pub start: u32,
    pub len: u32,
}

/// Spans of rows with no item, which have this room.
#[tactic(auto, using(crate::proofs::Parts::sum_left, crate::proofs::Parts::spans_left, crate::proofs::Parts::spans_all))]
pub(crate) fn spans_for(alloc: Global, room: &[u32]) -> Result<Vec<Span>, AllocError>
    requires few { sum room.now < 2 ^ 32 }
    ensures { IfOk result (λ v. v.items ≡ spans_from 0 room.now) }
{
    let mut spans = Vec::new(alloc);
    let mut start = 0;
    for count in room {
        spans.push(Span { start, len: 0 })?;
        start += *count;
    }
    Ok(spans)
}

/// The room of all rows.
pub(crate) fn total(room: &[u32]) -> u32
    requires few { sum room.now < 2 ^ 32 }
    ensures { result ≡ sum room.now }
{
    room.iter().sum()
}

/// The items of a span.
pub(crate) fn part<V>(items: &[V], span: Span) -> &[V]
    requires within { span.start + span.len ≤ length items.now }
    ensures { result.now ≡ take span.len (drop span.start items.now) }
{
    let start = span.start as usize;
    &items[start..start + span.len as usize]
}

/// Puts an item behind the last one of a row.
pub(crate) fn push_into<V: Copy>(spans: &mut [Span], items: &mut [V], place: usize, item: V)
    requires known { place < length spans.old }
    requires few { length items.old < 2 ^ 32 }
    requires room { (s : Span) → IsSpanAt spans.old place s → s.start + s.len < length items.old }
    ensures spans { (s : Span) → IsSpanAt spans.old place s → spans.new ≡ slice_set spans.old place (longer s) }
    ensures items { (s : Span) → IsSpanAt spans.old place s → items.new ≡ slice_set items.old (s.start + s.len) item }
{
    let span = spans[place];
    items[span.start as usize + span.len as usize] = item;
    spans[place] = Span {
        start: span.start,
        len: span.len + 1,
    };
}

/// Takes the last item off a row.
pub(crate) fn pop_from(spans: &mut [Span], place: usize)
    requires known { place < length spans.old }
    requires filled { (s : Span) → IsSpanAt spans.old place s → 0 < s.len }
    ensures { (s : Span) → IsSpanAt spans.old place s → spans.new ≡ slice_set spans.old place (shorter s) }
{
    let span = spans[place];
    spans[place] = Span {
        start: span.start,
        len: span.len - 1,
    };
}
