//! Which numbers stand in a list.

ghost use Rattle.std.specs.Prelude.{◌≡◌, ◌<◌, ◌↔◌, ◌==◌, ◌||◌, ℕ, IfOk, false, get_or, true, vec_len};
ghost use Rattle.words.specs.Members.{In};

use rr_ids::{ArcId, Id};
use std::alloc::{AllocError, Global};

// Marks an arc.
fn mark(marks: &mut Vec<bool>, a: ArcId)
    ensures long { vec_len marks.new ≡ vec_len marks.old }
    ensures marks { (k : ℕ) → k < vec_len marks.old
        → get_or marks.new.items k false ≡ (get_or marks.old.items k false || (a == k)) }
{
    let place = a.to_u32() as usize;
    if place < marks.len() {
        marks[place] = true;
    }
}

/// Of each arc whose number is below a count whether it stands in a list. Takes time in proportion to the count and the list.
pub fn marks_of(alloc: Global, count: u32, arcs: &[ArcId]) -> Result<Vec<bool>, AllocError>
    ensures long { IfOk result (λ v. vec_len v ≡ count) }
    ensures marks { IfOk result (λ v. (k : ℕ) → k < count → (get_or v.items k false ≡ true) ↔ In arcs.now k) }
{
    let mut marks = vec![in alloc; false; count as usize]?;
    for a in arcs {
        mark(&mut marks, *a);
    }
    Ok(marks)
}
