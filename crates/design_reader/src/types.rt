//! The types of tiles.

ghost use Rattle.std.specs.Prelude.{◌≡◌, map, IfOk};
ghost use Rattle.words.specs.Ordered.{in_order_once};

use rr_ids::Name;
use std::alloc::{AllocError, Global};
use std::collections::BTreeSet;
use tile_grid::Tile;

// The types of tiles as a set.
#[tactic(auto, using(crate::proofs::InOrder::put_last, crate::proofs::InOrder::all_put))]
fn set_of<'a>(alloc: Global, tiles: &'a [Tile]) -> Result<BTreeSet<&'a Name>, AllocError>
    ensures { IfOk result (λ kinds. map (λ kind. kind.now) kinds.keys ≡ in_order_once (λ kind. kind) (map (λ tile. tile.kind) tiles.now)) }
{
    let mut kinds = BTreeSet::<&Name>::new(alloc);
    let mut left = tiles;
    while let Some((tile, front)) = left.split_last() {
        kinds.insert(&tile.kind)?;
        left = front;
    }
    Ok(kinds)
}

/// The types of tiles in byte order, each once.
pub(crate) fn types_of<'a>(alloc: Global, tiles: &'a [Tile]) -> Result<Vec<&'a Name>, AllocError>
    ensures { IfOk result (λ kinds. map (λ kind. kind.now) kinds.items ≡ in_order_once (λ kind. kind) (map (λ tile. tile.kind) tiles.now)) }
{
    let kinds = set_of(alloc, tiles)?;
    kinds.into_iter().collect(alloc)
}
