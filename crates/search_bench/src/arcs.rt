//! A grid of wires: from each wire ten arcs lead to the wires at ten distances further on, round the end. Arcs out of a
//! wire stand side by side, as do those into it.

ghost use Rattle.std.specs.Prelude.{◌≡◌, ℕ, ◌+◌, ◌*◌, ◌/◌, ◌%◌, ◌<◌, ◌≤◌, ◌^◌, length, slice_index, IfOk};
ghost use Rattle.search_bench.specs.Grids.{AreIds, AreInto, IsGrid, back, forth, into, part};

use rr_ids::{ArcId, Id, WireId};
use std::alloc::{AllocError, Global};

/// How many arcs leave a wire.
pub const KINDS: u32 = 10;

/// The arcs of a grid. Arc `a` leaves the wire `a / 10`, for the distance of the number `a % 10`.
#[derive(Drop)]
pub struct Arcs {
    pub wires: u32,
    pub distances: [u32; 10],
    pub outs: Vec<ArcId>,
    pub ins: Vec<ArcId>,
    ghost is_grid: { IsGrid wires distances outs.items ins.items },
}

// The wire at a distance further on.
pub(crate) fn forth(wires: u32, w: u32, distance: u32) -> u32
    requires wire { w < wires }
    requires distance { distance < wires }
    ensures { result ≡ forth wires w distance }
{
    if distance < wires - w {
        w + distance
    } else {
        w - (wires - distance)
    }
}

// The wire at a distance further back.
fn back(wires: u32, w: u32, distance: u32) -> u32
    requires wire { w < wires }
    requires distance { distance < wires }
    ensures { result ≡ back wires w distance }
{
    if distance <= w {
        w - distance
    } else {
        wires - (distance - w)
    }
}

// The arc at a place of the list of arcs into the wires.
fn into(wires: u32, distances: &[u32; 10], place: u32) -> ArcId
    requires few { wires * 10 < 2 ^ 32 }
    requires place { place < wires * 10 }
    requires distances { (j : ℕ) → j < 10 → slice_index distances.now j < wires }
    ensures { result ≡ into wires distances.now place }
{
    let kind = place % KINDS;
    let from = back(wires, place / KINDS, distances[kind as usize]);
    ArcId::from_u32(from * KINDS + kind)
}

// The arcs in the order of their numbers.
fn all_outs(alloc: Global, wires: u32) -> Result<Vec<ArcId>, AllocError>
    requires few { wires * 10 < 2 ^ 32 }
    ensures { IfOk result (λ v. AreIds (wires * 10) v.items) }
{
    let mut outs = Vec::with_capacity(alloc, wires as usize * 10)?;
    for place in 0..wires * KINDS {
        outs.push(ArcId::from_u32(place))?;
    }
    Ok(outs)
}

// The arcs in the order of the wires that they lead to.
fn all_ins(alloc: Global, wires: u32, distances: &[u32; 10]) -> Result<Vec<ArcId>, AllocError>
    requires few { wires * 10 < 2 ^ 32 }
    requires distances { (j : ℕ) → j < 10 → slice_index distances.now j < wires }
    ensures { IfOk result (λ v. AreInto wires distances.now (wires * 10) v.items) }
{
    let mut ins = Vec::with_capacity(alloc, wires as usize * 10)?;
    for place in 0..wires * KINDS {
        ins.push(into(wires, distances, place))?;
    }
    Ok(ins)
}

impl Arcs {
    /// So many wires, and the arcs over these distances, each less than the number of wires.
    pub fn new(alloc: Global, wires: u32, distances: [u32; 10]) -> Result<Arcs, AllocError>
        requires few { wires * 10 < 2 ^ 32 }
        requires distances { (j : ℕ) → j < 10 → slice_index distances j < wires }
        ensures { IfOk result (λ arcs. arcs.wires ≡ wires) }
    {
        let outs = all_outs(alloc, wires)?;
        let ins = all_ins(alloc, wires, &distances)?;
        Ok(Arcs {
            wires,
            distances,
            outs,
            ins,
        })
    }
}

// The ten arcs of a wire.
pub(crate) fn part(arcs: &[ArcId], w: WireId) -> &[ArcId]
    requires { w * 10 + 10 ≤ length arcs.now }
    ensures { result.now ≡ part arcs.now w }
{
    let start = w.to_u32() as usize * 10;
    &arcs[start..start + 10]
}
