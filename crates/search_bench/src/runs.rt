//! What is searched.

ghost use Rattle.std.specs.Prelude.{◌≡◌, ℕ, ◌*◌, ◌<◌, ◌≤◌, IfOk};
ghost use Rattle.words.specs.Members.{In};
ghost use Rattle.paths.specs.Wiring.{IsArcOf};
ghost use Rattle.search_bench.specs.Nets.{network_of};

use crate::arcs::{Arcs, forth};
use crate::net::Net;
use crate::tree::Tree;
use net_links::Links;
use net_search::{PathAnswer, SearchSpace, least_path};
use rr_ids::{ArcId, Id, WireId};
use std::alloc::{AllocError, Global};

/// How many paths were found, and how many arcs they have.
#[derive(Clone, Copy)]
pub struct Counts {
    pub paths: u64,
    pub arcs: u64,
}

// The grid of a side: arcs lead to the near wires on all sides.
fn grid(alloc: Global, side: u32) -> Result<Arcs, AllocError>
    requires low { 40 ≤ side }
    requires high { side ≤ 4000 }
    ensures { IfOk result (λ arcs. arcs.wires ≡ side * side) }
{
    let wires = side * side;
    let down = side;
    let distances = [
        1,
        wires - 1,
        down,
        wires - down,
        2,
        wires - 2,
        2 * down,
        wires - 2 * down,
        down + 1,
        wires - down - 1,
    ];
    Arcs::new(alloc, wires, distances)
}

// The net over a grid, whose tree is empty.
fn net_over(alloc: Global, side: u32) -> Result<Net, AllocError>
    requires low { 40 ≤ side }
    requires high { side ≤ 4000 }
    ensures { IfOk result (λ net. net.arcs.wires ≡ side * side) }
{
    let arcs = grid(alloc, side)?;
    let tree = Tree::new(alloc, side * side)?;
    Ok(Net { arcs, tree })
}

// Takes the sinks of a path's arcs into the tree.
fn join_path(net: &mut Net, path: &[ArcId]) -> Result<(), AllocError>
    requires { (a : ℕ) → In path.now a → IsArcOf (network_of net.old).wiring a }
    ensures { net.new.arcs ≡ net.old.arcs }
{
    for a in path {
        let sink = net.arc(*a).sink;
        net.tree.join(sink)?;
    }
    Ok(())
}

// The path to a pin.
fn path_to(
    alloc: Global,
    net: &Net,
    pin: u32,
    space: &mut SearchSpace,
) -> Result<Vec<ArcId>, AllocError>
    requires pin { pin < net.now.arcs.wires }
    requires space { space.old ≡ net.now.arcs.wires }
    ensures arcs { IfOk result (λ v. (a : ℕ) → In v.items a → IsArcOf (network_of net.now).wiring a) }
    ensures space { space.new ≡ space.old }
{
    match least_path(alloc, net, WireId::from_u32(pin), space)? {
        PathAnswer::Found { arcs, .. } => Ok(arcs),
        PathAnswer::Blocked(_) => Ok(Vec::new(alloc)),
    }
}

impl Counts {
    // Counts a path of so many arcs.
    fn add(self, arcs: usize) -> Counts {
        Counts {
            paths: self.paths.saturating_add(1),
            arcs: self.arcs.saturating_add(arcs as u64),
        }
    }
}

// Takes a wire into the tree.
fn join_root(net: &mut Net, root: u32) -> Result<(), AllocError>
    requires { root < net.old.arcs.wires }
    ensures { net.new.arcs ≡ net.old.arcs }
{
    net.tree.join(WireId::from_u32(root))?;
    Ok(())
}

// Takes the wire that joined last out of the tree.
fn leave_root(net: &mut Net)
    ensures { net.new.arcs ≡ net.old.arcs }
{
    net.tree.leave();
}

// How many arcs the path has from a wire to one three rows down and five wires on.
fn near_path(
    alloc: Global,
    net: &mut Net,
    root: u32,
    side: u32,
    space: &mut SearchSpace,
) -> Result<usize, AllocError>
    requires low { 40 ≤ side }
    requires high { side ≤ 4000 }
    requires wires { net.old.arcs.wires ≡ side * side }
    requires root { root < side * side }
    requires space { space.old ≡ side * side }
    ensures arcs { net.new.arcs ≡ net.old.arcs }
    ensures space { space.new ≡ space.old }
{
    join_root(net, root)?;
    let pin = forth(side * side, root, 3 * side + 5);
    let path = path_to(alloc, net, pin, space)?;
    leave_root(net);
    Ok(path.len())
}

// The wire of a number, when wires are picked some way apart.
fn root_at(wires: u32, i: u32) -> u32
    requires { 0 < wires }
    ensures { result < wires }
{
    i.wrapping_mul(1037) % wires
}

// The wire of a number, when wires are picked 14 apart, row by row.
fn sink_at(side: u32, i: u32) -> u32
    requires low { 40 ≤ side }
    requires high { side ≤ 4000 }
    ensures { result < side * side }
{
    let in_a_row = side / 14;
    let row = i / in_a_row;
    let column = i % in_a_row;
    ((row % in_a_row) * 14 * side + column * 14) % (side * side)
}

/// Searches so many paths between near wires.
pub fn near_paths(alloc: Global, side: u32, searches: u32) -> Result<Counts, AllocError>
    requires low { 40 ≤ side }
    requires high { side ≤ 4000 }
{
    let mut net = net_over(alloc, side)?;
    let mut space = SearchSpace::reserve(alloc, side * side)?;
    let mut counts = Counts { paths: 0, arcs: 0 };
    for i in 0..searches {
        let root = root_at(side * side, i);
        counts = counts.add(near_path(alloc, &mut net, root, side, &mut space)?);
    }
    Ok(counts)
}

/// Connects a net of so many sinks, 14 wires apart: each found wire joins the tree.
pub fn wide_net(alloc: Global, side: u32, sinks: u32) -> Result<Counts, AllocError>
    requires low { 40 ≤ side }
    requires high { side ≤ 4000 }
{
    let mut net = net_over(alloc, side)?;
    let mut space = SearchSpace::reserve(alloc, side * side)?;
    join_root(&mut net, 0)?;
    let mut counts = Counts { paths: 0, arcs: 0 };
    for i in 0..sinks {
        let path = path_to(alloc, &net, sink_at(side, i), &mut space)?;
        join_path(&mut net, &path)?;
        counts = counts.add(path.len());
    }
    Ok(counts)
}
