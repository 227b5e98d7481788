//! The wires of a net's tree.

ghost use Rattle.std.specs.Prelude.{◌≡◌, ◌<◌, ◌↔◌, ℕ, length, IsTrue, IfOk};
ghost use Rattle.words.specs.Members.{In};
ghost use Rattle.search_bench.specs.Grids.{IsTree};

use rr_ids::{Id, WireId};
use std::alloc::{AllocError, Global};

/// The wires of a tree, in the order in which they joined, and for each wire one more than its place among them, or 0.
#[derive(Drop)]
pub struct Tree {
    pub places: Vec<usize>,
    pub wires: Vec<WireId>,
    ghost is_tree: { IsTree places.items wires.items },
}

impl Tree {
    /// No wire of so many.
    pub fn new(alloc: Global, wires: u32) -> Result<Tree, AllocError>
        ensures { IfOk result (λ tree. length tree.places.items ≡ wires) }
    {
        let places = vec![in alloc; 0usize; wires as usize]?;
        Ok(Tree {
            places,
            wires: Vec::new(alloc),
        })
    }

    /// Whether a wire is in the tree.
    pub fn holds(&self, w: WireId) -> bool
        requires { w < length self.now.places.items }
        ensures { IsTrue result ↔ In self.now.wires.items w }
    {
        self.places[w.to_u32() as usize] > 0
    }

    /// Takes a wire in, if it isn't in the tree.
    pub fn join(&mut self, w: WireId) -> Result<(), AllocError>
        requires { w < length self.old.places.items }
        ensures { length self.new.places.items ≡ length self.old.places.items }
    {
        let place = w.to_u32() as usize;
        if self.places[place] > 0 {
            return Ok(());
        }
        self.wires.push(w)?;
        self.places[place] = self.wires.len();
        Ok(())
    }
    /// Takes out the wire that joined last.
    pub fn leave(&mut self)
        ensures { length self.new.places.items ≡ length self.old.places.items }
    {
        let Some(w) = self.wires.pop() else {
            return;
        };
        self.places[w.to_u32() as usize] = 0;
    }
}
