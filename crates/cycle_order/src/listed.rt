//! A list of nodes in which each stands once at most, with a mark for each node.

ghost use Rattle.std.specs.Prelude.{◌≡◌, ◌<◌, ◌≤◌, ◌^◌, ◌↔◌, true, [], ◌∷◌, ◌++◌, length, slice_get, IfOk, OnOk};
ghost use Rattle.words.specs.Members.{In};

use crate::NodeId;
use rr_ids::Id;
use std::alloc::{AllocError, Global};
use std::marker::Model;

/// Nodes below a count in the order in which they were listed, each once at most. Contracts see the record of the count and
/// the list.
#[derive(Drop)]
pub(crate) struct Listed {
    // whether a node is listed
    marks: Vec<bool>,
    nodes: Vec<NodeId>,
}

impl Model for Listed {
    ghost use Rattle.std.specs.Prelude.{length};
    ghost use Rattle.cycle_order.specs.Marks.{Listing, AreMarked};

    ghost Value = { Listing };

    ghost view = { λ l. record { count = length l.marks.items; nodes = l.nodes.items } };

    ghost invariant = { λ l. AreMarked l.marks.items l.nodes.items };
}

impl Listed {
    /// No node is listed.
    pub(crate) fn new(alloc: Global, count: u32) -> Result<Listed, AllocError>
        ensures { IfOk result (λ l. l ≡ record { count = count; nodes = [] }) }
    {
        let marks = vec![in alloc; false; count as usize]?;
        Ok(Listed {
            marks,
            nodes: Vec::new(alloc),
        })
    }

    /// Whether a node is listed.
    pub(crate) fn contains(&self, node: NodeId) -> bool
        requires { node < self.now.count }
        ensures { (result ≡ true) ↔ In self.now.nodes node }
    {
        self.marks[node.to_u32() as usize]
    }

    /// The node at a place of the list.
    pub(crate) fn at(&self, place: usize) -> Option<NodeId>
        ensures node { result ≡ slice_get self.now.nodes place }
        ensures few { length self.now.nodes ≤ self.now.count }
        ensures count { self.now.count < 2 ^ 32 }
    {
        self.nodes.as_slice().get(place).copied()
    }

    /// Lists a node behind the others.
    pub(crate) fn push(&mut self, node: NodeId) -> Result<(), AllocError>
        requires below { node < self.old.count }
        requires apart { In self.old.nodes node → ⊥ }
        ensures { OnOk result (self.new ≡ record { count = self.old.count; nodes = self.old.nodes ++ node ∷ [] }) }
    {
        self.nodes.push(node)?;
        self.marks[node.to_u32() as usize] = true;
        Ok(())
    }

    /// Gives the list; takes no memory.
    pub(crate) fn into_nodes(self) -> Vec<NodeId>
        ensures { result.items ≡ self.nodes }
    {
        let Listed { marks: _, nodes } = self;
        nodes
    }
}
