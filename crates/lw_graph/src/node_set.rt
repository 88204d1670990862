// A set of nodes.
ghost use Rattle.std.specs.Prelude.{◌≡◌, ◌↔◌, IsTrue};
ghost use Rattle.lw_graph.specs.Walks.{HasNode};

use std::marker::Model;

/// A set of nodes of one graph, seen as its flags by node.
#[derive(Drop)]
pub struct NodeSet {
    pub(crate) flags: Vec<bool>,
}

impl Model for NodeSet {
    ghost use Rattle.std.specs.Prelude.{List, Bool};

    ghost Value = { List Bool };

    ghost view = { λ set. set.flags.items };
}

impl NodeSet {
    /// Whether the node is in the set. No number past the graph's last node is.
    pub fn holds(&self, node: usize) -> bool
        ensures { IsTrue result ↔ HasNode self.now node }
    {
        node < self.flags.len() && self.flags[node]
    }
}
