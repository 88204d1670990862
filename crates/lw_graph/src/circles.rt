// Which nodes lie on circles.
ghost use Rattle.std.specs.Prelude.{◌<◌, ◌↔◌, ℕ, IfOk, IsTrue};
ghost use Rattle.lw_graph.specs.Walks.{HasNode, GoesRound};

use crate::graph::Graph;
use crate::node_set::NodeSet;
use lw_base::NoMemory;
use std::alloc::Global;

impl Graph {
    /// Which nodes reach themselves over one edge or more. Linear in nodes and edges, and once more so for
    /// each node that lies on a circle or leads to one.
    pub fn circles(&self, alloc: Global) -> Result<NodeSet, NoMemory>
        ensures { IfOk result (λ round. (n : ℕ) → HasNode round n ↔ GoesRound self.now n) }
    {
        let ended = self.ended(alloc)?;
        let mut flags = Vec::with_capacity(alloc, self.nodes())?;
        for node in 0..self.nodes() {
            flags.push(self.goes_round(alloc, &ended, node)?)?;
        }
        Ok(NodeSet { flags })
    }

    /// Whether the node reaches itself over one edge or more, which none does that ended.
    fn goes_round(&self, alloc: Global, ended: &NodeSet, node: usize) -> Result<bool, NoMemory>
        requires node_in { node < self.now.nodes }
        requires ended { HasNode ended.now node → ¬ GoesRound self.now node }
        ensures { IfOk result (λ round. IsTrue round ↔ GoesRound self.now node) }
    {
        if ended.holds(node) {
            return Ok(false);
        }
        let met = self.reached(alloc, self.successors(node))?;
        Ok(met.holds(node))
    }
}
