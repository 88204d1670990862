// The nodes that every walk from comes to an end, so that they lie on no circle. They are found by taking away, over and over, nodes
// whose successors were all taken away. How many of a node's successors were taken is counted, and only where that may be all of them
// are they looked at; a wrong count would take too few nodes away, and never too many.
ghost use Rattle.std.specs.Prelude.{◌≡◌, ◌<◌, ◌↔◌, ℕ, All, IfOk, IsTrue, OnOk, length};
ghost use Rattle.lw_graph.specs.Walks.{HasNode, HasEdge, GoesRound};
ghost use Rattle.lw_graph.specs.Ending.{KnowsEnded};
ghost use Rattle.lw_graph.specs.Growth.{nodes_left};

use crate::front::Front;
use crate::graph::Graph;
use crate::node_set::NodeSet;
use lw_base::NoMemory;
use std::alloc::Global;

impl Graph {
    /// The nodes that are taken away. In a graph without circles that is each of them.
    pub(crate) fn ended(&self, alloc: Global) -> Result<NodeSet, NoMemory>
        ensures { IfOk result (λ ended. (n : ℕ) → HasNode ended n → ¬ GoesRound self.now n) }
    {
        let turned = self.turned(alloc)?;
        let mut counts = vec![in alloc; 0; self.nodes()]?;
        let mut front = self.leaves(alloc)?;
        'ending: while let Some(node) = front.waiting.pop() {
            let before = turned.successors(node);
            self.end_before(before, counts.as_mut_slice(), &mut front)?;
        }
        Ok(NodeSet { flags: front.met })
    }

    /// The same nodes, and each edge turned round. Only counts depend on where its edges lead.
    fn turned(&self, alloc: Global) -> Result<Graph, NoMemory>
        ensures { IfOk result (λ turned. turned.nodes ≡ self.now.nodes) }
    {
        let mut turned = Graph::new(alloc, self.nodes())?;
        for node in 0..self.nodes() {
            turned.add_to(self.successors(node), node)?;
        }
        Ok(turned)
    }

    /// Puts in an edge to the node from each of these.
    fn add_to(&mut self, from: &[usize], to: usize) -> Result<(), NoMemory>
        requires from_in { All (λ n. n < self.old.nodes) from.now }
        requires to_in { to < self.old.nodes }
        ensures { self.new.nodes ≡ self.old.nodes }
    {
        for node in from {
            self.add(*node, to)?;
        }
        Ok(())
    }

    /// The nodes that no edge leads from.
    fn leaves(&self, alloc: Global) -> Result<Front, NoMemory>
        ensures { IfOk result (KnowsEnded self.now) }
    {
        let mut front = Front::new(alloc, self.nodes())?;
        for node in 0..self.nodes() {
            if self.successors(node).is_empty() {
                front.meet(node)?;
            }
        }
        Ok(front)
    }

    /// Counts for each of these nodes that one of its successors ended, and ends those for which it was the last.
    fn end_before(
        &self,
        nodes: &[usize],
        counts: &mut [usize],
        front: &mut Front,
    ) -> Result<(), NoMemory>
        requires nodes_in { All (λ n. n < self.now.nodes) nodes.now }
        requires counts { length counts.old ≡ self.now.nodes }
        requires front { KnowsEnded self.now front.old }
        ensures knows { OnOk result (KnowsEnded self.now front.new) }
        ensures left { OnOk result (nodes_left front.new ≡ nodes_left front.old) }
    {
        for node in nodes {
            counts[*node] = counts[*node].saturating_add(1);
            if counts[*node] == self.successors(*node).len() && self.is_ended(*node, front) {
                front.meet(*node)?;
            }
        }
        Ok(())
    }

    /// Whether each successor of the node ended.
    fn is_ended(&self, node: usize, front: &Front) -> bool
        requires node_in { node < self.now.nodes }
        requires front { length front.now.met.items ≡ self.now.nodes }
        ensures { IsTrue result ↔ ((next : ℕ) → HasEdge self.now node next → HasNode front.now.met.items next) }
    {
        for next in self.successors(node) {
            if !front.met[*next] {
                return false;
            }
        }
        true
    }
}
