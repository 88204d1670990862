// A directed graph, and what is reached in it.
ghost use Rattle.std.specs.Prelude.{◌≡◌, ◌<◌, ◌⊎◌, ◌↔◌, ℕ, All, IfOk, OnOk, OnErr};
ghost use Rattle.lw_graph.specs.Walks.{HasEdge, HasNode, IsReachedFrom, successors_of};

use crate::front::Front;
use crate::node_set::NodeSet;
use lw_base::{Items, NoMemory};
use std::alloc::Global;
use std::marker::Model;

/// A directed graph. Its nodes are numbered from zero.
#[derive(Drop)]
pub struct Graph {
    /// By node, where edges lead from it.
    rows: Vec<Items<usize>>,
}

impl Model for Graph {
    ghost use Rattle.std.specs.Prelude.{length};
    ghost use Rattle.lw_graph.specs.Walks.{Links};
    ghost use Rattle.lw_graph.specs.Within.{LeadsWithin};

    ghost Value = { Links };

    ghost view = { λ a. record { nodes = length a.rows.items; successors = a.rows.items } };

    ghost invariant = { λ a. LeadsWithin (length a.rows.items) a.rows.items };
}

impl Graph {
    /// So many nodes, and no edges.
    pub fn new(alloc: Global, nodes: usize) -> Result<Graph, NoMemory>
        ensures nodes { IfOk result (λ graph. graph.nodes ≡ nodes) }
        ensures empty { IfOk result (λ graph. (a b : ℕ) → ¬ HasEdge graph a b) }
    {
        let mut rows = Vec::with_capacity(alloc, nodes)?;
        for _ in 0..nodes {
            rows.push(Items::new(alloc))?;
        }
        Ok(Graph { rows })
    }

    /// How many nodes there are. Their numbers are those below, and edges are between these.
    pub fn nodes(&self) -> usize
        ensures count { result ≡ self.now.nodes }
        ensures within { (a b : ℕ) → HasEdge self.now a b → (a < result) × (b < result) }
    {
        self.rows.len()
    }

    /// Puts in an edge. Where memory is refused the graph stays as it was.
    pub fn add(&mut self, from: usize, to: usize) -> Result<(), NoMemory>
        requires from_in { from < self.old.nodes }
        requires to_in { to < self.old.nodes }
        ensures nodes { self.new.nodes ≡ self.old.nodes }
        ensures edges { OnOk result ((a b : ℕ) → HasEdge self.new a b ↔ (HasEdge self.old a b ⊎ ((a ≡ from) × (b ≡ to)))) }
        ensures err { OnErr result (self.new ≡ self.old) }
    {
        let row = &mut self.rows[from];
        row.push(to)?;
        Ok(())
    }

    /// Where edges lead from the node.
    pub fn successors(&self, node: usize) -> &[usize]
        requires { node < self.now.nodes }
        ensures edges { result.now ≡ successors_of self.now node }
        ensures within { All (λ next. next < self.now.nodes) result.now }
    {
        self.rows[node].as_slice()
    }

    /// Which nodes are reached from these, over any number of edges, none too. Linear in nodes and edges.
    pub fn reached(&self, alloc: Global, starts: &[usize]) -> Result<NodeSet, NoMemory>
        requires { All (λ start. start < self.now.nodes) starts.now }
        ensures { IfOk result (λ met. (n : ℕ) → HasNode met n ↔ IsReachedFrom self.now starts.now n) }
    {
        let mut front = Front::new(alloc, self.nodes())?;
        front.meet_all(starts)?;
        'reaching: while let Some(node) = front.waiting.pop() {
            front.meet_all(self.successors(node))?;
        }
        Ok(NodeSet { flags: front.met })
    }
}
