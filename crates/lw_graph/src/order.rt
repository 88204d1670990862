// The nodes in an order in which successors come first.
ghost use Rattle.std.specs.Prelude.{ℕ, ◌<◌, ◌≤◌, All, IfOk, OnOk};
ghost use Rattle.lw_graph.specs.Order.{IsStepWithin, SearchesWithin, steps_left};

use crate::graph::Graph;
use lw_base::NoMemory;
use std::alloc::Global;

/// A step of a search along edges.
#[derive(Clone, Copy)]
enum Step {
    Enter(usize),
    Leave(usize),
}

/// A search along edges, which enters each node once.
#[derive(Drop)]
struct Search {
    entered: Vec<bool>,
    waiting: Vec<Step>,
    left: Vec<usize>,
}

impl Graph {
    /// The nodes, each behind those that edges lead to from it, but for those from which a walk leads back
    /// to it. Linear in nodes and edges.
    pub fn successors_first(&self, alloc: Global) -> Result<Vec<usize>, NoMemory>
        ensures { IfOk result (λ order. All (λ node. node < self.now.nodes) order.items) }
    {
        let mut search = starts(alloc, self.nodes())?;
        'searching: while let Some(step) = search.waiting.pop() {
            match step {
                Step::Enter(node) => self.enter(node, &mut search)?,
                Step::Leave(node) => search.left.push(node)?,
            }
        }
        Ok(search.left)
    }

    /// Enters the node, if it was not entered before: it is left once its successors are.
    fn enter(&self, node: usize, search: &mut Search) -> Result<(), NoMemory>
        requires node { node < self.now.nodes }
        requires within { SearchesWithin self.now.nodes search.old }
        ensures within { OnOk result (SearchesWithin self.now.nodes search.new) }
        ensures fewer { OnOk result (steps_left search.new ≤ steps_left search.old) }
    {
        if search.entered[node] {
            return Ok(());
        }
        search.entered[node] = true;
        search.waiting.push(Step::Leave(node))?;
        enter_each(self.successors(node), &mut search.waiting)
    }
}

/// A search that is to enter each node.
fn starts(alloc: Global, nodes: usize) -> Result<Search, NoMemory>
    ensures { IfOk result (SearchesWithin nodes) }
{
    let mut waiting = Vec::with_capacity(alloc, nodes)?;
    for node in 0..nodes {
        waiting.push(Step::Enter(node))?;
    }
    Ok(Search {
        entered: vec![in alloc; false; nodes]?,
        waiting,
        left: Vec::with_capacity(alloc, nodes)?,
    })
}

fn enter_each(nodes: &[usize], waiting: &mut Vec<Step>) -> Result<(), NoMemory>
    ensures { (n : ℕ) → All (λ node. node < n) nodes.now → All (IsStepWithin n) waiting.old.items → OnOk result (All (IsStepWithin n) waiting.new.items) }
{
    for node in nodes {
        waiting.push(Step::Enter(*node))?;
    }
    Ok(())
}
