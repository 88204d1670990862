// The nodes that were met, and how far they were looked at.
ghost use Rattle.std.specs.Prelude.{◌≡◌, ◌<◌, [], ◌∷◌, All, IfOk, OnOk, false, length, replicate};
ghost use Rattle.lw_graph.specs.Growth.{Gains};

use lw_base::NoMemory;
use std::alloc::Global;

/// A set of nodes that grows, and those of it that wait to be looked at.
#[derive(Drop)]
pub(crate) struct Front {
    pub(crate) met: Vec<bool>,
    pub(crate) waiting: Vec<usize>,
}

impl Front {
    /// No node of so many.
    pub(crate) fn new(alloc: Global, nodes: usize) -> Result<Front, NoMemory>
        ensures met { IfOk result (λ front. front.met.items ≡ replicate nodes false) }
        ensures waiting { IfOk result (λ front. front.waiting.items ≡ []) }
    {
        Ok(Front {
            met: vec![in alloc; false; nodes]?,
            waiting: Vec::new(alloc),
        })
    }

    /// Meets the node, which waits from now on if it is new.
    pub(crate) fn meet(&mut self, node: usize) -> Result<(), NoMemory>
        requires { node < length self.old.met.items }
        ensures { OnOk result (Gains (node ∷ []) self.old self.new) }
    {
        if !self.met[node] {
            self.waiting.push(node)?;
            self.met[node] = true;
        }
        Ok(())
    }

    /// Meets each of these nodes.
    pub(crate) fn meet_all(&mut self, nodes: &[usize]) -> Result<(), NoMemory>
        requires { All (λ n. n < length self.old.met.items) nodes.now }
        ensures { OnOk result (Gains nodes.now self.old self.new) }
    {
        for node in nodes {
            self.meet(*node)?;
        }
        Ok(())
    }
}
