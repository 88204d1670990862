// The order in which rounds go over the terminals.
ghost use Rattle.std.specs.Prelude.{◌≡◌, ◌<◌, All, IfOk, length};
ghost use Rattle.lw_terminals.specs.Writing.{KnowsPatterns};

use crate::patterns::scribe::Scribe;
use lw_base::NoMemory;
use lw_graph::Graph;
use lw_numbers::leaves::term_calls;
use std::alloc::Global;

impl Scribe<'_> {
    /// The places of the terminals, each behind those that it calls, unless it is called by them too.
    pub(crate) fn called_first(&self, alloc: Global) -> Result<Vec<usize>, NoMemory>
        requires { KnowsPatterns self.now }
        ensures { IfOk result (λ order. All (λ t. t < length self.now.g.now.terminals) order.items) }
    {
        let calls = self.calls(alloc)?;
        calls.successors_first(alloc)
    }

    /// A graph of the terminals, in which edges lead from each to those that it calls.
    fn calls(&self, alloc: Global) -> Result<Graph, NoMemory>
        requires { KnowsPatterns self.now }
        ensures { IfOk result (λ calls. calls.nodes ≡ length self.now.g.now.terminals) }
    {
        let mut calls = Graph::new(alloc, self.g.terminals.len())?;
        for place in 0..self.g.terminals.len() {
            self.add_calls(alloc, place, &mut calls)?;
        }
        Ok(calls)
    }

    fn add_calls(&self, alloc: Global, place: usize, calls: &mut Graph) -> Result<(), NoMemory>
        requires knows { KnowsPatterns self.now }
        requires nodes { calls.old.nodes ≡ length self.now.g.now.terminals }
        requires place { place < length self.now.g.now.terminals }
        ensures { calls.new.nodes ≡ calls.old.nodes }
    {
        let terminal = &self.g.terminals.as_slice()[place];
        for (name, _) in &term_calls(alloc, &terminal.body)? {
            if let Some(called) = self.called(name) {
                calls.add(place, called)?;
            }
        }
        Ok(())
    }
}
