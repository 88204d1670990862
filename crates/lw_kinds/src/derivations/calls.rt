// Which rules a rule calls.
ghost use Rattle.std.specs.Prelude.{◌≡◌, ◌<◌, IfOk, OnOk, length};
ghost use Rattle.lw_grammar.specs.Reached.{RuleCalls};
ghost use Rattle.lw_numbers.specs.Parts.{leaf_of};
ghost use Rattle.lw_kinds.specs.Edges.{AddsEdges, AreEdges, IsNamedSo, CallsAtLeaf};
ghost use Rattle.lw_kinds.specs.Known.{AreKnown};

use crate::derivations::names::Names;
use lw_base::NoMemory;
use lw_grammar::Rule;
use lw_graph::Graph;
use lw_numbers::leaves::{BodyLeaf, body_leaves};
use std::alloc::Global;

impl Names<'_> {
    /// A graph of the rules. An edge leads from each to those that it calls.
    pub(crate) fn calls(&self, alloc: Global) -> Result<Graph, NoMemory>
        requires { AreKnown self.now }
        ensures { IfOk result (AreEdges self.now.g.now (RuleCalls self.now.g.now)) }
    {
        let rules = self.g.rules.as_slice();
        let mut graph = Graph::new(alloc, rules.len())?;
        for (from, rule) in rules.iter().enumerate() {
            self.add_calls(alloc, &mut graph, from, rule)?;
        }
        Ok(graph)
    }

    fn add_calls(
        &self,
        alloc: Global,
        graph: &mut Graph,
        from: usize,
        rule: &Rule,
    ) -> Result<(), NoMemory>
        requires known { AreKnown self.now }
        requires nodes { graph.old.nodes ≡ length self.now.g.now.rules }
        requires from_in { from < graph.old.nodes }
        ensures { OnOk result (AddsEdges from (IsNamedSo self.now.g.now (RuleCalls self.now.g.now rule.now)) graph.old graph.new) }
    {
        let leaves = body_leaves(alloc, &rule.body)?;
        for leaf in &leaves {
            self.add_leaf(graph, from, leaf)?;
        }
        Ok(())
    }

    fn add_leaf(&self, graph: &mut Graph, from: usize, leaf: &BodyLeaf<'_>) -> Result<(), NoMemory>
        requires known { AreKnown self.now }
        requires nodes { graph.old.nodes ≡ length self.now.g.now.rules }
        requires from_in { from < graph.old.nodes }
        ensures { OnOk result (AddsEdges from (IsNamedSo self.now.g.now (CallsAtLeaf self.now.g.now (leaf_of leaf.now))) graph.old graph.new) }
    {
        match leaf {
            BodyLeaf::Keyword(..) => Ok(()),
            BodyLeaf::Call(name, _) => self.add_call(graph, from, name),
            BodyLeaf::Assign(_, _, value, _) => self.add_value(graph, from, value),
            BodyLeaf::Act(_) => Ok(()),
        }
    }
}
