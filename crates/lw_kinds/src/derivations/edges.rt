// Edges to the rules that are called.
ghost use Rattle.std.specs.Prelude.{ℕ, ◌≡◌, ◌<◌, List, Contains, OnOk, length};
ghost use Rattle.lw_grammar.specs.declared.rule.Value0.{Value0};
ghost use Rattle.lw_faults.specs.Reads.{ValueLeads};
ghost use Rattle.lw_kinds.specs.Crossing.{IsReadBy};
ghost use Rattle.lw_kinds.specs.Edges.{AddsEdges, IsNamedSo};
ghost use Rattle.lw_kinds.specs.Known.{AreKnown};

use crate::derivations::names::Names;
use lw_base::{Name, NoMemory};
use lw_grammar::Value0;
use lw_graph::Graph;

impl Names<'_> {
    /// Puts in an edge to the rule that the name means, if it means one.
    pub(crate) fn add_call(
        &self,
        graph: &mut Graph,
        from: usize,
        name: &Name,
    ) -> Result<(), NoMemory>
        requires known { AreKnown self.now }
        requires nodes { graph.old.nodes ≡ length self.now.g.now.rules }
        requires from_in { from < graph.old.nodes }
        ensures { OnOk result (AddsEdges from (IsNamedSo self.now.g.now (λ called. called ≡ name.now)) graph.old graph.new) }
    {
        match self.rule(name) {
            Some(rule) => graph.add(from, rule),
            None => Ok(()),
        }
    }

    fn add_cross(
        &self,
        graph: &mut Graph,
        from: usize,
        wanted: &Name,
        rule: &Option<Name>,
    ) -> Result<(), NoMemory>
        requires known { AreKnown self.now }
        requires nodes { graph.old.nodes ≡ length self.now.g.now.rules }
        requires from_in { from < graph.old.nodes }
        ensures { OnOk result (AddsEdges from (IsNamedSo self.now.g.now (IsReadBy self.now.g.now wanted.now rule.now)) graph.old graph.new) }
    {
        match self.read_by(wanted, rule) {
            Some(name) => self.add_call(graph, from, name),
            None => Ok(()),
        }
    }

    /// Puts in edges to the rules that the value may be read by.
    #[cycle(values_called)]
    pub(crate) fn add_value(
        &self,
        graph: &mut Graph,
        from: usize,
        value: &Value0,
    ) -> Result<(), NoMemory>
        requires known { AreKnown self.now }
        requires nodes { graph.old.nodes ≡ length self.now.g.now.rules }
        requires from_in { from < graph.old.nodes }
        ensures { OnOk result (AddsEdges from (IsNamedSo self.now.g.now (ValueLeads self.now.g.now value.now)) graph.old graph.new) }
    {
        match value {
            Value0::Keyword(..) => Ok(()),
            Value0::Call(name, _) => self.add_call(graph, from, name),
            Value0::Cross(wanted, rule, _) => self.add_cross(graph, from, wanted, rule),
            Value0::Choice(values, _) => self.add_values(graph, from, values.as_slice()),
        }
    }

    #[cycle(values_called)]
    fn add_values(&self, graph: &mut Graph, from: usize, values: &[Value0]) -> Result<(), NoMemory>
        requires known { AreKnown self.now }
        requires nodes { graph.old.nodes ≡ length self.now.g.now.rules }
        requires from_in { from < graph.old.nodes }
        ensures { OnOk result (AddsEdges from (λ b. (v : Value0) × Contains values.now v × IsNamedSo self.now.g.now (ValueLeads self.now.g.now v) b) graph.old graph.new) }
    {
        for value in values {
            self.add_value(graph, from, value)?;
        }
        Ok(())
    }
}
