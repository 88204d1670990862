// Which rules a rule may come to before it reads any token.
ghost use Rattle.std.specs.Prelude.{ℕ, ◌≡◌, ◌<◌, Contains, IfOk, OnOk, false, length};
ghost use Rattle.lw_grammar.specs.declared.rule.Element.{Element};
ghost use Rattle.lw_faults.specs.Reads.{Leads, LeadsAll};
ghost use Rattle.lw_kinds.specs.Edges.{AddsEdges, AreEdges, IsNamedSo};
ghost use Rattle.lw_kinds.specs.Known.{AreKnown};
ghost use Rattle.lw_kinds.specs.Rounds.{AreExact};

use crate::derivations::names::Names;
use lw_base::NoMemory;
use lw_grammar::Element;
use lw_graph::Graph;
use std::alloc::Global;

impl Names<'_> {
    /// A graph of the rules. An edge leads from each to those that it may come to before it reads any
    /// token, where these flags say which rules may read none.
    pub(crate) fn leads(&self, alloc: Global, nothing: &[bool]) -> Result<Graph, NoMemory>
        requires known { AreKnown self.now }
        requires nothing { AreExact self.now.g.now false nothing.now }
        ensures { IfOk result (AreEdges self.now.g.now (λ caller. Leads self.now.g.now caller.body)) }
    {
        let rules = self.g.rules.as_slice();
        let mut graph = Graph::new(alloc, rules.len())?;
        for (from, rule) in rules.iter().enumerate() {
            self.add_leads(&mut graph, from, nothing, &rule.body)?;
        }
        Ok(graph)
    }

    #[cycle(leads)]
    fn add_leads(
        &self,
        graph: &mut Graph,
        from: usize,
        nothing: &[bool],
        element: &Element,
    ) -> Result<(), NoMemory>
        requires known { AreKnown self.now }
        requires nodes { graph.old.nodes ≡ length self.now.g.now.rules }
        requires from_in { from < graph.old.nodes }
        requires nothing { AreExact self.now.g.now false nothing.now }
        ensures { OnOk result (AddsEdges from (IsNamedSo self.now.g.now (Leads self.now.g.now element.now)) graph.old graph.new) }
    {
        match element {
            Element::Keyword(..) => Ok(()),
            Element::Call(name, _) => self.add_call(graph, from, name),
            Element::Assign(_, _, value, _) => self.add_value(graph, from, value),
            Element::Act(_) => Ok(()),
            Element::Group(parts, _) => self.add_row(graph, from, nothing, parts.as_slice()),
            Element::Choice(parts, _) => self.add_choice(graph, from, nothing, parts.as_slice()),
            Element::Maybe(part, _) => self.add_leads(graph, from, nothing, part.get()),
            Element::Many(part, _) => self.add_leads(graph, from, nothing, part.get()),
            Element::Some1(part, _) => self.add_leads(graph, from, nothing, part.get()),
        }
    }

    /// Goes along the row as long as what stands there may read nothing.
    #[cycle(leads)]
    fn add_row(
        &self,
        graph: &mut Graph,
        from: usize,
        nothing: &[bool],
        elements: &[Element],
    ) -> Result<(), NoMemory>
        requires known { AreKnown self.now }
        requires nodes { graph.old.nodes ≡ length self.now.g.now.rules }
        requires from_in { from < graph.old.nodes }
        requires nothing { AreExact self.now.g.now false nothing.now }
        ensures { OnOk result (AddsEdges from (IsNamedSo self.now.g.now (LeadsAll self.now.g.now elements.now)) graph.old graph.new) }
    {
        for element in elements {
            self.add_leads(graph, from, nothing, element)?;
            if !self.passes(false, nothing, element) {
                return Ok(());
            }
        }
        Ok(())
    }

    #[cycle(leads)]
    fn add_choice(
        &self,
        graph: &mut Graph,
        from: usize,
        nothing: &[bool],
        elements: &[Element],
    ) -> Result<(), NoMemory>
        requires known { AreKnown self.now }
        requires nodes { graph.old.nodes ≡ length self.now.g.now.rules }
        requires from_in { from < graph.old.nodes }
        requires nothing { AreExact self.now.g.now false nothing.now }
        ensures { OnOk result (AddsEdges from (λ b. (e : Element) × Contains elements.now e × IsNamedSo self.now.g.now (Leads self.now.g.now e) b) graph.old graph.new) }
    {
        for element in elements {
            self.add_leads(graph, from, nothing, element)?;
        }
        Ok(())
    }
}
