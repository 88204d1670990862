// Which rules call a rule.
ghost use Rattle.std.specs.Prelude.{ℕ, ◌≡◌, List, Contains, IfOk, OnOk, length};
ghost use Rattle.lw_grammar.specs.declared.rule.Element.{Element};
ghost use Rattle.lw_grammar.specs.declared.rule.Rule.{Rule};
ghost use Rattle.lw_grammar.specs.declared.rule.Value0.{Value0};
ghost use Rattle.lw_grammar.specs.Named.{IsRule};
ghost use Rattle.lw_look.specs.Sites.{Body, Value};
ghost use Rattle.lw_kinds.specs.Crossing.{IsReadBy};
ghost use Rattle.lw_kinds.specs.LexiconKnown.{IsKnownLexicon};
ghost use Rattle.lw_first.specs.Calling.{AddsCalls, HasAllCalls, HasCall, IsCaller};

use lw_base::{Name, NoMemory};
use lw_grammar::{Element, Value0};
use lw_graph::Graph;
use lw_kinds::lexicon::Lexicon;
use lw_numbers::Called;
use std::alloc::Global;

/// A graph of a grammar's rules. An edge leads from each to those that call it.
pub(crate) fn callers_of_rules(alloc: Global, lexicon: Lexicon<'_>) -> Result<Graph, NoMemory>
    requires { IsKnownLexicon lexicon }
    ensures nodes { IfOk result (λ graph. graph.nodes ≡ length lexicon.entry.g.now.rules) }
    ensures all { IfOk result (HasAllCalls lexicon.entry.g.now) }
{
    let rules = lexicon.g.rules.as_slice();
    let mut graph = Graph::new(alloc, rules.len())?;
    for (number, rule) in rules.iter().enumerate() {
        let caller = Caller { lexicon, number };
        caller.element(&rule.body, &mut graph)?;
    }
    Ok(graph)
}

/// A rule, by its number, whose calls are looked for.
#[derive(Clone, Copy)]
pub(crate) struct Caller<'a> {
    pub(crate) lexicon: Lexicon<'a>,
    pub(crate) number: usize,
}

impl Caller<'_> {
    /// Puts in an edge from each rule that the element calls.
    #[cycle(calls)]
    fn element(&self, element: &Element, graph: &mut Graph) -> Result<(), NoMemory>
        requires { IsCaller self.now graph.old }
        ensures { OnOk result (AddsCalls self.now.number (HasCall self.now.lexicon.g.now (Body element.now)) graph.old graph.new) }
    {
        match element {
            Element::Keyword(..) => Ok(()),
            Element::Call(name, _) => self.call(name, graph),
            Element::Assign(_, _, value, _) => self.value(value, graph),
            Element::Act(_) => Ok(()),
            Element::Group(parts, _) => self.elements(parts.as_slice(), graph),
            Element::Choice(parts, _) => self.elements(parts.as_slice(), graph),
            Element::Maybe(part, _) => self.element(part.get(), graph),
            Element::Many(part, _) => self.element(part.get(), graph),
            Element::Some1(part, _) => self.element(part.get(), graph),
        }
    }

    #[cycle(calls)]
    fn elements(&self, elements: &[Element], graph: &mut Graph) -> Result<(), NoMemory>
        requires { IsCaller self.now graph.old }
        ensures { OnOk result (AddsCalls self.now.number (λ r. (e : Element) × Contains elements.now e × HasCall self.now.lexicon.g.now (Body e) r) graph.old graph.new) }
    {
        for element in elements {
            self.element(element, graph)?;
        }
        Ok(())
    }

    #[cycle(value_calls)]
    fn value(&self, value: &Value0, graph: &mut Graph) -> Result<(), NoMemory>
        requires { IsCaller self.now graph.old }
        ensures { OnOk result (AddsCalls self.now.number (HasCall self.now.lexicon.g.now (Value value.now)) graph.old graph.new) }
    {
        match value {
            Value0::Keyword(..) => Ok(()),
            Value0::Call(name, _) => self.call(name, graph),
            Value0::Cross(wanted, rule, _) => self.cross(wanted, rule, graph),
            Value0::Choice(values, _) => self.values(values.as_slice(), graph),
        }
    }

    #[cycle(value_calls)]
    fn values(&self, values: &[Value0], graph: &mut Graph) -> Result<(), NoMemory>
        requires { IsCaller self.now graph.old }
        ensures { OnOk result (AddsCalls self.now.number (λ r. (v : Value0) × Contains values.now v × HasCall self.now.lexicon.g.now (Value v) r) graph.old graph.new) }
    {
        for value in values {
            self.value(value, graph)?;
        }
        Ok(())
    }

    /// Puts in an edge from the rule that the name means, if it means one.
    fn call(&self, name: &Name, graph: &mut Graph) -> Result<(), NoMemory>
        requires { IsCaller self.now graph.old }
        ensures { OnOk result (AddsCalls self.now.number (λ r. (rule : Rule) × IsRule self.now.lexicon.g.now name.now r rule) graph.old graph.new) }
    {
        match self.lexicon.numbers.called(self.lexicon.g, name) {
            Called::Rule(callee, _) => graph.add(callee, self.number),
            Called::Terminal(..) => Ok(()),
            Called::Nothing => Ok(()),
        }
    }

    /// Puts in an edge from the rule that reads a cross-reference to this type, where this rule is written or none.
    fn cross(
        &self,
        wanted: &Name,
        written: &Option<Name>,
        graph: &mut Graph,
    ) -> Result<(), NoMemory>
        requires { IsCaller self.now graph.old }
        ensures { OnOk result (AddsCalls self.now.number
            (λ r. (name : List ℕ) × IsReadBy self.now.lexicon.g.now wanted.now written.now name × ((rule : Rule) × IsRule self.now.lexicon.g.now name r rule))
            graph.old graph.new) }
    {
        match self.lexicon.read_by(wanted, written) {
            Some(name) => self.call(name, graph),
            None => Ok(()),
        }
    }
}
