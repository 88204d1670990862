// The graph in which each type is reached from those that are below it.
ghost use Rattle.std.specs.Prelude.{◌≡◌, ◌<◌, ◌≤◌, ℕ, IfOk, OnOk, MatchOption, length, map, bytes_eq};
ghost use Rattle.std.specs.List.{IsDistinct};
ghost use Rattle.lw_grammar.specs.Size.{size};
ghost use Rattle.lw_graph.specs.Walks.{HasEdge};
ghost use Rattle.lw_numbers.specs.Parts.{leaf_of};
ghost use Rattle.lw_numbers.specs.Tables.{AreNumbersOf};
ghost use Rattle.lw_numbers.specs.Kin.{HasNumber, IsEdge, ExtendsUp, InterfaceLeads, HoldsUp, UnionLeads, LeafLeads, LeavesLead, ResultLeads, RuleLeads};
ghost use Rattle.lw_numbers.specs.KinOf.{kin_of};
ghost use Rattle.lw_numbers.specs.KinGraph.{HasRoomYet, HasRoomFor, HasRoomForNames, IsKinship, PutsKin};
ghost use Rattle.lw_numbers.specs.Lists.{SomeAt};

use crate::Numbers;
use crate::leaves::{BodyLeaf, body_leaves};
use crate::subtypes::declared::{is_meant_interface, is_meant_union};
use crate::subtypes::kin::{Kin, put_up};
use crate::subtypes::names::{TypeNames, names};
use crate::subtypes::types::inferred_type;
use indexmap::IndexSet;
use lw_base::{Name, NoMemory};
use lw_grammar::{Grammar, Interface, Member, Rule, UnionDef};
use lw_graph::Graph;
use std::alloc::Global;

/// The names of types, and which is directly below which. A body stands for what is read at its level.
pub(crate) struct Kinship {
    pub(crate) names: IndexSet<Name>,
    /// The names by their numbers, and behind them the bodies of the rules.
    pub(crate) graph: Graph,
}

impl Drop for Kinship {
    // In one place, so that whoever drops such a value sees one call and not the drops of all its parts.
    fn drop(self) {
        let Kinship { names: _, graph: _ } = self;
    }
}

impl Kinship {
    /// That of a grammar.
    pub(crate) fn of(alloc: Global, g: &Grammar, numbers: &Numbers) -> Result<Kinship, NoMemory>
        requires numbers { AreNumbersOf g.now numbers.now }
        requires small { size g.now ≤ 65535 }
        ensures { IfOk result (IsKinship g.now) }
    {
        let names = names(alloc, g, numbers)?;
        let mut kinship = Kinship::unrelated(alloc, g, names)?;
        kinship.put_interfaces(g, numbers)?;
        kinship.put_unions(g, numbers)?;
        kinship.put_rules(alloc, g, numbers)?;
        Ok(kinship)
    }

    /// These names, and none below another.
    fn unrelated(alloc: Global, g: &Grammar, names: TypeNames) -> Result<Kinship, NoMemory>
        requires { size g.now ≤ 65535 }
        ensures names { IfOk result (λ kinship. kinship.names.keys ≡ names.set.keys) }
        ensures distinct { IfOk result (λ kinship. IsDistinct bytes_eq kinship.names.keys) }
        ensures room { IfOk result (HasRoomYet g.now) }
        ensures empty { IfOk result (λ kinship. (a b : ℕ) → ¬ HasEdge kinship.graph a b) }
    {
        let graph = Graph::new(alloc, names.set.len() + g.rules.len())?;
        Ok(Kinship {
            names: names.into_set(),
            graph,
        })
    }

    /// The names alone.
    pub(crate) fn into_names(self) -> IndexSet<Name>
        ensures { result ≡ self.names }
    {
        let Kinship { names, graph: _ } = self;
        names
    }

    /// Puts in what interfaces extend.
    fn put_interfaces(&mut self, g: &Grammar, numbers: &Numbers) -> Result<(), NoMemory>
        requires numbers { AreNumbersOf g.now numbers.now }
        requires room { HasRoomYet g.now self.old }
        ensures { OnOk result (PutsKin (λ from to. SomeAt g.now.interfaces (λ k interface. InterfaceLeads g.now k interface from to)) self.old self.new) }
    {
        for (number, interface) in g.interfaces.as_slice().iter().enumerate() {
            if is_meant_interface(g, numbers, number, interface) {
                self.put_interface(interface)?;
            }
        }
        Ok(())
    }

    fn put_interface(&mut self, interface: &Interface) -> Result<(), NoMemory>
        requires { HasRoomForNames self.old }
        ensures { OnOk result (PutsKin (ExtendsUp interface.now) self.old self.new) }
    {
        for (above, _) in interface.above.as_slice() {
            self.put(Kin::Type(&interface.name), Kin::Type(above))?;
        }
        Ok(())
    }

    /// Puts in the members of unions.
    fn put_unions(&mut self, g: &Grammar, numbers: &Numbers) -> Result<(), NoMemory>
        requires numbers { AreNumbersOf g.now numbers.now }
        requires room { HasRoomYet g.now self.old }
        ensures { OnOk result (PutsKin (λ from to. SomeAt g.now.unions (λ k union. UnionLeads g.now k union from to)) self.old self.new) }
    {
        for (number, union) in g.unions.as_slice().iter().enumerate() {
            if is_meant_union(g, numbers, number, union) {
                self.put_union(union)?;
            }
        }
        Ok(())
    }

    fn put_union(&mut self, union: &UnionDef) -> Result<(), NoMemory>
        requires { HasRoomForNames self.old }
        ensures { OnOk result (PutsKin (HoldsUp union.now) self.old self.new) }
    {
        for member in union.members.as_slice() {
            if let Member::Named(name, _) = member {
                self.put(Kin::Type(name), Kin::Type(&union.name))?;
            }
        }
        Ok(())
    }

    /// Puts in what is inferred from rules.
    fn put_rules(&mut self, alloc: Global, g: &Grammar, numbers: &Numbers) -> Result<(), NoMemory>
        requires numbers { AreNumbersOf g.now numbers.now }
        requires room { HasRoomYet g.now self.old }
        ensures { OnOk result (PutsKin (λ from to. SomeAt g.now.rules (λ k rule. RuleLeads g.now k rule from to)) self.old self.new) }
    {
        for (number, rule) in g.rules.as_slice().iter().enumerate() {
            self.put_rule(alloc, g, numbers, number, rule)?;
        }
        Ok(())
    }

    fn put_rule(
        &mut self,
        alloc: Global,
        g: &Grammar,
        numbers: &Numbers,
        number: usize,
        rule: &Rule,
    ) -> Result<(), NoMemory>
        requires numbers { AreNumbersOf g.now numbers.now }
        requires room { HasRoomYet g.now self.old }
        requires number { number < length g.now.rules }
        ensures { OnOk result (PutsKin (RuleLeads g.now number rule.now) self.old self.new) }
    {
        let found = body_leaves(alloc, &rule.body)?;
        self.put_leaves(g, numbers, number, found.as_slice())?;
        self.put_result(g, numbers, number, rule)?;
        Ok(())
    }

    /// Puts in what these leaves of the body of the rule of this number put up.
    fn put_leaves(
        &mut self,
        g: &Grammar,
        numbers: &Numbers,
        number: usize,
        found: &[BodyLeaf<'_>],
    ) -> Result<(), NoMemory>
        requires numbers { AreNumbersOf g.now numbers.now }
        requires room { HasRoomYet g.now self.old }
        requires number { number < length g.now.rules }
        ensures { OnOk result (PutsKin (LeavesLead g.now number (map leaf_of found.now)) self.old self.new) }
    {
        for leaf in found {
            self.put_leaf(g, numbers, number, leaf)?;
        }
        Ok(())
    }

    fn put_leaf(
        &mut self,
        g: &Grammar,
        numbers: &Numbers,
        number: usize,
        leaf: &BodyLeaf<'_>,
    ) -> Result<(), NoMemory>
        requires numbers { AreNumbersOf g.now numbers.now }
        requires room { HasRoomYet g.now self.old }
        requires number { number < length g.now.rules }
        ensures { OnOk result (PutsKin (LeafLeads g.now number (leaf_of leaf.now)) self.old self.new) }
    {
        if let Some(below) = put_up(g, numbers, leaf) {
            self.put(below, Kin::Body(number))?;
        }
        Ok(())
    }

    /// Puts the body of the rule of this number below the type that is inferred from it.
    fn put_result(
        &mut self,
        g: &Grammar,
        numbers: &Numbers,
        number: usize,
        rule: &Rule,
    ) -> Result<(), NoMemory>
        requires numbers { AreNumbersOf g.now numbers.now }
        requires room { HasRoomYet g.now self.old }
        requires number { number < length g.now.rules }
        ensures { OnOk result (PutsKin (ResultLeads g.now number rule.now) self.old self.new) }
    {
        if let Some(above) = inferred_type(g, numbers, rule) {
            self.put(Kin::Body(number), Kin::Type(above))?;
        }
        Ok(())
    }

    /// Puts the one below the other, where both have numbers.
    fn put(&mut self, below: Kin<'_>, above: Kin<'_>) -> Result<(), NoMemory>
        requires below { HasRoomFor self.old (kin_of below) }
        requires above { HasRoomFor self.old (kin_of above) }
        ensures { OnOk result (PutsKin (IsEdge (kin_of below.entry) (kin_of above.entry)) self.old self.new) }
    {
        if let (Some(from), Some(to)) = (self.number(below), self.number(above)) {
            self.graph.add(from, to)?;
        }
        Ok(())
    }

    /// The number of a node, unless it is a type that none speaks of.
    fn number(&self, kin: Kin<'_>) -> Option<usize>
        requires { HasRoomFor self.now (kin_of kin) }
        ensures { MatchOption result ((n : ℕ) → ¬ HasNumber self.now.names.keys (kin_of kin.entry) n)
            (λ n. HasNumber self.now.names.keys (kin_of kin.entry) n × (n < self.now.graph.nodes)) }
    {
        match kin {
            Kin::Type(name) => self.names.get_index_of(name),
            Kin::Body(rule) => Some(self.names.len() + rule),
        }
    }
}
