// Interfaces and unions that lie on circles, and interfaces that extend what is none.
ghost use Rattle.std.specs.Prelude.{ℕ, ◌≡◌, ◌<◌, ◌↔◌, [], IsTrue, Some, MatchOption, Contains, OnOk, IfOk, slice_get};
ghost use Rattle.lw_grammar.specs.declared.declared_types.Interface.{Interface};
ghost use Rattle.lw_grammar.specs.declared.declared_types.UnionDef.{UnionDef};
ghost use Rattle.lw_grammar.specs.Named.{IsInterface, IsUnion};
ghost use Rattle.lw_faults.specs.Finding.{Finds, OfSome, AtSome};
ghost use Rattle.lw_types.specs.Rounds.{AreRound, ToInterface, Extends, ToUnion, ByMember, HasMembers, TellsInterface, TellsUnion, CircularInterface, CircularUnion, IsNoInterface, ExtendsOther, TellsOther};
ghost use Rattle.lw_types.specs.Wrong.{KnowsNames};

use crate::naming::names::KnownNames;
use lw_base::{Name, NoMemory};
use lw_faults::FaultKind;
use lw_faults::findings::Findings;
use lw_grammar::{Interface, Member, UnionDef};
use lw_graph::{Graph, NodeSet};
use lw_numbers::Declares;
use std::alloc::Global;

/// The places that lie on circles, where these edges lead from place to place.
fn circles_of(alloc: Global, places: usize, edges: &[(usize, usize)]) -> Result<NodeSet, NoMemory>
    requires { (a b : ℕ) → Contains edges.now (a, b) → (a < places) × (b < places) }
    ensures { IfOk result (AreRound edges.now) }
{
    let mut graph = Graph::new(alloc, places)?;
    for (from, to) in edges {
        graph.add(*from, *to)?;
    }
    graph.circles(alloc)
}

// ---- interfaces

impl KnownNames<'_> {
    /// Finds each interface that extends itself, over one step or more.
    pub(crate) fn find_interface_circles(
        &self,
        alloc: Global,
        found: &mut Findings,
    ) -> Result<(), NoMemory>
        requires { KnowsNames self.now }
        ensures { OnOk result (Finds (CircularInterface self.now.g.now) found.old found.new) }
    {
        let edges = self.interface_edges(alloc)?;
        let round = circles_of(alloc, self.g.interfaces.len(), edges.as_slice())?;
        self.find_round_interfaces(alloc, &round, found)
    }

    /// From each interface to those that it extends, by their places.
    fn interface_edges(&self, alloc: Global) -> Result<Vec<(usize, usize)>, NoMemory>
        requires { KnowsNames self.now }
        ensures { IfOk result (λ edges. Finds (AtSome (Extends self.now.g.now) self.now.g.now.interfaces) [] edges.items) }
    {
        let mut edges = Vec::new(alloc);
        for (i, interface) in self.g.interfaces.as_slice().iter().enumerate() {
            self.put_extended(i, interface, &mut edges)?;
        }
        Ok(edges)
    }

    fn put_extended(
        &self,
        i: usize,
        interface: &Interface,
        edges: &mut Vec<(usize, usize)>,
    ) -> Result<(), NoMemory>
        requires { KnowsNames self.now }
        ensures { OnOk result (Finds (Extends self.now.g.now i interface.now) edges.old.items edges.new.items) }
    {
        for (name, _) in interface.above.as_slice() {
            self.put_interface(i, name, edges)?;
        }
        Ok(())
    }

    fn put_interface(
        &self,
        i: usize,
        name: &Name,
        edges: &mut Vec<(usize, usize)>,
    ) -> Result<(), NoMemory>
        requires { KnowsNames self.now }
        ensures { OnOk result (Finds (ToInterface self.now.g.now i name.now) edges.old.items edges.new.items) }
    {
        if let Some(place) = self.interface_place(name) {
            edges.push((i, place))?;
        }
        Ok(())
    }

    fn find_round_interfaces(
        &self,
        alloc: Global,
        round: &NodeSet,
        found: &mut Findings,
    ) -> Result<(), NoMemory>
        requires { KnowsNames self.now }
        ensures { OnOk result (Finds (AtSome (TellsInterface self.now.g.now round.now) self.now.g.now.interfaces) found.old found.new) }
    {
        for (i, interface) in self.g.interfaces.as_slice().iter().enumerate() {
            self.find_round_interface(alloc, i, interface, round, found)?;
        }
        Ok(())
    }

    fn find_round_interface(
        &self,
        alloc: Global,
        i: usize,
        interface: &Interface,
        round: &NodeSet,
        found: &mut Findings,
    ) -> Result<(), NoMemory>
        requires knows { KnowsNames self.now }
        requires there { slice_get self.now.g.now.interfaces i ≡ Some interface.now }
        ensures { OnOk result (Finds (TellsInterface self.now.g.now round.now i interface.now) found.old found.new) }
    {
        match self.interface_place(&interface.name) {
            Some(place) if place == i && round.holds(i) => {
                found.add(
                    alloc,
                    FaultKind::CircularType,
                    interface.file,
                    interface.span,
                    &interface.name,
                )
            }
            _ => Ok(()),
        }
    }

    /// The place of the interface that the name means.
    fn interface_place(&self, name: &Name) -> Option<usize>
        requires { KnowsNames self.now }
        ensures { MatchOption result ((i : ℕ) (x : Interface) → ¬ IsInterface self.now.g.now name.now i x) (λ i. (x : Interface) × IsInterface self.now.g.now name.now i x) }
    {
        match self.numbers.declared(self.g, name) {
            Declares::Interface(place, _) => Some(place),
            Declares::Union(..) => None,
            Declares::Nothing => None,
        }
    }
}

// ---- unions

impl KnownNames<'_> {
    /// Finds each union that has itself as a member, over one step or more.
    pub(crate) fn find_union_circles(
        &self,
        alloc: Global,
        found: &mut Findings,
    ) -> Result<(), NoMemory>
        requires { KnowsNames self.now }
        ensures { OnOk result (Finds (CircularUnion self.now.g.now) found.old found.new) }
    {
        let edges = self.union_edges(alloc)?;
        let round = circles_of(alloc, self.g.unions.len(), edges.as_slice())?;
        self.find_round_unions(alloc, &round, found)
    }

    /// From each union to those that are members of it, by their places.
    fn union_edges(&self, alloc: Global) -> Result<Vec<(usize, usize)>, NoMemory>
        requires { KnowsNames self.now }
        ensures { IfOk result (λ edges. Finds (AtSome (HasMembers self.now.g.now) self.now.g.now.unions) [] edges.items) }
    {
        let mut edges = Vec::new(alloc);
        for (u, union) in self.g.unions.as_slice().iter().enumerate() {
            self.put_members(u, union, &mut edges)?;
        }
        Ok(edges)
    }

    fn put_members(
        &self,
        u: usize,
        union: &UnionDef,
        edges: &mut Vec<(usize, usize)>,
    ) -> Result<(), NoMemory>
        requires { KnowsNames self.now }
        ensures { OnOk result (Finds (HasMembers self.now.g.now u union.now) edges.old.items edges.new.items) }
    {
        for member in union.members.as_slice() {
            self.put_member(u, member, edges)?;
        }
        Ok(())
    }

    fn put_member(
        &self,
        u: usize,
        member: &Member,
        edges: &mut Vec<(usize, usize)>,
    ) -> Result<(), NoMemory>
        requires { KnowsNames self.now }
        ensures { OnOk result (Finds (ByMember self.now.g.now u member.now) edges.old.items edges.new.items) }
    {
        match member {
            Member::Named(name, _) => self.put_union(u, name, edges),
            Member::Refers(..) | Member::Plain(_) | Member::Literal(_) => Ok(()),
        }
    }

    fn put_union(
        &self,
        u: usize,
        name: &Name,
        edges: &mut Vec<(usize, usize)>,
    ) -> Result<(), NoMemory>
        requires { KnowsNames self.now }
        ensures { OnOk result (Finds (ToUnion self.now.g.now u name.now) edges.old.items edges.new.items) }
    {
        if let Some(place) = self.union_place(name) {
            edges.push((u, place))?;
        }
        Ok(())
    }

    fn find_round_unions(
        &self,
        alloc: Global,
        round: &NodeSet,
        found: &mut Findings,
    ) -> Result<(), NoMemory>
        requires { KnowsNames self.now }
        ensures { OnOk result (Finds (AtSome (TellsUnion self.now.g.now round.now) self.now.g.now.unions) found.old found.new) }
    {
        for (u, union) in self.g.unions.as_slice().iter().enumerate() {
            self.find_round_union(alloc, u, union, round, found)?;
        }
        Ok(())
    }

    fn find_round_union(
        &self,
        alloc: Global,
        u: usize,
        union: &UnionDef,
        round: &NodeSet,
        found: &mut Findings,
    ) -> Result<(), NoMemory>
        requires knows { KnowsNames self.now }
        requires there { slice_get self.now.g.now.unions u ≡ Some union.now }
        ensures { OnOk result (Finds (TellsUnion self.now.g.now round.now u union.now) found.old found.new) }
    {
        match self.union_place(&union.name) {
            Some(place) if place == u && round.holds(u) => {
                found.add(
                    alloc,
                    FaultKind::CircularType,
                    union.file,
                    union.span,
                    &union.name,
                )
            }
            _ => Ok(()),
        }
    }

    /// The place of the union that the name means.
    fn union_place(&self, name: &Name) -> Option<usize>
        requires { KnowsNames self.now }
        ensures { MatchOption result ((u : ℕ) (x : UnionDef) → ¬ IsUnion self.now.g.now name.now u x) (λ u. (x : UnionDef) × IsUnion self.now.g.now name.now u x) }
    {
        match self.numbers.declared(self.g, name) {
            Declares::Union(place, _) => Some(place),
            Declares::Interface(..) => None,
            Declares::Nothing => None,
        }
    }
}

// ---- interfaces that extend what is none

impl KnownNames<'_> {
    /// Finds each interface that extends a known type which is no interface.
    pub(crate) fn find_extending_others(
        &self,
        alloc: Global,
        found: &mut Findings,
    ) -> Result<(), NoMemory>
        requires { KnowsNames self.now }
        ensures { OnOk result (Finds (OfSome (TellsOther self.now.g.now) self.now.g.now.interfaces) found.old found.new) }
    {
        for interface in self.g.interfaces.as_slice() {
            self.find_extending_other(alloc, interface, found)?;
        }
        Ok(())
    }

    fn find_extending_other(
        &self,
        alloc: Global,
        interface: &Interface,
        found: &mut Findings,
    ) -> Result<(), NoMemory>
        requires { KnowsNames self.now }
        ensures { OnOk result (Finds (TellsOther self.now.g.now interface.now) found.old found.new) }
    {
        if !self.extends_other(interface) {
            return Ok(());
        }
        found.add(
            alloc,
            FaultKind::CircularType,
            interface.file,
            interface.span,
            &interface.name,
        )
    }

    fn extends_other(&self, interface: &Interface) -> bool
        requires { KnowsNames self.now }
        ensures { IsTrue result ↔ ExtendsOther self.now.g.now interface.now }
    {
        for (name, _) in interface.above.as_slice() {
            if self.is_no_interface(name) {
                return true;
            }
        }
        false
    }

    /// Whether the name is a known type's that is no interface.
    fn is_no_interface(&self, name: &Name) -> bool
        requires { KnowsNames self.now }
        ensures { IsTrue result ↔ IsNoInterface self.now.g.now name.now }
    {
        self.is_known(name) && self.interface_place(name).is_none()
    }
}
