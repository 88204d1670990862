// What is known of the types of a grammar.
ghost use Rattle.std.specs.Prelude.{ℕ, ◌≡◌, ◌<◌, ◌≤◌, ◌↔◌, List, IfOk, IsTrue, Some, length, slice_get};
ghost use Rattle.lw_grammar.specs.declared.grammar.Grammar.{Grammar};
ghost use Rattle.lw_grammar.specs.Size.{size};
ghost use Rattle.lw_grammar.specs.Subtypes.{IsSubtype};
ghost use Rattle.lw_numbers.specs.Numbering.{type_names};
ghost use Rattle.lw_numbers.specs.Tables.{AreNumbersOf};
ghost use Rattle.lw_types.specs.Facts.{AreRuleFactsOf, AreTypeFactsOf};
ghost use Rattle.lw_types.specs.Inferred.{AreTypesOf};
ghost use Rattle.lw_types.specs.Sets.{AreNumbersBelow};

use crate::sets::subtype_sets;
use lw_base::{Name, NoMemory, TypeId, TypeSet};
use lw_flow::Ways;
use lw_grammar::Grammar;
use lw_numbers::Numbers;
use lw_numbers::name_rules::NameRules;
use lw_numbers::subtypes::{Subtypes, node_rules};
use std::alloc::Global;

/// What is known of the rules of a grammar.
pub struct RuleFacts {
    numbers: Numbers,
    /// For each rule by its number: whether it makes nodes.
    nodes: Vec<bool>,
    ways: Ways,
}

impl Drop for RuleFacts {
    // In one place, so that whoever drops such a value sees one call and not the drops of all its parts.
    fn drop(self) {
        let RuleFacts {
            numbers: _,
            nodes: _,
            ways: _,
        } = self;
    }
}

impl RuleFacts {
    fn of(alloc: Global, g: &Grammar) -> Result<RuleFacts, NoMemory>
        requires { size g.now ≤ 65535 }
        ensures { IfOk result (AreRuleFactsOf g.now) }
    {
        let numbers = Numbers::of(alloc, g)?;
        let nodes = node_rules(alloc, g, &numbers)?;
        let ways = Ways::of(alloc, g, &numbers, nodes.as_slice())?;
        Ok(RuleFacts {
            numbers,
            nodes,
            ways,
        })
    }
}

/// What is known of how the types of a grammar stand to each other.
pub struct TypeFacts {
    subtypes: Subtypes,
    /// By the number of a type, those that are it or below it.
    below: Vec<TypeSet>,
    name_rules: NameRules,
}

impl Drop for TypeFacts {
    // In one place, so that whoever drops such a value sees one call and not the drops of all its parts.
    fn drop(self) {
        let TypeFacts {
            subtypes: _,
            below: _,
            name_rules: _,
        } = self;
    }
}

impl TypeFacts {
    fn of(alloc: Global, g: &Grammar, numbers: &Numbers) -> Result<TypeFacts, NoMemory>
        requires numbers { AreNumbersOf g.now numbers.now }
        requires small { size g.now ≤ 65535 }
        ensures { IfOk result (AreTypeFactsOf g.now (length numbers.now.types)) }
    {
        let subtypes = Subtypes::of(alloc, g, numbers)?;
        let below = subtype_sets(alloc, numbers, &subtypes)?;
        let name_rules = NameRules::of(alloc, g, numbers, &subtypes)?;
        Ok(TypeFacts {
            subtypes,
            below,
            name_rules,
        })
    }
}

/// What is known of the types of a grammar, and of its names and rules.
pub struct Types {
    rules: RuleFacts,
    types: TypeFacts,
}

impl Drop for Types {
    // In one place, so that whoever drops such a value sees one call and not the drops of all its parts.
    fn drop(self) {
        let Types { rules: _, types: _ } = self;
    }
}

impl Types {
    /// What is known of the types of this grammar, whatever is wrong with it.
    pub(crate) fn of(alloc: Global, g: &Grammar) -> Result<Types, NoMemory>
        requires { size g.now ≤ 65535 }
        ensures { IfOk result (AreTypesOf g.now) }
    {
        let rules = RuleFacts::of(alloc, g)?;
        let types = TypeFacts::of(alloc, g, &rules.numbers)?;
        Ok(Types { rules, types })
    }

    /// The numbers of the grammar's names, and what names mean.
    pub fn numbers(&self) -> &Numbers
        ensures { result.now ≡ self.now.rules.numbers }
    {
        &self.rules.numbers
    }

    /// For each rule by its number: whether it makes nodes.
    pub fn nodes(&self) -> &[bool]
        ensures { result.now ≡ self.now.rules.nodes.items }
    {
        self.rules.nodes.as_slice()
    }

    /// Which types are below which, by name.
    pub fn subtypes(&self) -> &Subtypes
        ensures { result.now ≡ self.now.types.subtypes }
    {
        &self.types.subtypes
    }

    /// By which rules cross-references are read that name none.
    pub fn name_rules(&self) -> &NameRules
        ensures { result.now ≡ self.now.types.name_rules }
    {
        &self.types.name_rules
    }

    /// What may come before each leaf of a rule.
    pub fn ways(&self) -> &Ways
        ensures { result.now ≡ self.now.rules.ways }
    {
        &self.rules.ways
    }

    /// The name of the type of this number.
    pub fn type_name(&self, t: TypeId) -> &Name
        requires { t.0 < length self.now.rules.numbers.types }
        ensures { (g : Grammar) → AreTypesOf g self.now → slice_get (type_names g) t.0 ≡ Some result.now }
    {
        self.rules.numbers.type_name(t)
    }

    /// Whether the one type is the other or below it, in expected constant time for the names and logarithmic time in how many types are
    /// above the one.
    pub fn is_sub(&self, one: TypeId, other: TypeId) -> bool
        requires one { one.0 < length self.now.rules.numbers.types }
        requires other { other.0 < length self.now.rules.numbers.types }
        ensures { (g : Grammar) (low high : List ℕ) → AreTypesOf g self.now → slice_get (type_names g) one.0 ≡ Some low → slice_get (type_names g) other.0 ≡ Some high →
            IsTrue result ↔ IsSubtype g low high }
    {
        let one = self.rules.numbers.type_name(one);
        let other = self.rules.numbers.type_name(other);
        self.types.subtypes.is_below(one, other)
    }

    /// The types that are the one of this number or below it, in constant time.
    pub fn subs(&self, t: TypeId) -> &TypeSet
        requires { t.0 < length self.now.types.below.items }
        ensures { (g : Grammar) (high : List ℕ) → AreTypesOf g self.now → slice_get (type_names g) t.0 ≡ Some high → AreNumbersBelow g high result.now }
    {
        &self.types.below[t.0 as usize]
    }
}
