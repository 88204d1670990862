// The numbers of a grammar's names.
ghost use Rattle.std.specs.Prelude.{◌≡◌, ◌<◌, ◌≤◌, ℕ, Some, IfOk, MatchOption, bytes_eq, length, option_map, position, slice_get};
ghost use Rattle.lw_grammar.specs.declared.grammar.Grammar.{Grammar};
ghost use Rattle.lw_grammar.specs.Size.{size};
ghost use Rattle.lw_numbers.specs.Numbering.{IsNumbered, type_names, property_names};
ghost use Rattle.lw_numbers.specs.Tables.{AreNumbersOf};

use crate::first_uses::FirstUses;
use crate::standing::{StandingTable, number_ahead, standings};
use lw_base::{Name, NoMemory, PropId, RuleId, TypeId};
use lw_grammar::Grammar;
use std::alloc::Global;
use std::marker::Model;

/// The numbers of the names of a grammar's rules, terminals, types and properties.
pub struct Numbers {
    pub(crate) rules: StandingTable,
    pub(crate) terminals: StandingTable,
    pub(crate) interfaces: StandingTable,
    pub(crate) unions: StandingTable,
    uses: FirstUses,
}

impl Drop for Numbers {
    // In one place, so that whoever drops such a value sees one call and not the drops of all its parts.
    fn drop(self) {
        let Numbers {
            rules: _,
            terminals: _,
            interfaces: _,
            unions: _,
            uses: _,
        } = self;
    }
}

impl Model for Numbers {
    ghost use Rattle.std.specs.Prelude.{◌≤◌, length};
    ghost use Rattle.lw_numbers.specs.Tables.{Tables};

    ghost Value = { Tables };

    ghost view = { λ a. record { rules = a.rules.by_name.entries; terminals = a.terminals.by_name.entries; interfaces = a.interfaces.by_name.entries; unions = a.unions.by_name.entries; types = a.uses.types.keys; properties = a.uses.properties.keys } };

    ghost invariant = { λ a. (length a.uses.types.keys ≤ 65535) × (length a.uses.properties.keys ≤ 65535) };
}

impl Numbers {
    /// The numbers of a grammar's names, in expected linear time.
    pub fn of(alloc: Global, g: &Grammar) -> Result<Numbers, NoMemory>
        requires { size g.now ≤ 65535 }
        ensures { IfOk result (AreNumbersOf g.now) }
    {
        let uses = FirstUses::of(alloc, g)?;
        let rules = standings(alloc, 0, g.rules.as_slice())?;
        let terminals = standings(alloc, g.rules.len() as u16, g.terminals.as_slice())?;
        let interfaces = standings(alloc, 0, g.interfaces.as_slice())?;
        let unions = standings(alloc, 0, g.unions.as_slice())?;
        Ok(Numbers {
            rules,
            terminals,
            interfaces,
            unions,
            uses,
        })
    }

    /// The number of the rule or terminal that the name means. Where a rule and a terminal of this name
    /// stand at one place, it means neither.
    pub fn rule(&self, name: &Name) -> Option<RuleId>
        ensures { (g : Grammar) → AreNumbersOf g self.now →
            MatchOption result ((n : ℕ) → ¬ IsNumbered g name.now n) (λ id. IsNumbered g name.now id.0) }
    {
        let rule = self.rules.by_name.get(name);
        let terminal = self.terminals.by_name.get(name);
        let number = match number_ahead(rule, terminal) {
            Some(number) => number,
            None => number_ahead(terminal, rule)?,
        };
        Some(RuleId(number))
    }

    /// The number of the type of this name.
    pub fn type_of(&self, name: &Name) -> Option<TypeId>
        ensures { (g : Grammar) → AreNumbersOf g self.now → option_map (λ id. id.0) result ≡ position (bytes_eq name.now) (type_names g) }
    {
        let number = self.uses.types.get_index_of(name)?;
        Some(TypeId(number as u16))
    }

    /// The number of the property of this name.
    pub fn prop(&self, name: &Name) -> Option<PropId>
        ensures { (g : Grammar) → AreNumbersOf g self.now → option_map (λ id. id.0) result ≡ position (bytes_eq name.now) (property_names g) }
    {
        let number = self.uses.properties.get_index_of(name)?;
        Some(PropId(number as u16))
    }

    /// How many types have names. Their numbers are those below.
    pub fn type_count(&self) -> usize
        ensures count { result ≡ length self.now.types }
        ensures small { result ≤ 65535 }
    {
        self.uses.types.len()
    }

    /// How many properties have names. Their numbers are those below.
    pub fn prop_count(&self) -> usize
        ensures count { result ≡ length self.now.properties }
        ensures small { result ≤ 65535 }
    {
        self.uses.properties.len()
    }

    /// The name of a type.
    pub fn type_name(&self, t: TypeId) -> &Name
        requires { t.0 < length self.now.types }
        ensures { (g : Grammar) → AreNumbersOf g self.now → slice_get (type_names g) t.0 ≡ Some result.now }
    {
        &self.uses.types.as_slice()[t.0 as usize]
    }

    /// The name of a property.
    pub fn prop_name(&self, p: PropId) -> &Name
        requires { p.0 < length self.now.properties }
        ensures { (g : Grammar) → AreNumbersOf g self.now → slice_get (property_names g) p.0 ≡ Some result.now }
    {
        &self.uses.properties.as_slice()[p.0 as usize]
    }
}
