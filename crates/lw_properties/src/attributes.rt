// The attributes of declared types.
ghost use Rattle.std.specs.Prelude.{◌≡◌, ◌++◌, List, ℕ, Some, IfOk, OnOk, MatchOption, bytes_eq, cond, map};
ghost use Rattle.std.specs.List.{find};
ghost use Rattle.std.specs.Map.{lookup};
ghost use Rattle.lw_grammar.specs.declared.grammar.Grammar.{Grammar};
ghost use Rattle.lw_faults.specs.Attributes.{HasAttribute, HasNoAttribute};
ghost use Rattle.lw_numbers.specs.Tables.{AreNumbersOf};
ghost use Rattle.lw_properties.specs.Known.{AreAttributesOf};
ghost use Rattle.lw_properties.specs.Search.{AreFirsts, ServesFor, attributes_of};

use crate::lineage::lineage;
use indexmap::IndexMap;
use lw_base::{Name, NoMemory};
use lw_grammar::{Attribute, Grammar, Interface};
use lw_numbers::Numbers;
use std::alloc::Global;
use std::marker::Model;

/// The attributes of a type by their names.
struct Firsts<'g> {
    by_name: IndexMap<Name, &'g Attribute>,
}

impl Drop for Firsts<'_> {
    // In one place, so that whoever drops such a value sees one call and not the drops of all its parts.
    fn drop(self) {
        let Firsts { by_name: _ } = self;
    }
}

/// The attributes of a list of interfaces by their names, of each name the first.
fn first_attributes<'g>(alloc: Global, order: &[&'g Interface]) -> Result<Firsts<'g>, NoMemory>
    ensures { IfOk result (λ firsts. AreFirsts (attributes_of (map (λ i. i.now) order.now)) firsts.by_name.entries) }
{
    let mut firsts = Firsts {
        by_name: IndexMap::new(alloc),
    };
    for interface in order {
        put_attributes(alloc, &mut firsts, interface.attributes.as_slice())?;
    }
    Ok(firsts)
}

/// The attributes of the declared type of this name.
fn type_attributes<'g>(
    alloc: Global,
    g: &'g Grammar,
    numbers: &Numbers,
    name: &'g Name,
) -> Result<Firsts<'g>, NoMemory>
    requires { AreNumbersOf g.now numbers.now }
    ensures { IfOk result (λ firsts. ServesFor g.now name.now firsts.by_name.entries) }
{
    let order = lineage(alloc, g, numbers, name)?;
    first_attributes(alloc, order.as_slice())
}

/// Puts in the attributes whose names are not there yet.
fn put_attributes<'g>(
    alloc: Global,
    firsts: &mut Firsts<'g>,
    attributes: &'g [Attribute],
) -> Result<(), NoMemory>
    ensures { OnOk result ((before : List Attribute) → AreFirsts before firsts.old.by_name.entries →
        AreFirsts (before ++ attributes.now) firsts.new.by_name.entries) }
{
    for attribute in attributes {
        if !firsts.by_name.contains_key(&attribute.name) {
            let name = attribute.name.copy(alloc)?;
            firsts.by_name.insert(name, attribute)?;
        }
    }
    Ok(())
}

/// The attributes of each declared type.
pub struct Attributes<'g> {
    known: IndexMap<Name, Firsts<'g>>,
}

impl Drop for Attributes<'_> {
    // In one place, so that whoever drops such a value sees one call and not the drops of all its parts.
    fn drop(self) {
        let Attributes { known: _ } = self;
    }
}

impl<'g> Model for Attributes<'g> {
    ghost use Rattle.std.specs.Prelude.{map};
    ghost use Rattle.lw_properties.specs.Known.{KnownAttributes};

    ghost Value = { KnownAttributes };

    ghost view = { λ a. map (λ e. (e.0, e.1.by_name.entries)) a.known.entries };
}

impl<'g> Attributes<'g> {
    /// Those of a grammar.
    pub fn of(alloc: Global, g: &'g Grammar, numbers: &Numbers) -> Result<Attributes<'g>, NoMemory>
        requires { AreNumbersOf g.now numbers.now }
        ensures { IfOk result (λ attributes. AreAttributesOf g.now attributes) }
    {
        let mut attributes = Attributes {
            known: IndexMap::new(alloc),
        };
        for interface in g.interfaces.as_slice() {
            let firsts = type_attributes(alloc, g, numbers, &interface.name)?;
            attributes.put(alloc, &interface.name, firsts)?;
        }
        Ok(attributes)
    }

    /// These are those of the type of this name.
    fn put(&mut self, alloc: Global, name: &Name, firsts: Firsts<'g>) -> Result<(), NoMemory>
        ensures { OnOk result ((q : List ℕ) → lookup (bytes_eq q) self.new ≡ cond (bytes_eq name.now q) (Some firsts.entry.by_name.entries) (lookup (bytes_eq q) self.old)) }
    {
        let key = name.copy(alloc)?;
        self.known.insert(key, firsts)?;
        Ok(())
    }

    /// The attribute of this name that the type has, in expected constant time.
    pub fn attribute(&self, type_name: &Name, p: &Name) -> Option<&'g Attribute>
        ensures { (g : Grammar) → AreAttributesOf g self.now →
            MatchOption result (HasNoAttribute g type_name.now p.now) (λ a. HasAttribute g type_name.now p.now a.now) }
    {
        self.known.get(type_name)?.by_name.get(p).copied()
    }
}
