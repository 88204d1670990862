// The names of types and of properties, as a grammar first uses them.
ghost use Rattle.std.specs.Prelude.{◌≡◌, [], ◌∷◌, OnOk, IfOk, bytes_eq, map};
ghost use Rattle.std.specs.List.{flat_map};
ghost use Rattle.std.specs.Option.{option_copied};
ghost use Rattle.indexmap.specs.IndexSet.{insert_key};
ghost use Rattle.lw_grammar.specs.Leaves.{Act};
ghost use Rattle.lw_numbers.specs.Numbering.{rule_types, result_types, if_whole, leaf_types, leaf_properties, type_names, property_names};
ghost use Rattle.lw_numbers.specs.FirstUses.{Puts, types_in, properties_in, rule_properties, attribute_names, name_list};

use indexmap::IndexSet;
use lw_base::{Name, NoMemory};
use lw_grammar::{Action, Element, Grammar, Interface, Rule, RuleResult, UnionDef};
use std::alloc::Global;

/// The names of types and of properties, each at its first use.
pub struct FirstUses {
    pub(crate) types: IndexSet<Name>,
    pub(crate) properties: IndexSet<Name>,
}

impl Drop for FirstUses {
    // In one place, so that whoever drops such a value sees one call and not the drops of all its parts.
    fn drop(self) {
        let FirstUses {
            types: _,
            properties: _,
        } = self;
    }
}

/// Puts the name behind the others, unless it is one of them.
fn put(alloc: Global, names: &mut IndexSet<Name>, name: &Name) -> Result<(), NoMemory>
    ensures { OnOk result (names.new.keys ≡ insert_key bytes_eq names.old.keys name.now) }
{
    if !names.contains(name) {
        names.insert(name.copy(alloc)?)?;
    }
    Ok(())
}

/// The type that a rule's result is of, where it is a type of nodes.
fn result_type(rule: &Rule) -> Option<&Name>
    ensures { name_list (option_copied result) ≡ if_whole rule.now.is_fragment (result_types rule.now rule.now.result) }
{
    if rule.is_fragment {
        return None;
    }
    match &rule.result {
        RuleResult::Own => Some(&rule.name),
        RuleResult::Returns(name, _) | RuleResult::Infers(name, _) => Some(name),
        RuleResult::Gives(_) => None,
    }
}

impl FirstUses {
    /// Those of a grammar.
    pub(crate) fn of(alloc: Global, g: &Grammar) -> Result<FirstUses, NoMemory>
        ensures types { IfOk result (λ uses. uses.types.keys ≡ type_names g.now) }
        ensures properties { IfOk result (λ uses. uses.properties.keys ≡ property_names g.now) }
    {
        let mut uses = FirstUses {
            types: IndexSet::new(alloc),
            properties: IndexSet::new(alloc),
        };
        uses.put_interfaces(alloc, g.interfaces.as_slice())?;
        uses.put_unions(alloc, g.unions.as_slice())?;
        uses.put_rules(alloc, g.rules.as_slice())?;
        Ok(uses)
    }

    fn put_interfaces(&mut self, alloc: Global, interfaces: &[Interface]) -> Result<(), NoMemory>
        ensures { OnOk result (Puts (map (λ i. i.name) interfaces.now) (flat_map attribute_names interfaces.now) self.old self.new) }
    {
        for interface in interfaces {
            self.put_interface(alloc, interface)?;
        }
        Ok(())
    }

    fn put_interface(&mut self, alloc: Global, interface: &Interface) -> Result<(), NoMemory>
        ensures { OnOk result (Puts (interface.now.name ∷ []) (attribute_names interface.now) self.old self.new) }
    {
        self.put_type(alloc, &interface.name)?;
        for attribute in interface.attributes.as_slice() {
            self.put_property(alloc, &attribute.name)?;
        }
        Ok(())
    }

    fn put_unions(&mut self, alloc: Global, unions: &[UnionDef]) -> Result<(), NoMemory>
        ensures { OnOk result (Puts (map (λ u. u.name) unions.now) [] self.old self.new) }
    {
        for union in unions {
            self.put_type(alloc, &union.name)?;
        }
        Ok(())
    }

    fn put_rules(&mut self, alloc: Global, rules: &[Rule]) -> Result<(), NoMemory>
        ensures { OnOk result (Puts (flat_map rule_types rules.now) (flat_map rule_properties rules.now) self.old self.new) }
    {
        for rule in rules {
            self.put_rule(alloc, rule)?;
        }
        Ok(())
    }

    fn put_rule(&mut self, alloc: Global, rule: &Rule) -> Result<(), NoMemory>
        ensures { OnOk result (Puts (rule_types rule.now) (rule_properties rule.now) self.old self.new) }
    {
        if let Some(name) = result_type(rule) {
            self.put_type(alloc, name)?;
        }
        self.put_element(alloc, &rule.body)
    }

    #[cycle(elements)]
    #[tactic(auto, using(crate::proofs::Gathering::element_names))]
    fn put_element(&mut self, alloc: Global, element: &Element) -> Result<(), NoMemory>
        ensures { OnOk result (Puts (types_in element.now) (properties_in element.now) self.old self.new) }
    {
        match element {
            Element::Keyword(..) | Element::Call(..) => Ok(()),
            Element::Assign(property, ..) => self.put_property(alloc, property),
            Element::Act(action) => self.put_action(alloc, action),
            Element::Group(parts, _) | Element::Choice(parts, _) => {
                self.put_elements(alloc, parts.as_slice())
            }
            Element::Maybe(part, _) | Element::Many(part, _) | Element::Some1(part, _) => {
                self.put_element(alloc, part.get())
            }
        }
    }

    #[cycle(elements)]
    fn put_elements(&mut self, alloc: Global, elements: &[Element]) -> Result<(), NoMemory>
        ensures { OnOk result (Puts (flat_map types_in elements.now) (flat_map properties_in elements.now) self.old self.new) }
    {
        for element in elements {
            self.put_element(alloc, element)?;
        }
        Ok(())
    }

    fn put_action(&mut self, alloc: Global, action: &Action) -> Result<(), NoMemory>
        ensures { OnOk result (Puts (leaf_types (Act action.now)) (leaf_properties (Act action.now)) self.old self.new) }
    {
        self.put_type(alloc, &action.type_name)?;
        if let Some((property, _)) = &action.put {
            self.put_property(alloc, property)?;
        }
        Ok(())
    }

    fn put_type(&mut self, alloc: Global, name: &Name) -> Result<(), NoMemory>
        ensures { OnOk result (Puts (name.now ∷ []) [] self.old self.new) }
    {
        put(alloc, &mut self.types, name)
    }

    fn put_property(&mut self, alloc: Global, name: &Name) -> Result<(), NoMemory>
        ensures { OnOk result (Puts [] (name.now ∷ []) self.old self.new) }
    {
        put(alloc, &mut self.properties, name)
    }
}
