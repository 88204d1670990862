// Which types rules have.
ghost use Rattle.std.specs.Prelude.{ℕ, ◌≡◌, ◌↔◌, Some, true, IsTrue, IfOk, length, slice_get, option_map};
ghost use Rattle.lw_grammar.specs.declared.grammar.Grammar.{Grammar};
ghost use Rattle.lw_numbers.specs.Tables.{AreNumbersOf};
ghost use Rattle.lw_numbers.specs.Kinship.{AreNodeRules};
ghost use Rattle.lw_properties.specs.Typed.{AreTextTypes, AreNodeTypes, AreTypesOfRules, HasTypeNumber, IsMarked};

use crate::kinds::type_of;
use lw_base::{Name, NoMemory, TypeId};
use lw_grammar::{Grammar, Rule};
use lw_numbers::Numbers;
use std::alloc::Global;

/// A flag for each type, by its number: it is that of a data type rule.
pub fn text_types(
    alloc: Global,
    g: &Grammar,
    numbers: &Numbers,
    nodes: &[bool],
) -> Result<Vec<bool>, NoMemory>
    requires numbers { AreNumbersOf g.now numbers.now }
    requires nodes { AreNodeRules g.now nodes.now }
    ensures { IfOk result (λ types. AreTextTypes g.now types.items) }
{
    rule_types(alloc, g, numbers, nodes, false)
}

/// A flag for each type, by its number: it is that of a rule that makes nodes.
pub fn node_types(
    alloc: Global,
    g: &Grammar,
    numbers: &Numbers,
    nodes: &[bool],
) -> Result<Vec<bool>, NoMemory>
    requires numbers { AreNumbersOf g.now numbers.now }
    requires nodes { AreNodeRules g.now nodes.now }
    ensures { IfOk result (λ types. AreNodeTypes g.now types.items) }
{
    rule_types(alloc, g, numbers, nodes, true)
}

/// Whether the flag of the type of this name is set, in expected constant time.
pub fn is_marked(numbers: &Numbers, types: &[bool], name: &Name) -> bool
    ensures { (g : Grammar) → AreNumbersOf g numbers.now → IsTrue result ↔ IsMarked g types.now name.now }
{
    match numbers.type_of(name) {
        Some(id) => is_set(types, id.0 as usize),
        None => false,
    }
}

/// Whether the flag of this number is set.
fn is_set(flags: &[bool], number: usize) -> bool
    ensures { IsTrue result ↔ (slice_get flags.now number ≡ Some true) }
{
    flags.get(number) == Some(&true)
}

/// A flag for each type, by its number: it is that of a rule that makes nodes, or of one that makes none.
fn rule_types(
    alloc: Global,
    g: &Grammar,
    numbers: &Numbers,
    nodes: &[bool],
    makes: bool,
) -> Result<Vec<bool>, NoMemory>
    requires numbers { AreNumbersOf g.now numbers.now }
    requires nodes { AreNodeRules g.now nodes.now }
    ensures { IfOk result (λ types. AreTypesOfRules g.now nodes.now makes (length g.now.rules) types.items) }
{
    let mut types = vec![in alloc; false; numbers.type_count()]?;
    for (number, rule) in g.rules.as_slice().iter().enumerate() {
        if nodes[number] == makes {
            if let Some(id) = type_number(numbers, rule) {
                types[id.0 as usize] = true;
            }
        }
    }
    Ok(types)
}

/// The number of the rule's type, where it has one.
fn type_number(numbers: &Numbers, rule: &Rule) -> Option<TypeId>
    ensures { (g : Grammar) → AreNumbersOf g numbers.now → (n : ℕ) → HasTypeNumber g rule.now n ↔ (option_map (λ id. id.0) result ≡ Some n) }
{
    match type_of(rule) {
        Some(name) => numbers.type_of(name),
        None => None,
    }
}
