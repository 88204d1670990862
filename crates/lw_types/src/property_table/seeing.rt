// What is put into properties at the leaves of rules.
ghost use Rattle.std.specs.Prelude.{◌≡◌, ◌<◌, [], ◌∷◌, List, Bool, Some, OnOk, IfOk, length, slice_get};
ghost use Rattle.lw_grammar.specs.Leaves.{leaves, Act};
ghost use Rattle.lw_numbers.specs.Parts.{leaf_of};
ghost use Rattle.lw_grammar.specs.declared.grammar.Grammar.{Grammar};
ghost use Rattle.lw_numbers.specs.Tables.{AreNumbersOf};
ghost use Rattle.lw_flow.specs.declared.before.Before.{Before};
ghost use Rattle.lw_flow.specs.Recorded.{HasEntries};
ghost use Rattle.lw_faults.specs.Properties.{is_list};
ghost use Rattle.lw_types.specs.Gathered.{GathersSightings};
ghost use Rattle.lw_types.specs.Sightings.{SeenAtLeaf, SeenInRule, SeenInRules, known_nodes, current_nodes};
ghost use Rattle.lw_types.specs.Seeing.{IsPropertySource, Sees, AddsTo, AreGathered, sightings_of, list_of};

use crate::property_table::gathering::Gathering;
use crate::property_table::parts::{assigned_values, put_value};
use crate::property_table::source::Source;
use lw_base::{Name, NoMemory, PropId, TypeId};
use lw_flow::{Before, Ways};
use lw_grammar::{Action, Op, Rule, Value0, ValueKind};
use lw_numbers::Numbers;
use lw_numbers::leaves::{BodyLeaf, body_leaves};
use lw_properties::is_come_to;
use std::alloc::Global;

/// What is put into the properties of each wanted type, by its number, gathered.
pub(crate) fn gather(
    alloc: Global,
    source: &Source<'_>,
    ways: &Ways,
    wanted: &[bool],
) -> Result<Vec<Gathering>, NoMemory>
    requires source { IsPropertySource source.now }
    requires ways { HasEntries source.now.g.now ways.now }
    ensures { IfOk result (λ list. AreGathered source.now.g.now ways.now wanted.now list.items) }
{
    let mut list = gatherings(alloc, wanted.len())?;
    see_rules(alloc, source, ways, wanted, &mut list)?;
    Ok(list)
}

/// So many types of which nothing is met.
fn gatherings(alloc: Global, count: usize) -> Result<Vec<Gathering>, NoMemory>
    ensures { IfOk result (λ list. (wanted : List Bool) → length wanted ≡ count → GathersSightings wanted [] list.items) }
{
    let mut list = Vec::new(alloc);
    for _number in 0..count {
        list.push(Gathering::new(alloc))?;
    }
    Ok(list)
}

/// Gathers what is put into the properties of the wanted types, at all leaves.
fn see_rules(
    alloc: Global,
    source: &Source<'_>,
    ways: &Ways,
    wanted: &[bool],
    gatherings: &mut [Gathering],
) -> Result<(), NoMemory>
    requires source { IsPropertySource source.now }
    requires ways { HasEntries source.now.g.now ways.now }
    ensures { OnOk result (Sees wanted.now (SeenInRules source.now.g.now ways.now) gatherings.old gatherings.new) }
{
    for (number, rule) in source.g.rules.as_slice().iter().enumerate() {
        see_rule(alloc, source, ways, number, rule, wanted, gatherings)?;
    }
    Ok(())
}

fn see_rule(
    alloc: Global,
    source: &Source<'_>,
    ways: &Ways,
    number: usize,
    rule: &Rule,
    wanted: &[bool],
    gatherings: &mut [Gathering],
) -> Result<(), NoMemory>
    requires source { IsPropertySource source.now }
    requires number { number < length ways.now }
    requires row { (row : List Before) → slice_get ways.now number ≡ Some row → length row ≡ length (leaves rule.now.body) }
    ensures { OnOk result ((row : List Before) → slice_get ways.now number ≡ Some row →
        Sees wanted.now (SeenInRule source.now.g.now rule.now row) gatherings.old gatherings.new) }
{
    let leaves = body_leaves(alloc, &rule.body)?;
    for (place, leaf) in leaves.iter().enumerate() {
        let before = ways.before(number, place);
        see_leaf(alloc, source, *leaf, before, wanted, gatherings)?;
    }
    Ok(())
}

fn see_leaf(
    alloc: Global,
    source: &Source<'_>,
    leaf: BodyLeaf<'_>,
    before: &Before,
    wanted: &[bool],
    gatherings: &mut [Gathering],
) -> Result<(), NoMemory>
    requires { IsPropertySource source.now }
    ensures { OnOk result (Sees wanted.now (SeenAtLeaf source.now.g.now (leaf_of leaf.entry) before.now) gatherings.old gatherings.new) }
{
    match leaf {
        BodyLeaf::Assign(property, op, value, _) => {
            let values = assigned_values(alloc, source, op, value)?;
            let put = Put {
                prop: source.numbers.prop(property),
                list: is_list(op),
                values: values.as_slice(),
            };
            put_into_all(alloc, &put, before.current.as_slice(), wanted, gatherings)
        }
        BodyLeaf::Act(action) => see_action(alloc, source, action, before, wanted, gatherings),
        BodyLeaf::Call(_, _) => Ok(()),
        BodyLeaf::Keyword(_, _) => Ok(()),
    }
}

/// Whether an operator puts its value at the end of a list.
fn is_list(op: Op) -> bool
    ensures { result ≡ is_list op }
{
    match op {
        Op::Add => true,
        Op::One => false,
        Op::Flag => false,
    }
}

fn see_action(
    alloc: Global,
    source: &Source<'_>,
    action: &Action,
    before: &Before,
    wanted: &[bool],
    gatherings: &mut [Gathering],
) -> Result<(), NoMemory>
    requires { IsPropertySource source.now }
    ensures { OnOk result (Sees wanted.now (SeenAtLeaf source.now.g.now (Act action.now) before.now) gatherings.old gatherings.new) }
{
    if !is_come_to(before) {
        return Ok(());
    }
    match &action.put {
        Some((property, list)) => {
            let values = current_nodes(alloc, source, before)?;
            let put = Put {
                prop: source.numbers.prop(property),
                list: *list,
                values: values.as_slice(),
            };
            match source.numbers.type_of(&action.type_name) {
                Some(id) => put_into(alloc, &put, id.0, wanted, gatherings),
                None => Ok(()),
            }
        }
        None => Ok(()),
    }
}

/// Nodes of each type that is current there.
fn current_nodes(
    alloc: Global,
    source: &Source<'_>,
    before: &Before,
) -> Result<Vec<ValueKind>, NoMemory>
    requires { IsPropertySource source.now }
    ensures { IfOk result (λ values. values.items ≡ current_nodes source.now.g.now before.now) }
{
    let mut values = Vec::new(alloc);
    for number in &before.current {
        put_value(&mut values, known_nodes(source.numbers, *number))?;
    }
    Ok(values)
}

/// Nodes of the type of this number, where there is such a type.
fn known_nodes(numbers: &Numbers, number: u16) -> Option<ValueKind>
    ensures { (g : Grammar) → AreNumbersOf g numbers.now → list_of result ≡ known_nodes g (number ∷ []) }
{
    if (number as usize) < numbers.type_count() {
        Some(ValueKind::Nodes(TypeId(number)))
    } else {
        None
    }
}

/// What is put into a property: its number, whether it goes to the end of a list, and the values.
#[derive(Clone, Copy, Drop)]
struct Put<'v> {
    prop: Option<PropId>,
    list: bool,
    values: &'v [ValueKind],
}

/// Puts it into each of these types that is wanted.
fn put_into_all(
    alloc: Global,
    put: &Put<'_>,
    types: &[u16],
    wanted: &[bool],
    gatherings: &mut [Gathering],
) -> Result<(), NoMemory>
    ensures { OnOk result (AddsTo wanted.now (sightings_of put.now types.now) gatherings.old gatherings.new) }
{
    for number in types {
        put_into(alloc, put, *number, wanted, gatherings)?;
    }
    Ok(())
}

/// Puts it into the type of this number, if that is wanted.
fn put_into(
    alloc: Global,
    put: &Put<'_>,
    number: u16,
    wanted: &[bool],
    gatherings: &mut [Gathering],
) -> Result<(), NoMemory>
    ensures { OnOk result (AddsTo wanted.now (sightings_of put.now (number ∷ [])) gatherings.old gatherings.new) }
{
    let at = number as usize;
    match put.prop {
        Some(prop) => {
            if at < wanted.len() && wanted[at] && at < gatherings.len() {
                return gatherings[at].put(alloc, prop, put.list, put.values);
            }
            Ok(())
        }
        None => Ok(()),
    }
}
