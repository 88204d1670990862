// The values that an assignment puts in.
ghost use Rattle.std.specs.Prelude.{◌≡◌, ◌++◌, IfOk, OnOk};
ghost use Rattle.lw_grammar.specs.declared.grammar.Grammar.{Grammar};
ghost use Rattle.lw_grammar.specs.Leaves.{value_leaves};
ghost use Rattle.lw_numbers.specs.Parts.{value_leaf_of};
ghost use Rattle.lw_numbers.specs.Tables.{AreNumbersOf};
ghost use Rattle.lw_properties.specs.Kinds.{kind_of_value};
ghost use Rattle.lw_types.specs.Seeing.{IsPropertySource, list_of};
ghost use Rattle.lw_types.specs.Values.{AssignmentGives, PartsGive, PartGives, values_of_kind, numbered, nodes_of, refs_to};
ghost use Rattle.lw_flow.specs.Effects.{type_number};

use crate::property_table::source::Source;
use lw_base::{Name, NoMemory};
use lw_grammar::{Op, Primitive, Value0, ValueKind};
use lw_numbers::Numbers;
use lw_numbers::leaves::{ValuePart, value_parts};
use lw_properties::{ValueIs, kind_of};
use std::alloc::Global;

/// The values that an assignment by this operator puts in, in order.
pub(crate) fn assigned_values(
    alloc: Global,
    source: &Source<'_>,
    op: Op,
    value: &Value0,
) -> Result<Vec<ValueKind>, NoMemory>
    requires { IsPropertySource source.now }
    ensures { IfOk result (λ values. AssignmentGives source.now.g.now op value.now values.items) }
{
    match op {
        Op::One => part_values(alloc, source, value),
        Op::Add => part_values(alloc, source, value),
        Op::Flag => {
            let mut values = Vec::new(alloc);
            values.push(ValueKind::Plain(Primitive::Boolean))?;
            Ok(values)
        }
    }
}

fn part_values(
    alloc: Global,
    source: &Source<'_>,
    value: &Value0,
) -> Result<Vec<ValueKind>, NoMemory>
    requires { IsPropertySource source.now }
    ensures { IfOk result (λ values. PartsGive source.now.g.now (value_leaves value.now) values.items) }
{
    let parts = value_parts(alloc, value)?;
    let mut values = Vec::new(alloc);
    for part in &parts {
        put_value(&mut values, part_value(source, *part))?;
    }
    Ok(values)
}

/// Puts a value behind others, where there is one.
pub(crate) fn put_value(
    values: &mut Vec<ValueKind>,
    value: Option<ValueKind>,
) -> Result<(), NoMemory>
    ensures { OnOk result (values.new.items ≡ values.old.items ++ list_of value) }
{
    if let Some(value) = value {
        values.push(value)?;
    }
    Ok(())
}

/// The value of a part, where it has one.
fn part_value(source: &Source<'_>, part: ValuePart<'_>) -> Option<ValueKind>
    requires { IsPropertySource source.now }
    ensures { PartGives source.now.g.now (value_leaf_of part.entry) (list_of result) }
{
    let told = kind_of(source.g, source.numbers, source.nodes, part)?;
    value_of(source.numbers, told)
}

fn value_of(numbers: &Numbers, is: ValueIs<'_>) -> Option<ValueKind>
    ensures { (g : Grammar) → AreNumbersOf g numbers.now → list_of result ≡ values_of_kind g (kind_of_value is.entry) }
{
    match is {
        ValueIs::Plain(primitive) => Some(ValueKind::Plain(primitive)),
        ValueIs::TextsOf(_) => Some(ValueKind::Plain(Primitive::Text)),
        ValueIs::NodesOf(name) => nodes_of(numbers, name),
        ValueIs::ReferencesTo(name) => refs_to(numbers, name),
    }
}

/// Nodes of the type of this name, where it has a number.
pub(crate) fn nodes_of(numbers: &Numbers, name: &Name) -> Option<ValueKind>
    ensures { (g : Grammar) → AreNumbersOf g numbers.now → list_of result ≡ numbered nodes_of (type_number g name.now) }
{
    let id = numbers.type_of(name)?;
    Some(ValueKind::Nodes(id))
}

/// References to nodes of the type of this name, where it has a number.
pub(crate) fn refs_to(numbers: &Numbers, name: &Name) -> Option<ValueKind>
    ensures { (g : Grammar) → AreNumbersOf g numbers.now → list_of result ≡ numbered refs_to (type_number g name.now) }
{
    let id = numbers.type_of(name)?;
    Some(ValueKind::Refs(id))
}
