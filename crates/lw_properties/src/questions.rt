// What is asked of types.
ghost use Rattle.std.specs.Prelude.{ℕ, ◌≡◌, ◌↔◌, List, IsTrue, IfOk, slice_get};
ghost use Rattle.std.specs.Option.{option_copied};
ghost use Rattle.lw_grammar.specs.declared.grammar.Grammar.{Grammar};
ghost use Rattle.lw_grammar.specs.Leaves.{value_leaves};
ghost use Rattle.lw_numbers.specs.Tables.{AreNumbersOf};
ghost use Rattle.lw_numbers.specs.Numbering.{type_names};
ghost use Rattle.lw_faults.specs.Properties.{IsRefusedKind, MisfitsAttribute};
ghost use Rattle.lw_properties.specs.Asked.{IsKnownIn, LacksProperty, MisfitsProperty, RefusesSome, Asks, SomeType};
ghost use Rattle.lw_properties.specs.Kinds.{kind_of_value};

use crate::declarations::is_declared;
use crate::kinds::{ValueIs, kind_of};
use crate::known::Known;
use crate::members::takes;
use lw_base::{Name, NoMemory, TypeId};
use lw_grammar::{Attribute, Op, Primitive, Value0};
use lw_numbers::Numbers;
use lw_numbers::leaves::value_parts;
use std::alloc::Global;

/// What may be asked of a type.
#[derive(Clone, Copy, Drop)]
pub(crate) enum Question<'a> {
    /// It is declared, and has no property of this name.
    Lacks(&'a Name),
    /// It is declared, and has the property of this name in another form than what is assigned.
    Misfits(&'a Name, Op, &'a Value0),
    /// The attribute does not take its nodes.
    IsRefused(&'a Attribute),
    /// It is declared, and this type is not below it.
    IsNotAbove(&'a Name),
}

/// Whether it holds of one of the types of these numbers.
pub(crate) fn holds_of_some(
    alloc: Global,
    known: &Known<'_>,
    question: Question<'_>,
    types: &[u16],
) -> Result<bool, NoMemory>
    requires { IsKnownIn known.now }
    ensures { IfOk result (λ so. IsTrue so ↔ SomeType known.now.g.now (Asks known.now.g.now question.entry) types.now) }
{
    for number in types {
        if let Some(name) = type_named(known.numbers, *number) {
            if holds(alloc, known, question, name)? {
                return Ok(true);
            }
        }
    }
    Ok(false)
}

/// The name of the type of this number.
pub(crate) fn type_named(numbers: &Numbers, number: u16) -> Option<&Name>
    ensures { (g : Grammar) → AreNumbersOf g numbers.now → option_copied result ≡ slice_get (type_names g) number }
{
    if (number as usize) < numbers.type_count() {
        Some(numbers.type_name(TypeId(number)))
    } else {
        None
    }
}

fn holds(
    alloc: Global,
    known: &Known<'_>,
    question: Question<'_>,
    name: &Name,
) -> Result<bool, NoMemory>
    requires { IsKnownIn known.now }
    ensures { IfOk result (λ so. IsTrue so ↔ Asks known.now.g.now question.entry name.now) }
{
    match question {
        Question::Lacks(property) => Ok(lacks(known, name, property)),
        Question::Misfits(property, op, value) => {
            misfits(alloc, known, name, property, op, value)
        }
        Question::IsRefused(attribute) => refuses(alloc, known, attribute, ValueIs::NodesOf(name)),
        Question::IsNotAbove(below) => Ok(is_not_above(known, below, name)),
    }
}

fn is_not_above(known: &Known<'_>, below: &Name, name: &Name) -> bool
    requires { IsKnownIn known.now }
    ensures { IsTrue result ↔ Asks known.now.g.now (Question.IsNotAbove below.entry) name.now }
{
    is_declared(known.g, known.numbers, name) && !known.subtypes.is_below(below, name)
}

/// Whether the declared type lacks the property.
pub(crate) fn lacks(known: &Known<'_>, type_name: &Name, property: &Name) -> bool
    requires { IsKnownIn known.now }
    ensures { IsTrue result ↔ LacksProperty known.now.g.now type_name.now property.now }
{
    is_declared(known.g, known.numbers, type_name)
        && known.attributes.attribute(type_name, property).is_none()
}

fn misfits(
    alloc: Global,
    known: &Known<'_>,
    type_name: &Name,
    property: &Name,
    op: Op,
    value: &Value0,
) -> Result<bool, NoMemory>
    requires { IsKnownIn known.now }
    ensures { IfOk result (λ so. IsTrue so ↔ MisfitsProperty known.now.g.now type_name.now property.now op value.now) }
{
    if !is_declared(known.g, known.numbers, type_name) {
        return Ok(false);
    }
    match known.attributes.attribute(type_name, property) {
        Some(attribute) => misfits_attribute(alloc, known, attribute, op, value),
        None => Ok(false),
    }
}

fn misfits_attribute(
    alloc: Global,
    known: &Known<'_>,
    attribute: &Attribute,
    op: Op,
    value: &Value0,
) -> Result<bool, NoMemory>
    requires { IsKnownIn known.now }
    ensures { IfOk result (λ so. IsTrue so ↔ MisfitsAttribute known.now.g.now attribute.now value.now op) }
{
    match op {
        Op::Flag => refuses(alloc, known, attribute, ValueIs::Plain(Primitive::Boolean)),
        Op::One if attribute.list => Ok(true),
        Op::One => refuses_part(alloc, known, attribute, value),
        Op::Add if attribute.list => refuses_part(alloc, known, attribute, value),
        Op::Add => Ok(true),
    }
}

/// Whether the attribute does not take a part of the value.
fn refuses_part(
    alloc: Global,
    known: &Known<'_>,
    attribute: &Attribute,
    value: &Value0,
) -> Result<bool, NoMemory>
    requires { IsKnownIn known.now }
    ensures { IfOk result (λ so. IsTrue so ↔ RefusesSome known.now.g.now attribute.now (value_leaves value.now)) }
{
    let parts = value_parts(alloc, value)?;
    for part in parts.iter() {
        if let Some(is) = kind_of(known.g, known.numbers, known.nodes, *part) {
            if refuses(alloc, known, attribute, is)? {
                return Ok(true);
            }
        }
    }
    Ok(false)
}

/// Whether no member of the attribute takes the value.
fn refuses(
    alloc: Global,
    known: &Known<'_>,
    attribute: &Attribute,
    value: ValueIs<'_>,
) -> Result<bool, NoMemory>
    requires { IsKnownIn known.now }
    ensures { IfOk result (λ so. IsTrue so ↔ IsRefusedKind known.now.g.now attribute.now (kind_of_value value.entry)) }
{
    let taken = takes(alloc, known, attribute.members.as_slice(), value)?;
    Ok(!taken)
}
