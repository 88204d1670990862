// What may follow the rules that a part calls, where it is known what is behind the part.
ghost use Rattle.std.specs.Prelude.{◌≡◌, ◌<◌, ◌↔◌, ℕ, List, Contains, IfOk, OnOk, length};
ghost use Rattle.lw_grammar.specs.declared.rule.Element.{Element};
ghost use Rattle.lw_grammar.specs.declared.rule.Value0.{Value0};
ghost use Rattle.lw_grammar.specs.Kinds.{Kinds, AreKinds};
ghost use Rattle.lw_kinds.specs.Crossing.{IsReadBy};
ghost use Rattle.lw_look.specs.Sites.{Body, Value};
ghost use Rattle.lw_first.specs.Sets.{IsAmongHeads};
ghost use Rattle.lw_first.specs.Before.{ManyCanBefore, IsReady};
ghost use Rattle.lw_first.specs.Calls.{BehindCalls, BehindName, BehindRowCalls};
ghost use Rattle.lw_first.specs.FollowRounds.{AddsAfters};

use crate::First;
use crate::follow::behind::behind_each;
use crate::heads::{Head, HeadSet};
use lw_base::{Name, NoMemory};
use lw_grammar::{Element, Value0};
use lw_kinds::lexicon::Callee;
use std::alloc::Global;

/// Puts what may follow the rules that the element calls into their sets, where these heads are behind the element.
#[cycle(elements)]
pub(crate) fn follow_element(
    alloc: Global,
    first: &First<'_>,
    element: &Element,
    after: &[Head],
    sets: &mut [HeadSet],
) -> Result<(), NoMemory>
    requires ready { IsReady first.now }
    requires all { length sets.old ≡ length first.now.lexicon.g.now.rules }
    ensures { (kinds : Kinds) → AreKinds first.now.lexicon.g.now kinds →
        OnOk result (AddsAfters (BehindCalls first.now.lexicon.g.now kinds first.now.k first.now.heads.now (Body element.now) after.now) sets.old sets.new) }
{
    match element {
        Element::Keyword(..) => Ok(()),
        Element::Call(name, _) => follow_name(first, name, after, sets),
        Element::Assign(_, _, value, _) => follow_value(first, value, after, sets),
        Element::Act(_) => Ok(()),
        Element::Group(parts, _) => {
            let behind = behind_each(alloc, first, parts.as_slice(), after)?;
            follow_row(alloc, first, parts.as_slice(), behind.as_slice(), sets)
        }
        Element::Choice(parts, _) => follow_each(alloc, first, parts.as_slice(), after, sets),
        Element::Maybe(part, _) => follow_element(alloc, first, part.get(), after, sets),
        Element::Many(part, _) => {
            let behind = behind_repeated(alloc, first, part.get(), after)?;
            follow_element(alloc, first, part.get(), behind.as_slice(), sets)
        }
        Element::Some1(part, _) => {
            let behind = behind_repeated(alloc, first, part.get(), after)?;
            follow_element(alloc, first, part.get(), behind.as_slice(), sets)
        }
    }
}

/// The same of elements in a row, where it is known of each what is behind it.
#[cycle(elements)]
fn follow_row(
    alloc: Global,
    first: &First<'_>,
    parts: &[Element],
    behind: &[HeadSet],
    sets: &mut [HeadSet],
) -> Result<(), NoMemory>
    requires ready { IsReady first.now }
    requires all { length sets.old ≡ length first.now.lexicon.g.now.rules }
    requires behind { length behind.now ≡ length parts.now }
    ensures { (kinds : Kinds) → AreKinds first.now.lexicon.g.now kinds →
        OnOk result (AddsAfters (BehindRowCalls first.now.lexicon.g.now kinds first.now.k first.now.heads.now parts.now behind.now) sets.old sets.new) }
{
    for (place, part) in parts.iter().enumerate() {
        follow_element(alloc, first, part, behind[place].as_slice(), sets)?;
    }
    Ok(())
}

/// The same of each of these elements.
#[cycle(elements)]
fn follow_each(
    alloc: Global,
    first: &First<'_>,
    parts: &[Element],
    after: &[Head],
    sets: &mut [HeadSet],
) -> Result<(), NoMemory>
    requires ready { IsReady first.now }
    requires all { length sets.old ≡ length first.now.lexicon.g.now.rules }
    ensures { (kinds : Kinds) → AreKinds first.now.lexicon.g.now kinds →
        OnOk result (AddsAfters (λ r h. (part : Element) × Contains parts.now part
        × BehindCalls first.now.lexicon.g.now kinds first.now.k first.now.heads.now (Body part) after.now r h) sets.old sets.new) }
{
    for part in parts {
        follow_element(alloc, first, part, after, sets)?;
    }
    Ok(())
}

/// The heads of what is behind a part each time that it is read, where it is read any number of times.
fn behind_repeated(
    alloc: Global,
    first: &First<'_>,
    part: &Element,
    after: &[Head],
) -> Result<HeadSet, NoMemory>
    requires { IsReady first.now }
    ensures { (kinds : Kinds) → AreKinds first.now.lexicon.g.now kinds →
        IfOk result (λ set. (h : List ℕ) →
        IsAmongHeads set h ↔ ManyCanBefore first.now.lexicon.g.now kinds first.now.k first.now.heads.now part.now after.now h) }
{
    let mut set = HeadSet::new(alloc);
    first.repeated(alloc, part, after, &mut set)?;
    Ok(set)
}

/// Puts what may follow the rules that the value may be read by into their sets, where these heads are behind the value.
#[cycle(values)]
fn follow_value(
    first: &First<'_>,
    value: &Value0,
    after: &[Head],
    sets: &mut [HeadSet],
) -> Result<(), NoMemory>
    requires ready { IsReady first.now }
    requires all { length sets.old ≡ length first.now.lexicon.g.now.rules }
    ensures { (kinds : Kinds) → AreKinds first.now.lexicon.g.now kinds →
        OnOk result (AddsAfters (BehindCalls first.now.lexicon.g.now kinds first.now.k first.now.heads.now (Value value.now) after.now) sets.old sets.new) }
{
    match value {
        Value0::Keyword(..) => Ok(()),
        Value0::Call(name, _) => follow_name(first, name, after, sets),
        Value0::Cross(wanted, written, _) => follow_cross(first, wanted, written, after, sets),
        Value0::Choice(values, _) => follow_values(first, values.as_slice(), after, sets),
    }
}

/// The same of each of these values.
#[cycle(values)]
fn follow_values(
    first: &First<'_>,
    values: &[Value0],
    after: &[Head],
    sets: &mut [HeadSet],
) -> Result<(), NoMemory>
    requires ready { IsReady first.now }
    requires all { length sets.old ≡ length first.now.lexicon.g.now.rules }
    ensures { (kinds : Kinds) → AreKinds first.now.lexicon.g.now kinds →
        OnOk result (AddsAfters (λ r h. (v : Value0) × Contains values.now v
        × BehindCalls first.now.lexicon.g.now kinds first.now.k first.now.heads.now (Value v) after.now r h) sets.old sets.new) }
{
    for value in values {
        follow_value(first, value, after, sets)?;
    }
    Ok(())
}

/// The same of a cross-reference to this type, where this rule is written or none.
fn follow_cross(
    first: &First<'_>,
    wanted: &Name,
    written: &Option<Name>,
    after: &[Head],
    sets: &mut [HeadSet],
) -> Result<(), NoMemory>
    requires ready { IsReady first.now }
    requires all { length sets.old ≡ length first.now.lexicon.g.now.rules }
    ensures { OnOk result (AddsAfters (λ r h. (name : List ℕ) × IsReadBy first.now.lexicon.g.now wanted.now written.now name
        × BehindName first.now.lexicon.g.now name after.now r h) sets.old sets.new) }
{
    match first.lexicon.read_by(wanted, written) {
        Some(name) => follow_name(first, name, after, sets),
        None => Ok(()),
    }
}

/// Puts these heads into the set of the rule that the name means, if it means one.
fn follow_name(
    first: &First<'_>,
    name: &Name,
    after: &[Head],
    sets: &mut [HeadSet],
) -> Result<(), NoMemory>
    requires ready { IsReady first.now }
    requires all { length sets.old ≡ length first.now.lexicon.g.now.rules }
    ensures { OnOk result (AddsAfters (BehindName first.now.lexicon.g.now name.now after.now) sets.old sets.new) }
{
    match first.lexicon.callee(name) {
        Callee::Token(_) => Ok(()),
        Callee::Rule(rule) => put_in(after, rule, sets),
        Callee::Nothing => Ok(()),
    }
}

/// Puts these heads into the set of the rule of this number.
fn put_in(after: &[Head], rule: usize, sets: &mut [HeadSet]) -> Result<(), NoMemory>
    requires { rule < length sets.old }
    ensures { OnOk result (AddsAfters (λ r h. (r ≡ rule) × IsAmongHeads after.now h) sets.old sets.new) }
{
    sets[rule].insert_all(after)?;
    Ok(())
}
