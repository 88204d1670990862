// Which values the members of an attribute take.
ghost use Rattle.std.specs.Prelude.{ℕ, ◌≡◌, ◌↔◌, ◌++◌, IsTrue, IfOk, OnOk, MatchOption, map};
ghost use Rattle.lw_grammar.specs.declared.declared_types.UnionDef.{UnionDef};
ghost use Rattle.lw_faults.specs.Attributes.{IsTypeOfTexts};
ghost use Rattle.lw_properties.specs.Asked.{IsKnownIn};
ghost use Rattle.lw_properties.specs.Kinds.{kind_of_value, TakesDirectly, NamesUnion, SomeTakes};

use crate::declarations::union_of;
use crate::kinds::ValueIs;
use crate::known::Known;
use crate::rule_types::is_marked;
use indexmap::IndexSet;
use lw_base::{Name, NoMemory};
use lw_grammar::{Member, Primitive, UnionDef};
use std::alloc::Global;

/// Whether one of the members takes the value. Each union is looked into once.
pub(crate) fn takes(
    alloc: Global,
    known: &Known<'_>,
    members: &[Member],
    value: ValueIs<'_>,
) -> Result<bool, NoMemory>
    requires { IsKnownIn known.now }
    ensures { IfOk result (λ taken. IsTrue taken ↔ SomeTakes known.now.g.now members.now (kind_of_value value.entry)) }
{
    let mut seen = IndexSet::new(alloc);
    let mut waiting = Vec::new(alloc);
    put_members(&mut waiting, members)?;
    while let Some(member) = waiting.pop() {
        if takes_directly(known, member, value) {
            return Ok(true);
        }
        if let Some((number, union)) = union_named(known, member) {
            if seen.insert(number)? {
                put_members(&mut waiting, union.members.as_slice())?;
            }
        }
    }
    Ok(false)
}

/// The union that a member names, and its number.
fn union_named<'g>(known: &Known<'g>, member: &Member) -> Option<(usize, &'g UnionDef)>
    requires { IsKnownIn known.now }
    ensures { MatchOption result ((u : ℕ) (union : UnionDef) → ¬ NamesUnion known.now.g.now member.now u union)
        (λ found. NamesUnion known.now.g.now member.now found.0 found.1.now) }
{
    match member {
        Member::Named(name, _) => union_of(known.g, known.numbers, name),
        Member::Refers(_, _) => None,
        Member::Plain(_) => None,
        Member::Literal(_) => None,
    }
}

fn put_members<'m>(waiting: &mut Vec<&'m Member>, members: &'m [Member]) -> Result<(), NoMemory>
    ensures { OnOk result (map (λ m. m.now) waiting.new.items ≡ map (λ m. m.now) waiting.old.items ++ members.now) }
{
    for member in members {
        waiting.push(member)?;
    }
    Ok(())
}

/// Whether the member takes the value, where no union is looked into.
fn takes_directly(known: &Known<'_>, member: &Member, value: ValueIs<'_>) -> bool
    requires { IsKnownIn known.now }
    ensures { IsTrue result ↔ TakesDirectly known.now.g.now member.now (kind_of_value value.entry) }
{
    match member {
        Member::Plain(primitive) => match value {
            ValueIs::Plain(given) => *primitive == given,
            ValueIs::TextsOf(_) => *primitive == Primitive::Text,
            ValueIs::NodesOf(_) => false,
            ValueIs::ReferencesTo(_) => false,
        },
        Member::Literal(_) => match value {
            ValueIs::Plain(given) => given == Primitive::Text,
            ValueIs::TextsOf(_) => true,
            ValueIs::NodesOf(_) => false,
            ValueIs::ReferencesTo(_) => false,
        },
        Member::Named(name, _) => match value {
            ValueIs::Plain(given) => given == Primitive::Text && names_texts(known, name),
            ValueIs::TextsOf(_) => names_texts(known, name),
            ValueIs::NodesOf(type_name) => known.subtypes.is_below(type_name, name),
            ValueIs::ReferencesTo(_) => false,
        },
        Member::Refers(name, _) => match value {
            ValueIs::Plain(_) => false,
            ValueIs::TextsOf(_) => false,
            ValueIs::NodesOf(_) => false,
            ValueIs::ReferencesTo(wanted) => known.subtypes.is_below(wanted, name),
        },
    }
}

/// Whether texts have the type of this name.
fn names_texts(known: &Known<'_>, name: &Name) -> bool
    requires { IsKnownIn known.now }
    ensures { IsTrue result ↔ IsTypeOfTexts known.now.g.now name.now }
{
    is_marked(known.numbers, known.texts, name)
}
