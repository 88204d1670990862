// The values that the members of an attribute give.
ghost use Rattle.std.specs.Prelude.{ℕ, ◌≡◌, ◌↔◌, ◌++◌, [], IsTrue, OnOk, IfOk, MatchOption, map, reverse};
ghost use Rattle.lw_grammar.specs.declared.declared_types.Member.TheVariants.{Named};
ghost use Rattle.lw_grammar.specs.declared.declared_types.UnionDef.{UnionDef};
ghost use Rattle.lw_base.specs.declared.token.Span.{Span};
ghost use Rattle.lw_grammar.specs.Named.{IsUnion};
ghost use Rattle.lw_properties.specs.Kinds.{NamesUnion};
ghost use Rattle.lw_types.specs.Seeing.{IsPropertySource, list_of, NamesNoUnion};
ghost use Rattle.lw_types.specs.Values.{IsTextType, MemberGives, MembersGive, NamesTexts, TextGives};

use crate::property_table::parts::{nodes_of, put_value, refs_to};
use crate::property_table::source::Source;
use indexmap::IndexSet;
use lw_base::{Name, NoMemory};
use lw_grammar::{Member, Primitive, UnionDef, ValueKind};
use lw_properties::{is_marked, union_of};
use std::alloc::Global;

/// The values that these members give, in order. Each union is looked into once.
pub(crate) fn member_values(
    alloc: Global,
    source: &Source<'_>,
    members: &[Member],
) -> Result<Vec<ValueKind>, NoMemory>
    requires { IsPropertySource source.now }
    ensures { IfOk result (λ values. MembersGive source.now.g.now [] members.now values.items) }
{
    let mut values = Vec::new(alloc);
    let mut looked = IndexSet::new(alloc);
    let mut waiting = Vec::new(alloc);
    put_members(&mut waiting, members)?;
    while let Some(member) = waiting.pop() {
        put_value(&mut values, text_value(source, member))?;
        match union_named(source, member) {
            Some((number, union)) => {
                if looked.insert(number)? {
                    put_members(&mut waiting, union.members.as_slice())?;
                }
            }
            None => put_value(&mut values, member_value(source, member))?,
        }
    }
    Ok(values)
}

/// The union that a member names, and its number.
fn union_named<'g>(source: &Source<'g>, member: &Member) -> Option<(usize, &'g UnionDef)>
    requires { IsPropertySource source.now }
    ensures { MatchOption result (NamesNoUnion source.now.g.now member.now) (λ found. NamesUnion source.now.g.now member.now found.0 found.1.now) }
{
    match member {
        Member::Named(name, _) => union_of(source.g, source.numbers, name),
        Member::Refers(_, _) => None,
        Member::Plain(_) => None,
        Member::Literal(_) => None,
    }
}

/// Puts members behind those that wait, the first last.
fn put_members<'m>(waiting: &mut Vec<&'m Member>, members: &'m [Member]) -> Result<(), NoMemory>
    ensures { OnOk result (reverse (map (λ m. m.now) waiting.new.items) ≡ members.now ++ reverse (map (λ m. m.now) waiting.old.items)) }
{
    for member in members.iter().rev() {
        waiting.push(member)?;
    }
    Ok(())
}

/// A `string`, where the member names the type of a data type rule.
fn text_value(source: &Source<'_>, member: &Member) -> Option<ValueKind>
    requires { IsPropertySource source.now }
    ensures { TextGives source.now.g.now member.now (list_of result) }
{
    if names_texts(source, member) {
        Some(ValueKind::Plain(Primitive::Text))
    } else {
        None
    }
}

/// Whether the member names a type that texts have.
fn names_texts(source: &Source<'_>, member: &Member) -> bool
    requires { IsPropertySource source.now }
    ensures { IsTrue result ↔ NamesTexts source.now.g.now member.now }
{
    match member {
        Member::Named(name, _) => is_marked(source.numbers, source.texts, name),
        Member::Refers(_, _) => false,
        Member::Plain(_) => false,
        Member::Literal(_) => false,
    }
}

/// The value of a member that names no union, behind that text, where it has one.
fn member_value(source: &Source<'_>, member: &Member) -> Option<ValueKind>
    requires source { IsPropertySource source.now }
    requires no_union { NamesNoUnion source.now.g.now member.now }
    ensures { MemberGives source.now.g.now member.now (list_of result) }
{
    match member {
        Member::Named(name, _) => named_value(source, name),
        Member::Refers(name, _) => refs_to(source.numbers, name),
        Member::Plain(primitive) => Some(ValueKind::Plain(*primitive)),
        Member::Literal(_) => Some(ValueKind::Plain(Primitive::Text)),
    }
}

/// The nodes that the name of a type gives which is no union.
fn named_value(source: &Source<'_>, name: &Name) -> Option<ValueKind>
    requires source { IsPropertySource source.now }
    requires no_union { (u : ℕ) (union : UnionDef) → ¬ IsUnion source.now.g.now name.now u union }
    ensures { (s : Span) → MemberGives source.now.g.now (Named name.now s) (list_of result) }
{
    if has_no_nodes(source, name) {
        None
    } else {
        nodes_of(source.numbers, name)
    }
}

/// Whether texts have the type of this name, and nodes have not.
fn has_no_nodes(source: &Source<'_>, name: &Name) -> bool
    requires { IsPropertySource source.now }
    ensures { IsTrue result ↔ IsTextType source.now.g.now name.now }
{
    is_marked(source.numbers, source.texts, name) && !is_marked(source.numbers, source.made, name)
}
