// Declared types: interfaces and unions.
ghost use Rattle.std.specs.Prelude.{◌≡◌, ◌<◌, ◌≤◌, [], ◌∷◌, length, IfOk, OnOk};
ghost use Rattle.lw_gramread.specs.Steps.{ReadsAs};
ghost use Rattle.lw_gramread.specs.TypeSteps.{deepest};
ghost use Rattle.lw_gramread.specs.TypeSteps.{interface, extended_names, types_above, attributes, attribute, type_end, attribute_end, union_type, members, more_members, single, members_inside, plain_member};

use super::left::{DEEPEST, Left, Spot, Stop};
use crate::lexeme::Reserved;
use lw_base::{Items, Name, NoMemory, Span};
use lw_gramlex::Symbol;
use lw_grammar::{Attribute, Interface, Member, UnionDef};
use std::alloc::Global;

/// An interface, behind the word `interface`.
#[tactic(auto, unfolding(crate::specs::TypeSteps::interface))]
pub(crate) fn interface(alloc: Global, left: &mut Left<'_>) -> Result<Interface, Stop>
    ensures reads { ReadsAs (interface deepest left.old) result left.new }
    ensures shorter { length left.new ≤ length left.old }
{
    let (name, span) = left.name(alloc, Spot::Elsewhere)?;
    let above = types_above(alloc, left)?;
    left.symbol(Symbol::OpenBrace, Spot::Elsewhere)?;
    let attributes = attributes(alloc, left)?;
    left.symbol(Symbol::CloseBrace, Spot::Elsewhere)?;
    left.takes(Symbol::Semicolon);
    Ok(Interface {
        name,
        file: 0,
        span,
        above,
        attributes,
    })
}

// ('extends' Word (',' Word)*)?
#[tactic(auto, unfolding(crate::specs::TypeSteps::types_above))]
fn types_above(alloc: Global, left: &mut Left<'_>) -> Result<Items<(Name, Span)>, Stop>
    ensures reads { ReadsAs (types_above left.old) result left.new }
    ensures shorter { length left.new ≤ length left.old }
{
    if left.takes_reserved(Reserved::Extends) {
        return names(alloc, left);
    }
    Ok(Items::new(alloc))
}

// Word (',' Word)*
#[tactic(auto, unfolding(crate::specs::TypeSteps::extended_names))]
fn names(alloc: Global, left: &mut Left<'_>) -> Result<Items<(Name, Span)>, Stop>
    ensures reads { ReadsAs (extended_names left.old) result left.new }
    ensures shorter { length left.new ≤ length left.old }
{
    let mut names = Items::new(alloc);
    let first = left.name(alloc, Spot::Elsewhere)?;
    names.push(first)?;
    'more: while left.takes(Symbol::Comma) {
        let next = left.name(alloc, Spot::Elsewhere)?;
        names.push(next)?;
    }
    Ok(names)
}

#[tactic(auto, unfolding(crate::specs::TypeSteps::attributes))]
fn attributes(alloc: Global, left: &mut Left<'_>) -> Result<Items<Attribute>, Stop>
    ensures reads { ReadsAs (attributes deepest left.old) result left.new }
    ensures shorter { length left.new ≤ length left.old }
{
    let mut attributes = Items::new(alloc);
    'more: while left.sees_word() {
        let next = attribute(alloc, left)?;
        attributes.push(next)?;
    }
    Ok(attributes)
}

// Feature '?'? ':' Single ('[' ']' | ('|' Single)*) ';'?
#[tactic(auto, unfolding(crate::specs::TypeSteps::attribute, crate::specs::TypeSteps::attribute_behind))]
fn attribute(alloc: Global, left: &mut Left<'_>) -> Result<Attribute, Stop>
    ensures reads { ReadsAs (attribute deepest left.old) result left.new }
    ensures shorter { length left.new ≤ length left.old }
    ensures taken { OnOk result (length left.new < length left.old) }
{
    let (name, span) = left.feature(alloc, Spot::Elsewhere)?;
    let optional = left.takes(Symbol::Question);
    left.symbol(Symbol::Colon, Spot::Elsewhere)?;
    let first = single(alloc, left, DEEPEST)?;
    let (list, members) = type_end(alloc, left, first)?;
    attribute_end(left)?;
    Ok(Attribute {
        name,
        span,
        optional,
        list,
        members,
    })
}

// '[' ']' | ('|' Single)*, behind the first part of an attribute's type.
#[tactic(auto, unfolding(crate::specs::TypeSteps::type_end))]
fn type_end(
    alloc: Global,
    left: &mut Left<'_>,
    first: Items<Member>,
) -> Result<(bool, Items<Member>), Stop>
    ensures reads { ReadsAs (type_end deepest first left.old) result left.new }
    ensures shorter { length left.new ≤ length left.old }
{
    if left.takes(Symbol::OpenBracket) {
        left.symbol(Symbol::CloseBracket, Spot::Elsewhere)?;
        return Ok((true, first));
    }
    let members = more_members(alloc, left, DEEPEST, first)?;
    Ok((false, members))
}

// ';'?, where no default may follow.
#[tactic(auto, unfolding(crate::specs::TypeSteps::attribute_end))]
fn attribute_end(left: &mut Left<'_>) -> Result<(), Stop>
    ensures reads { ReadsAs (attribute_end left.old) result left.new }
    ensures shorter { length left.new ≤ length left.old }
{
    if !left.takes(Symbol::Semicolon) && left.sees(Symbol::Equals) {
        return Err(Stop::Unexpected(Spot::Attribute));
    }
    Ok(())
}

/// A union, behind the word `type`.
#[tactic(auto, unfolding(crate::specs::TypeSteps::union_type))]
pub(crate) fn union_type(alloc: Global, left: &mut Left<'_>) -> Result<UnionDef, Stop>
    ensures reads { ReadsAs (union_type deepest left.old) result left.new }
    ensures shorter { length left.new ≤ length left.old }
{
    let (name, span) = left.name(alloc, Spot::Elsewhere)?;
    left.symbol(Symbol::Equals, Spot::Elsewhere)?;
    let members = members(alloc, left, DEEPEST)?;
    left.takes(Symbol::Semicolon);
    Ok(UnionDef {
        name,
        file: 0,
        span,
        members,
    })
}

// Single ('|' Single)*
#[cycle(members)]
#[tactic(auto, unfolding(crate::specs::TypeSteps::members))]
fn members(alloc: Global, left: &mut Left<'_>, depth: usize) -> Result<Items<Member>, Stop>
    ensures reads { ReadsAs (members (members_inside depth) left.old) result left.new }
    ensures shorter { length left.new ≤ length left.old }
{
    let first = single(alloc, left, depth)?;
    more_members(alloc, left, depth, first)
}

// ('|' Single)*, behind those that were read.
#[cycle(members)]
#[tactic(auto, unfolding(crate::specs::TypeSteps::more_members))]
fn more_members(
    alloc: Global,
    left: &mut Left<'_>,
    depth: usize,
    mut before: Items<Member>,
) -> Result<Items<Member>, Stop>
    ensures reads { ReadsAs (more_members (members_inside depth) before left.old) result left.new }
    ensures shorter { length left.new ≤ length left.old }
{
    'more: while left.takes(Symbol::Bar) {
        let next = single(alloc, left, depth)?;
        before.append(next)?;
    }
    Ok(before)
}

// '@' Word | Word | Primitive | String | '(' Single ('|' Single)* ')'
#[cycle(members)]
#[tactic(auto, unfolding(crate::specs::TypeSteps::single))]
fn single(alloc: Global, left: &mut Left<'_>, depth: usize) -> Result<Items<Member>, Stop>
    ensures reads { ReadsAs (single (members_inside depth) left.old) result left.new }
    ensures shorter { length left.new ≤ length left.old }
{
    if left.sees(Symbol::OpenParenthesis) {
        return members_inside(alloc, left, depth);
    }
    let member = plain_member(alloc, left)?;
    Ok(alone(alloc, member)?)
}

#[cycle(members)]
#[tactic(auto, unfolding(crate::specs::TypeSteps::members_inside))]
fn members_inside(alloc: Global, left: &mut Left<'_>, depth: usize) -> Result<Items<Member>, Stop>
    ensures reads { ReadsAs (members_inside depth left.old) result left.new }
    ensures shorter { length left.new ≤ length left.old }
{
    if depth == 0 {
        return Err(Stop::TooDeep);
    }
    left.skip();
    let inside = members(alloc, left, depth - 1)?;
    left.symbol(Symbol::CloseParenthesis, Spot::Elsewhere)?;
    Ok(inside)
}

// '@' Word | Word | Primitive | String
#[tactic(auto, unfolding(crate::specs::TypeSteps::plain_member, crate::specs::TypeSteps::unmarked_member))]
fn plain_member(alloc: Global, left: &mut Left<'_>) -> Result<Member, Stop>
    ensures reads { ReadsAs (plain_member left.old) result left.new }
    ensures shorter { length left.new ≤ length left.old }
{
    if left.takes(Symbol::At) {
        let (name, span) = left.name(alloc, Spot::Elsewhere)?;
        return Ok(Member::Refers(name, span));
    }
    if left.sees_primitive() {
        return Ok(Member::Plain(left.primitive(Spot::Elsewhere)?));
    }
    if left.sees_text() {
        let (value, _) = left.text(alloc, Spot::Elsewhere)?;
        return Ok(Member::Literal(value));
    }
    let (name, span) = left.name(alloc, Spot::Elsewhere)?;
    Ok(Member::Named(name, span))
}

// A list of one.
fn alone(alloc: Global, member: Member) -> Result<Items<Member>, NoMemory>
    ensures { IfOk result (λ members. members ≡ member ∷ []) }
{
    let mut members = Items::new(alloc);
    members.push(member)?;
    Ok(members)
}
